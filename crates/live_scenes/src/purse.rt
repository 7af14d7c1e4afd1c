//! Parts of the ledgers that are returned.

ghost use Rattle.std.specs.Prelude.{◌≡◌};
ghost use Rattle.ap_books.specs.Holdings.{HasParts};

use ap_books::{Ledgers, Portions, Totals};
use ap_live::LiveAp;
use ap_locked::Journals;
use std::sync::Wait;

/// The number of parts of each ledger of an access point.
pub(crate) const PARTS: u64 = 17;

/// This many parts of each ledger.
#[derive(Drop)]
pub(crate) struct Purse<B: Ledgers> {
    pub shares: Box<Portions<B>>,
    pub parts: u64,
    pub ghost so_many: { HasParts parts shares.value },
}

impl<B: Ledgers> Purse<B> {
    /// Merges one part of each ledger, with what it has counted. There are never more than `PARTS` parts.
    pub(crate) fn take(&mut self, part: Portions<B>)
        requires { HasParts 1 part }
    {
        if self.parts < PARTS {
            self.shares.merge(part);
            self.parts += 1;
        } else {
            // Freed by a call, since eight shards have many parts.
            drop(part);
        }
    }
}

/// The totals. None if a part is missing.
pub(crate) fn total<B: Ledgers + Journals, R: Wait>(
    rt: &R,
    ap: &LiveAp<B>,
    purse: &mut Purse<B>,
) -> Option<Totals>
    requires { B.shares ≡ 17 }
{
    if purse.parts != PARTS {
        return None;
    }
    Some(ap.gather(rt, &mut *purse.shares))
}
