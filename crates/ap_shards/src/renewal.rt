//! Exchanging parts of the ledgers.

use crate::tokens::ShardTokens;
use ap_books::{Ledgers, Portions};
use ap_locked::Journals;

impl<B: Ledgers + Journals> ShardTokens<B> {
    ghost use Rattle.std.specs.Prelude.{◌≡◌};
    ghost use Rattle.ap_shards.specs.Renewal.{AreFresh, AreRenewed};
    ghost use Rattle.ap_shards.specs.Tokens.{holding_of};

    /// Exchanges its parts of the ledgers, with what they have counted, for others that have counted
    /// nothing. Then no entry of its own has come since; its pages are unchanged.
    pub fn renew(&mut self, fresh: Portions<B>) -> Portions<B>
        requires { AreFresh fresh }
        ensures given { result ≡ holding_of self.old }
        ensures taken { holding_of self.new ≡ fresh }
        ensures renewed { AreRenewed self.old self.new }
    {
        let Portions {
            of0,
            of1,
            of2,
            of3,
            of4,
            of5,
            of6,
            of7,
        } = fresh;
        Portions {
            of0: self.of0.renew(of0),
            of1: self.of1.renew(of1),
            of2: self.of2.renew(of2),
            of3: self.of3.renew(of3),
            of4: self.of4.renew(of4),
            of5: self.of5.renew(of5),
            of6: self.of6.renew(of6),
            of7: self.of7.renew(of7),
        }
    }
}
