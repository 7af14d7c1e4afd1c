//! Giving out the tokens of a run.

ghost use Rattle.std.specs.Prelude.{◌≡◌, ◌+◌, ◌≤◌, vec_len, IfOk, OnOk};
ghost use Rattle.std.specs.List.{All};
ghost use Rattle.ap_books.specs.Counts.{none};
ghost use Rattle.bpf_helpers.specs.Hooked.{shapes_of};
ghost use Rattle.ap_live.specs.Counting.{counted_by};
ghost use Rattle.ap_live.specs.Opening.{parts_in_all};
ghost use Rattle.ap_live.specs.Tokens.{AreLeft, IsWorker};
ghost use Rattle.ap_shards.specs.Pages.{HasPages, pages_of};
ghost use Rattle.ap_queues.specs.Lines.{HaveMade};
ghost use Rattle.apd_run.specs.Dealing.{AreHands, AreNumberedFrom, AreRest, IsNewOperator, IsNewWorker};
ghost use Rattle.apd_run.specs.Hands.{AreUnused};

use crate::access::tokens::hire;
use ap_books::{Ledgers, Portions};
use ap_live::{LeftTokens, LiveAp, OperatorToken, WorkerToken};
use ap_locked::Journals;
use ap_queues::LinePasses;
use ap_shards::AllPages;
use std::alloc::{AllocError, Global};

/// What an operator has of an access point: its token, and the parts of the ledgers, the pages of the journals and the
/// handles of the queues that it keeps: `parts` of each ledger, and as many pages of each journal.
#[derive(Drop)]
pub(crate) struct Kept<B: Ledgers + Journals> {
    pub token: Box<OperatorToken<B>>,
    pub hoard: Box<Portions<B>>,
    pub pages: Box<AllPages<B>>,
    pub passes: LinePasses,
    pub parts: u64,
}

/// The tokens of the workers, and the operator's with all other parts of the ledgers and pages of the journals.
#[derive(Drop)]
pub(crate) struct Hands<B: Ledgers + Journals> {
    pub kept: Kept<B>,
    pub workers: Vec<WorkerToken<B>>,
}

/// The tokens of the operator and of the workers.
#[derive(Drop)]
struct Rights<B: Ledgers + Journals> {
    operator: OperatorToken<B>,
    workers: Vec<WorkerToken<B>>,
}

/// A token for each of `count` workers, which are all, and one for the operator.
fn give_rights<B: Ledgers + Journals>(
    ap: &mut LiveAp<B>,
    alloc: Global,
    left: &mut LeftTokens<B>,
    count: usize,
) -> Result<Rights<B>, AllocError>
    requires left { AreLeft ap.old left.old }
    requires unmade { HaveMade 0 left.old.passes }
    requires all { ap.old.stock.workers ≡ count }
    ensures operator { IfOk result (λ r. IsNewOperator ap.new r.operator) }
    ensures own { IfOk result (λ r. All (IsWorker ap.new) r.workers.items) }
    ensures new { IfOk result (λ r. All IsNewWorker r.workers.items) }
    ensures numbered { IfOk result (λ r. AreNumberedFrom 0 r.workers.items) }
    ensures many { IfOk result (λ r. vec_len r.workers ≡ count) }
    ensures parts { IfOk result (λ _. left.new.parts + count + 1 ≡ left.old.parts) }
    ensures counted { IfOk result (λ _. counted_by left.new.shards ≡ counted_by left.old.shards) }
    ensures pages { OnOk result (pages_of left.new.shards ≡ pages_of left.old.shards) }
    ensures rest { OnOk result (AreRest ap.new left.new.passes) }
    ensures list { ap.new.list ≡ ap.old.list }
    ensures queues { ap.new.queues ≡ ap.old.queues }
    ensures maps { shapes_of ap.new.stock.maps ≡ shapes_of ap.old.stock.maps }
{
    let workers = hire(ap, alloc, left, count)?;
    let Ok(operator) = ap.operator(alloc, left) else {
        return Err(AllocError);
    };
    Ok(Rights { operator, workers })
}

/// Puts each value into a box.
fn in_boxes<T: Drop, H: Drop, P: Drop>(
    alloc: Global,
    token: T,
    hoard: H,
    pages: P,
) -> Result<(Box<T>, Box<H>, Box<P>), AllocError>
    ensures token { IfOk result (λ boxes. boxes.0.value ≡ token) }
    ensures hoard { IfOk result (λ boxes. boxes.1.value ≡ hoard) }
    ensures pages { IfOk result (λ boxes. boxes.2.value ≡ pages) }
{
    let token = Box::new(alloc, token)?;
    let hoard = Box::new(alloc, hoard)?;
    let pages = Box::new(alloc, pages)?;
    Ok((token, hoard, pages))
}

/// A token for the operator and one for each of `count` workers, which are all. No token was given out earlier.
pub(crate) fn deal<B: Ledgers + Journals>(
    ap: &mut LiveAp<B>,
    alloc: Global,
    left: LeftTokens<B>,
    count: usize,
) -> Result<Hands<B>, AllocError>
    requires left { AreLeft ap.old left }
    requires unmade { HaveMade 0 left.passes }
    requires all { ap.old.stock.workers ≡ count }
    requires few { count ≤ 8 }
    requires nothing { counted_by left.shards ≡ none }
    requires unwritten { AreUnused (pages_of left.shards) }
    requires parts { left.parts ≡ parts_in_all }
    ensures hands { IfOk result (λ h. AreHands ap.new
        h.kept.token.value h.workers.items h.kept.hoard.value h.kept.parts) }
    ensures pages { IfOk result (λ h. HasPages h.kept.parts h.kept.pages.value) }
    ensures unused { IfOk result (λ h. AreUnused h.kept.pages.value) }
    ensures rest { IfOk result (λ h. AreRest ap.new h.kept.passes) }
    ensures many { IfOk result (λ h. vec_len h.workers ≡ count) }
    ensures list { ap.new.list ≡ ap.old.list }
    ensures queues { ap.new.queues ≡ ap.old.queues }
    ensures maps { shapes_of ap.new.stock.maps ≡ shapes_of ap.old.stock.maps }
{
    let mut left = left;
    let rights = match give_rights(ap, alloc, &mut left, count) {
        Ok(rights) => rights,
        Err(error) => {
            // Dropped by one call, since it has many parts.
            drop(left);
            return Err(error);
        }
    };
    let Rights { operator, workers } = rights;
    let parts = 16 - workers.len() as u64;
    let (hoard, pages, passes) = left.into_all();
    let (token, hoard, pages) = in_boxes(alloc, operator, hoard, pages)?;
    let kept = Kept {
        token,
        hoard,
        pages,
        passes,
        parts,
    };
    Ok(Hands { kept, workers })
}
