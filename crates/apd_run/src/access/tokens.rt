//! The tokens of all workers.

ghost use Rattle.std.specs.Prelude.{◌≡◌, ◌+◌, vec_len, IfOk, OnOk};
ghost use Rattle.std.specs.List.{All};
ghost use Rattle.bpf_helpers.specs.Hooked.{shapes_of};
ghost use Rattle.ap_live.specs.Counting.{counted_by};
ghost use Rattle.ap_live.specs.Tokens.{AreLeft, IsWorker};
ghost use Rattle.ap_queues.specs.Lines.{HaveMade};
ghost use Rattle.ap_shards.specs.Pages.{pages_of};
ghost use Rattle.apd_run.specs.Dealing.{AreNumberedFrom, IsNewWorker};

use ap_books::Ledgers;
use ap_live::{LeftTokens, LiveAp, WorkerToken};
use ap_locked::Journals;
use std::alloc::{AllocError, Global};

/// The tokens of `count` workers, which are all, by number.
pub(crate) fn hire<B: Ledgers + Journals>(
    ap: &mut LiveAp<B>,
    alloc: Global,
    left: &mut LeftTokens<B>,
    count: usize,
) -> Result<Vec<WorkerToken<B>>, AllocError>
    requires left { AreLeft ap.old left.old }
    requires unmade { HaveMade 0 left.old.passes }
    requires all { ap.old.stock.workers ≡ count }
    ensures left { AreLeft ap.new left.new }
    ensures unmade { HaveMade 0 left.new.passes }
    ensures own { IfOk result (λ ws. All (IsWorker ap.new) ws.items) }
    ensures new { IfOk result (λ ws. All IsNewWorker ws.items) }
    ensures numbered { IfOk result (λ ws. AreNumberedFrom 0 ws.items) }
    ensures many { IfOk result (λ ws. vec_len ws ≡ count) }
    ensures parts { IfOk result (λ ws. left.new.parts + vec_len ws ≡ left.old.parts) }
    ensures counted { IfOk result (λ _. counted_by left.new.shards ≡ counted_by left.old.shards) }
    ensures pages { OnOk result (pages_of left.new.shards ≡ pages_of left.old.shards) }
    ensures list { ap.new.list ≡ ap.old.list }
    ensures queues { ap.new.queues ≡ ap.old.queues }
    ensures maps { shapes_of ap.new.stock.maps ≡ shapes_of ap.old.stock.maps }
{
    let mut tokens = Vec::new(alloc);
    for number in 0..count {
        let Ok(token) = ap.worker(alloc, left, number) else {
            return Err(AllocError);
        };
        tokens.push(token)?;
    }
    Ok(tokens)
}
