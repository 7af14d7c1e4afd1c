//! Workers and operators exchange what they have seen, as callers of an access point.

ghost use Rattle.std.specs.Prelude.{OnOk};
ghost use Rattle.ap_live.specs.Tokens.{IsOperator, IsWorker};
ghost use Rattle.ap_queues.specs.Lines.{HasPutNothing};
ghost use Rattle.ap_shards.specs.Tokens.{HaveSeenAlike, KeepOwn};
ghost use Rattle.live_scenes.specs.Submitted.{TookOnly};
ghost use Rattle.live_scenes.specs.Together.{AllStandTogether};

use ap_books::Ledgers;
use ap_live::{LiveAp, OperatorToken, WorkerToken};
use ap_locked::Journals;
use ap_model::Event;
use ap_queues::Unserved;
use std::sync::Wait;

/// Two workers meet: one journal of each shard contains what both decided there.
pub fn meet_workers<B: Ledgers + Journals>(one: &mut WorkerToken<B>, other: &mut WorkerToken<B>)
    ensures together { AllStandTogether B.config one.old.shards other.old.shards }
    ensures one { KeepOwn one.old.shards one.new.shards }
    ensures other { KeepOwn other.old.shards other.new.shards }
    ensures seen { HaveSeenAlike one.new.shards other.new.shards }
{
    one.meet(other);
}

/// A worker and an operator meet: one journal of each shard contains what both decided there.
pub fn meet_operator<B: Ledgers + Journals>(
    worker: &mut WorkerToken<B>,
    operator: &mut OperatorToken<B>,
)
    ensures together { AllStandTogether B.config worker.old.shards operator.old.shards }
    ensures worker { KeepOwn worker.old.shards worker.new.shards }
    ensures operator { KeepOwn operator.old.shards operator.new.shards }
    ensures seen { HaveSeenAlike worker.new.shards operator.new.shards }
{
    worker.meet_operator(operator);
}

/// A new operator submits an event, and meets a worker, which serves at any time: what that took of this operator is a
/// prefix of what the event puts into the worker's queue.
pub fn submit_and_meet<B: Ledgers + Journals, R: Wait>(
    rt: &R,
    ap: &LiveAp<B>,
    worker: &mut WorkerToken<B>,
    operator: &mut OperatorToken<B>,
    told: (u64, Event),
) -> Result<(), Unserved>
    requires worker { IsWorker ap.now worker.old }
    requires operator { IsOperator ap.now operator.old }
    requires new { HasPutNothing ap.now.queues operator.old.lines }
    ensures worker { OnOk result (IsWorker ap.now worker.new) }
    ensures operator { OnOk result (IsOperator ap.now operator.new) }
    ensures took { OnOk result (TookOnly ap.now worker.new operator.new told.0 told.1) }
{
    let (call, event) = told;
    ap.submit(rt, operator, call, event)?;
    ap.meet(worker, operator);
    Ok(())
}
