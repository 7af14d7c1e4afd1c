//! One event at an access point whose programs are tried.

ghost use Rattle.std.specs.Prelude.{◌≡◌, ◌∷◌, [], IfOk};
ghost use Rattle.std.specs.Option.{option_map};
ghost use Rattle.bpf_helpers.specs.Hooked.{IsFitting};
ghost use Rattle.ap_model.specs.AccessPoint.{InPlace};
ghost use Rattle.ap_core.specs.AccessPoints.{rules_of, RunsAll};
ghost use Rattle.apd_eval.specs.Witnesses.{Keeps, Witnesses};
ghost use Rattle.apd_eval.specs.Leading.{Leads, Happens};

use crate::meter::Meter;
use crate::ruling::Ruling;
use crate::tried::Policy;
use crate::witness::Witness;
use ap_core::{Event, Out, Shard, handle_one};
use ap_single::view_at;
use std::alloc::{AllocError, Global};

/// The outputs of an event, or that it was refused for lack of memory, and its last query, if anything was asked.
#[derive(Drop)]
struct Handled {
    outs: Option<Vec<Out>>,
    last: Option<Ruling>,
}

/// Handles an event at the shards that it concerns.
#[tactic(auto, using(crate::proofs::Kept::kept))]
fn ask(
    alloc: Global,
    shards: &mut [Shard; 8],
    event: &Event,
    judge: &mut Witness<'_, '_, '_>,
) -> Handled
    requires place { InPlace (rules_of shards.old) }
    ensures run { RunsAll Witnesses shards.old (event.now ∷ []) judge.old
        (option_map (λ outs. outs.items) result.outs ∷ []) shards.new judge.new }
    ensures last { result.last ≡ judge.new.last }
    ensures keeps { Keeps judge.old judge.new }
    ensures place { InPlace (rules_of shards.new) }
{
    let outs = handle_one(alloc, shards, event, judge);
    let last = judge.last;
    Handled { outs, last }
}

/// Handles an event at the shards that it concerns, judged by the programs.
fn judged(
    alloc: Global,
    shards: &mut [Shard; 8],
    policy: Policy<'_>,
    state: &mut Meter,
    event: Event,
) -> Handled
    requires place { InPlace (rules_of shards.old) }
    requires fitting { IsFitting policy.maps.now 0 state.old.held.seats }
    ensures led { Leads policy.entry event
        (option_map (λ outs. outs.items) result.outs) result.last
        shards.old state.old shards.new state.new }
    ensures place { InPlace (rules_of shards.new) }
    ensures fitting { IsFitting policy.entry.maps.now 0 state.new.held.seats }
{
    let view = view_at(shards, &event, policy.maps);
    let mut judge = Witness::new(policy.programs, view, state);
    ask(alloc, shards, &event, &mut judge)
}

/// Handles an event, and returns its last query, if anything was asked. An event that is refused for lack of memory is
/// an error.
pub(crate) fn handle(
    alloc: Global,
    shards: &mut [Shard; 8],
    policy: Policy<'_>,
    state: &mut Meter,
    event: Event,
) -> Result<Option<Ruling>, AllocError>
    requires place { InPlace (rules_of shards.old) }
    requires fitting { IsFitting policy.maps.now 0 state.old.held.seats }
    ensures happens { IfOk result (λ last.
        Happens policy.entry event last shards.old state.old shards.new state.new) }
    ensures place { InPlace (rules_of shards.new) }
    ensures fitting { IsFitting policy.entry.maps.now 0 state.new.held.seats }
{
    let Handled { outs, last } = judged(alloc, shards, policy, state, event);
    match outs {
        Some(_) => return Ok(last),
        None => return Err(AllocError),
    }
}
