//! What a caller of the access point concludes, by one law.

ghost use Rattle.std.specs.Prelude.{◌≡◌, IfOk, IfErr};
ghost use Rattle.ap_model.specs.AccessPoint.{InPlace};
ghost use Rattle.ap_core.specs.AccessPoints.{rules_of, outs_in};
ghost use Rattle.uses_link.specs.Headline.{HoldsFromNobody, HoldsOn, HoldsAtOne, HoldsTwice};

use ap_core::{Event, Judge, LinkConfig, Out, Shard, handle_all, new_shards};
use ap_laws::link_law;
use std::alloc::{AllocError, Global};

/// Handles a list of events at a new access point. If it succeeds, then for all events and verdicts: turns give the
/// outputs of each event that was not refused, and the judge's verdicts; for each of eight shards they are a run of the
/// link from the opening; each frame that is passed up has a source that was associated without interruption since its
/// arrival; each agreement has passed up exactly the accepted numbers below its window, once each, in increasing order;
/// and no two stations hold one identifier. If it fails, the judge is unchanged.
pub fn serve<J: Judge>(
    alloc: Global,
    config: &LinkConfig,
    events: &[Event],
    judge: &mut J,
) -> Result<Vec<Option<Vec<Out>>>, AllocError>
    ensures headline { IfOk result
        (λ results. HoldsFromNobody J.gives config.now events.now judge.old (outs_in results.items)
        judge.new) }
    ensures refused { IfErr result (λ _. judge.new ≡ judge.old) }
{
    link_law::<J>();
    let mut shards = new_shards(alloc, config)?;
    let results = handle_all(alloc, &mut shards, events, judge)?;
    Ok(results)
}

/// Handles a list of events at any eight shards, each at the index of its number, where they stay. If it succeeds, the
/// same holds of their entries, after those of some history.
pub fn go_on<J: Judge>(
    alloc: Global,
    shards: &mut [Shard; 8],
    events: &[Event],
    judge: &mut J,
) -> Result<Vec<Option<Vec<Out>>>, AllocError>
    requires place { InPlace (rules_of shards.old) }
    ensures headline { IfOk result
        (λ results. ∥ HoldsOn J.gives shards.old events.now judge.old (outs_in results.items)
        shards.new judge.new ∥₁) }
    ensures place { InPlace (rules_of shards.new) }
{
    link_law::<J>();
    let results = handle_all(alloc, shards, events, judge)?;
    Ok(results)
}

/// Handles an event at any one shard. If it succeeds, the same holds of its entries.
pub fn decide<J: Judge>(
    alloc: Global,
    shard: &mut Shard,
    event: &Event,
    judge: &mut J,
) -> Result<Vec<Out>, AllocError>
    ensures headline { IfOk result
        (λ outs. ∥ HoldsAtOne J.gives shard.old event.now judge.old outs.items shard.new judge.new
        ∥₁) }
{
    link_law::<J>();
    let _stations = shard.stations();
    let outs = shard.handle(alloc, event, judge)?;
    Ok(outs)
}

/// The results under each of two judges.
type Twice = (Vec<Option<Vec<Out>>>, Vec<Option<Vec<Out>>>);

/// Handles a list of events at two new access points, under two judges. If it succeeds, the same holds of each; and if
/// the events that were not refused are the same, shard by shard, and so are all verdicts except those on data, then
/// the agreements are the same and their windows have the same starts.
pub fn compare<J: Judge>(
    alloc: Global,
    config: &LinkConfig,
    events: &[Event],
    one: &mut J,
    other: &mut J,
) -> Result<Twice, AllocError>
    ensures headline { IfOk result
        (HoldsTwice J.gives config.now events.now one.old one.new other.old other.new) }
{
    link_law::<J>();
    let first = serve(alloc, config, events, one)?;
    let second = serve(alloc, config, events, other)?;
    Ok((first, second))
}
