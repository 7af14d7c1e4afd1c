//! Reports on the events that a worker handled.

ghost use Rattle.std.specs.Prelude.{◌≡◌, ◌++◌, OnOk};
ghost use Rattle.apd_run.specs.Telling.{dropped_in, octets_of, told_of, reports_of, reports_in};

use ap_live::{Fate, Tagged};
use ap_model::Event;
use apd_driver::{Dropped, Report, Told};
use std::alloc::AllocError;

/// The octets of a received frame; none of another event.
fn octets_of(event: &Event) -> &[u8]
    ensures is { result.now ≡ octets_of event.now }
{
    match event {
        Event::Frame(octets) => octets.bytes(),
        Event::Tick(_) | Event::Kick { .. } | Event::Close { .. } => &[],
    }
}

/// The data of an event, if a verdict dropped it.
fn dropped_in(event: &Event, dropped: bool) -> Option<Dropped>
    ensures is { result ≡ dropped_in event.now dropped }
{
    if dropped {
        Some(Dropped::of(octets_of(event)))
    } else {
        None
    }
}

/// The report on an event; `None` if it was not handled.
fn told_of(event: &Event, fate: Fate) -> Option<Told>
    ensures is { result ≡ told_of event.now fate }
{
    match fate {
        Fate::Decided { outs, dropped } => {
            let dropped = dropped_in(event, dropped);
            Some(Told::Handled { outs, dropped })
        }
        Fate::Refused => Some(Told::Memory),
        Fate::NotHandled => None,
    }
}

/// Appends the report on an event, whose call is its line's number. The event, which the operator's thread allocated,
/// is freed here.
fn report(all: &mut Vec<Report>, tagged: Tagged) -> Result<(), AllocError>
    ensures { OnOk result (all.new.items ≡ all.old.items ++ reports_of tagged) }
{
    let Tagged { item, fate } = tagged;
    if let Some(told) = told_of(&item.event, fate) {
        all.push(Report {
            line: item.call,
            shard: item.shard,
            told,
        })?;
    }
    Ok(())
}

/// Appends the reports on a worker's list of events, in order.
pub(crate) fn report_all(all: &mut Vec<Report>, list: Vec<Tagged>) -> Result<(), AllocError>
    ensures { OnOk result (all.new.items ≡ all.old.items ++ reports_in list.items) }
{
    all.reserve(list.len())?;
    for tagged in list {
        report(all, tagged)?;
    }
    Ok(())
}
