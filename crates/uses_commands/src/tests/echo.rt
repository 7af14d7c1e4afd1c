//! An access point that reports each tick as refused, unless it has no units. It does what `run_lines` requires of one.

ghost use Rattle.std.specs.Prelude.{◌≡◌, vec_len, None, IfErr, IfOk, OnOk};
ghost use Rattle.ap_books.specs.Counts.{none};
ghost use Rattle.ap_books.specs.Reading.{Reads};
ghost use Rattle.ap_model.specs.AccessPoint.{shard_of};
ghost use Rattle.apd_driver.specs.Tells.{Tells};
ghost use Rattle.uses_commands.specs.Idling.{idle};

use ap_books::Totals;
use ap_model::Event;
use apd_driver::{
    AgreementRow, Operating, ProgramRow, Publication, Report, Serving, StationRow, Told, Unread,
    Waiting, WordUse,
};
use apd_files::{CodeFault, FileFault};
use std::alloc::{AllocError, Global};
use std::sync::{Arc, Mutex, Wait};

/// A waiting tick: its line and its units.
#[derive(Clone, Copy)]
pub struct Tick {
    pub line: u64,
    pub units: u32,
}

/// A place for one tick, which a worker empties.
pub type Place = Arc<Mutex<Option<Tick>>>;

/// Serves one place, and keeps the lines of the ticks that it refused.
#[derive(Drop)]
pub struct Echo {
    pub place: Place,
    pub refused: Vec<u64>,
}

/// Takes the tick of a place, if there is one.
fn taken<R: Wait>(rt: &R, place: &Place) -> Option<Tick> {
    let mut place = place.lock(rt);
    let tick = *place;
    *place = None;
    tick
}

/// Takes the tick of a place, and keeps its line if it has units. Returns whether there was one.
fn take_tick<R: Wait>(rt: &R, place: &Place, refused: &mut Vec<u64>) -> Result<bool, AllocError> {
    refused.reserve(1)?;
    match taken(rt, place) {
        None => Ok(false),
        Some(Tick { line, units }) => {
            if units != 0 {
                refused.push_reserved(line);
            }
            Ok(true)
        }
    }
}

impl Serving for Echo {
    fn serve<R: Wait>(&mut self, rt: &R) -> Result<bool, AllocError> {
        let mut any = false;
        for _ in rt.forever() {
            if !take_tick(rt, &self.place, &mut self.refused)? {
                return Ok(any);
            }
            any = true;
        }
        unreachable!()
    }
}

/// Appends a report on each of these lines that it was refused.
fn report_refused(reports: &mut Vec<Report>, lines: &[u64]) -> Result<(), AllocError>
    ensures told { OnOk result (Tells reports.old.items reports.new.items) }
{
    for line in lines {
        report_one(reports, *line)?;
    }
    Ok(())
}

fn report_one(reports: &mut Vec<Report>, line: u64) -> Result<(), AllocError>
    ensures told { OnOk result (Tells reports.old.items reports.new.items) }
{
    reports.reserve(1)?;
    reports.push_reserved(Report {
        line,
        shard: 0,
        told: Told::Memory,
    });
    Ok(())
}

/// A place for each worker, and the number of workers.
#[derive(Drop)]
pub struct Places {
    pub places: Vec<Place>,
    pub workers: u64,
}

/// Puts a tick into the place of its line; returns `false` if another waits there.
fn put<R: Wait>(rt: &R, places: &[Place], tick: Tick) -> bool {
    if places.is_empty() {
        return true;
    }
    let mut place = places[tick.line as usize % places.len()].lock(rt);
    if place.is_some() {
        return false;
    }
    *place = Some(tick);
    true
}

/// Puts a tick, or returns it for this shard; drops any other event.
fn put_event<R: Wait>(
    rt: &R,
    places: &[Place],
    line: u64,
    event: Event,
    shard: u16,
) -> Result<(), Waiting>
    ensures waits { IfErr result (λ w. w ≡ record { event = event; shard = shard }) }
    ensures tick { IfErr result (λ w. shard_of event ≡ None) }
{
    match event {
        Event::Tick(units) => {
            if put(rt, places, Tick { line, units }) {
                return Ok(());
            }
            return Err(Waiting {
                event: Event::Tick(units),
                shard,
            });
        }
        _ => return Ok(()),
    }
}

impl Operating<Echo> for Places {
    ghost use Rattle.ap_books.specs.Counts.{none};
    ghost use Rattle.uses_commands.specs.Idling.{idle};

    ghost semantics = { idle };

    ghost crew = { λ o. record { workers = o.workers; counted = none; work = tt } };

    fn submit<R: Wait>(&mut self, rt: &R, line: u64, event: Event) -> Result<(), Waiting> {
        put_event(rt, self.places.as_slice(), line, event, 0)
    }

    fn go_on<R: Wait>(&mut self, rt: &R, line: u64, waiting: Waiting) -> Result<(), Waiting> {
        let Waiting { event, shard } = waiting;
        put_event(rt, self.places.as_slice(), line, event, shard)
    }

    fn publish<R: Wait>(&mut self, _rt: &R, publication: Publication<'_>) -> Option<Told> {
        match publication {
            Publication::Load { .. } => return Some(Told::Unreadable(Unread::Code(
                CodeFault::Unreadable(FileFault::Missing),
            ))),
            Publication::Adopt { .. } => return None,
            Publication::Unload(_) => return Some(Told::Memory),
        }
    }

    fn use_word(&mut self, _wanted: WordUse) -> Option<Told> {
        None
    }

    fn stations<R: Wait>(&mut self, _rt: &R, alloc: Global) -> Result<Vec<StationRow>, AllocError> {
        Ok(Vec::new(alloc))
    }

    fn agreements<R: Wait>(
        &mut self,
        _rt: &R,
        alloc: Global,
    ) -> Result<Vec<AgreementRow>, AllocError> {
        Ok(Vec::new(alloc))
    }

    fn programs(&self, alloc: Global) -> Result<Vec<ProgramRow>, AllocError> {
        Ok(Vec::new(alloc))
    }

    fn counted(&self) -> Totals {
        Totals::new()
    }

    fn settle(&mut self, worker: &mut Echo, reports: &mut Vec<Report>) -> Result<(), AllocError> {
        report_refused(reports, worker.refused.as_slice())?;
        worker.refused.clear();
        Ok(())
    }

    fn find_none_left(&self) -> Result<(), AllocError> {
        Ok(())
    }

    fn gather<R: Wait>(self, _rt: &R, workers: Vec<Echo>) -> Result<Totals, AllocError>
        requires all { vec_len workers ≡ self.workers }
        ensures reads { IfOk result (λ totals. Reads totals none) }
        ensures all_told { OnOk result (idle.AllTold none tt) }
    {
        drop(workers);
        Ok(Totals::new())
    }
}
