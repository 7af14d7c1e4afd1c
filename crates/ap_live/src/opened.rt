//! A new access point, and the tokens of its users.

ghost use Rattle.std.specs.Prelude.{◌≡◌, ◌-◌, ◌<◌, ◌≤◌, [], IfOk, Ok, OnErr, OnOk};
ghost use Rattle.bpf_helpers.specs.Hooked.{IsFitting, KeepTables};
ghost use Rattle.versions.specs.Lists.{readers_of};
ghost use Rattle.ap_queues.specs.Lines.{HasPutNothing, MakesNoMore, MakesOneMore};
ghost use Rattle.ap_queues.specs.Passes.{taken_by};
ghost use Rattle.ap_shards.specs.Opening.{AreNamed, whole};
ghost use Rattle.ap_shards.specs.Pages.{AreNewPages};
ghost use Rattle.ap_shards.specs.Tokens.{IsNewcomer};
ghost use Rattle.ap_live.specs.Lives.{KeepsLive};
ghost use Rattle.hook_judge.specs.Sums.{no_counts};
ghost use Rattle.ap_live.specs.Opening.{ArePlaces, GaveNothing, GaveToken, IsOpened, parts_in_all};
ghost use Rattle.ap_live.specs.Tokens.{AreLeft, IsOperator, IsWorker};

use crate::live::{LiveAp, Settings};
use crate::tokens::{LeftTokens, OperatorToken, WorkerToken};
use ap_books::Ledgers;
use ap_locked::Journals;
use ap_queues::{EventLines, LineFault, LinePasses};
use ap_shards::{AllPages, NewShards, ShardTokens, Shards};
use ap_tables::ApTables;
use bpf_regions::Shapes;
use hook_judge::CountedState;
use shared_maps::MapFault;
use std::alloc::{AllocError, Global};
use std::sync::Wait;
use versions::new_publisher::published;
use versions::{Published, Publisher};

/// The number of parts of each ledger, and of pages of each journal: one for each of 8 operators and of
/// 8 workers, and one that stays.
pub const PARTS: u64 = 17;

/// A new access point, its publisher, and the tokens to give.
pub struct Opened<B: Ledgers + Journals> {
    pub ap: LiveAp<B>,
    pub publisher: Publisher,
    pub left: LeftTokens<B>,
}

/// The queues of all workers, with all their handles, and their tables.
#[derive(Drop)]
struct Places {
    lines: EventLines,
    passes: LinePasses,
    tables: ApTables,
}

/// Makes empty queues, and tables of zeros.
fn open_places(alloc: Global, shapes: &Shapes, workers: u32) -> Result<Places, AllocError>
    requires some { 0 < workers }
    requires few { workers ≤ 8 }
    ensures { IfOk result (λ p. ArePlaces workers shapes.now p.lines p.passes p.tables) }
{
    let (lines, passes) = EventLines::open(alloc, workers as usize)?;
    let tables = ApTables::new(alloc, shapes, workers)?;
    Ok(Places {
        lines,
        passes,
        tables,
    })
}

/// Puts shards, tokens and pages that were made each into memory of their own, since they have many parts.
fn in_boxes<S: Drop, T: Drop, P: Drop>(
    alloc: Global,
    made: Result<(S, T, P), AllocError>,
) -> Result<(Box<S>, Box<T>, Box<P>), AllocError>
    ensures { IfOk result (λ boxes. made ≡ Ok (boxes.0.value, boxes.1.value, boxes.2.value)) }
{
    let (shards, tokens, pages) = made?;
    let shards = Box::new(alloc, shards)?;
    let tokens = Box::new(alloc, tokens)?;
    let pages = Box::new(alloc, pages)?;
    Ok((shards, tokens, pages))
}

/// An access point from shards, queues, tables, and a list of published loads.
fn assembled<B: Ledgers + Journals>(
    shards: (Box<Shards<B>>, Box<ShardTokens<B>>, Box<AllPages<B>>),
    places: Places,
    list: (Publisher, Published),
    draw: u64,
    workers: u32,
) -> Opened<B>
    requires some { 0 < workers }
    requires tokens { shards.1.value ≡ whole parts_in_all }
    requires pages { AreNewPages (parts_in_all - 1) shards.2.value }
    requires places { ArePlaces workers list.0.shapes places.lines places.passes places.tables }
    requires empty { list.0.loads ≡ [] }
    requires readers { list.1 ≡ readers_of list.0 workers }
    ensures { IsOpened workers list.0.shapes draw result.ap result.publisher result.left }
{
    let (shards, tokens, pages) = shards;
    let (publisher, readers) = list;
    let Places {
        lines,
        passes,
        tables,
    } = places;
    let ap = LiveAp {
        shards,
        lines,
        tables,
        entrance: readers.entrance(),
        draw,
    };
    let left = LeftTokens {
        readers,
        passes,
        parts: PARTS,
        shards: tokens,
        pages,
    };
    Opened {
        ap,
        publisher,
        left,
    }
}

/// The state of a worker's programs, of which nothing was counted.
fn state_of(
    tables: &mut ApTables,
    alloc: Global,
    worker: usize,
    draw: u64,
) -> Result<CountedState, MapFault>
    requires there { worker < tables.old.workers }
    ensures tables { KeepTables tables.old.maps tables.new.maps }
    ensures workers { tables.new.workers ≡ tables.old.workers }
    ensures fitting { IfOk result (λ s. IsFitting tables.new.maps worker s.seats) }
    ensures draw { IfOk result (λ s. s.draw ≡ draw) }
    ensures uncounted { IfOk result (λ s. s.counts ≡ no_counts) }
{
    let state = tables.worker(alloc, worker, draw)?;
    let state = CountedState::new(alloc, state)?;
    Ok(state)
}

impl<B: Ledgers + Journals> LiveAp<B> {
    /// An access point before any event, with no program, and tables of zeros. Its ledgers, each
    /// divided into `PARTS` parts, and its journals are those of the new shards. Its type names these,
    /// and the configuration of the settings.
    pub fn open<R: Wait>(
        rt: &R,
        alloc: Global,
        settings: Settings,
        new: NewShards,
    ) -> Result<Opened<B>, AllocError>
        requires some { 0 < settings.workers }
        requires few { settings.workers ≤ 8 }
        requires named { AreNamed B.name_of B.shares B.journal_of new }
        requires config { settings.link ≡ B.config }
        requires parts { B.shares ≡ parts_in_all }
        ensures { IfOk result
            (λ o. IsOpened settings.workers settings.shapes settings.draw o.ap o.publisher o.left) }
    {
        let Settings {
            link,
            shapes,
            draw,
            workers,
        } = settings;
        let shards = in_boxes(alloc, Shards::open(alloc, &link, new))?;
        drop(link);
        let places = match open_places(alloc, &shapes, workers) {
            Ok(places) => places,
            Err(error) => {
                drop(shards);
                return Err(error);
            }
        };
        // Freed by one call each, since queues and tables have many parts.
        let list = match published(rt, alloc, shapes, workers) {
            Ok(list) => list,
            Err(error) => {
                drop(shards);
                drop(places);
                return Err(error);
            }
        };
        Ok(assembled(shards, places, list, draw, workers))
    }

    /// The token of the next operator, which has put nothing. Fault 62: all were given. Only tests show
    /// that 8 are. If it fails, no part of a ledger is given.
    pub fn operator(
        &mut self,
        alloc: Global,
        left: &mut LeftTokens<B>,
    ) -> Result<OperatorToken<B>, LineFault>
        requires { AreLeft self.old left.old }
        ensures keeps { KeepsLive self.old self.new }
        ensures left { AreLeft self.new left.new }
        ensures own { IfOk result (IsOperator self.new) }
        ensures unput { IfOk result (λ o. HasPutNothing self.new.queues o.lines) }
        ensures new { IfOk result (λ o. IsNewcomer left.old.shards o.shards) }
        ensures given { OnOk result (GaveToken left.old left.new) }
        ensures made { OnOk result (MakesOneMore left.old.passes left.new.passes) }
        ensures refused { OnErr result (GaveNothing left.old left.new) }
    {
        let lines = self.lines.operator(alloc, &mut left.passes)?;
        let Ok(seats) = self.tables.operator(alloc) else {
            return Err(LineFault::NoMemory);
        };
        if left.parts <= 1 {
            return Err(LineFault::NoPass);
        }
        left.parts -= 1;
        let shards = left.shards.split_one(&mut *left.pages, left.parts);
        Ok(OperatorToken {
            lines,
            seats,
            shards,
        })
    }

    /// The token of a worker, which has taken and counted nothing, and whose programs first draw the
    /// configured word; given once, after that fault 62. Only tests show that it is given. If it fails,
    /// no part of a ledger is given.
    pub fn worker(
        &mut self,
        alloc: Global,
        left: &mut LeftTokens<B>,
        number: usize,
    ) -> Result<WorkerToken<B>, LineFault>
        requires own { AreLeft self.old left.old }
        requires there { number < self.old.stock.workers }
        ensures keeps { KeepsLive self.old self.new }
        ensures left { AreLeft self.new left.new }
        ensures own { IfOk result (IsWorker self.new) }
        ensures number { IfOk result (λ w. w.number ≡ number) }
        ensures untaken { IfOk result (λ w. taken_by w.pass ≡ []) }
        ensures draw { IfOk result (λ w. w.held.draw ≡ self.old.draw) }
        ensures uncounted { IfOk result (λ w. w.held.counts ≡ no_counts) }
        ensures new { IfOk result (λ w. IsNewcomer left.old.shards w.shards) }
        ensures given { OnOk result (GaveToken left.old left.new) }
        ensures made { MakesNoMore left.old.passes left.new.passes }
        ensures refused { OnErr result (GaveNothing left.old left.new) }
    {
        let pass = self.lines.worker(&mut left.passes, number)?;
        let Ok(reader) = left.readers.reader() else {
            return Err(LineFault::NoPass);
        };
        let Ok(state) = state_of(&mut self.tables, alloc, number, self.draw) else {
            return Err(LineFault::NoMemory);
        };
        if left.parts <= 1 {
            return Err(LineFault::NoPass);
        }
        left.parts -= 1;
        let shards = left.shards.split_one(&mut *left.pages, left.parts);
        Ok(WorkerToken {
            number,
            pass,
            reader,
            state,
            shards,
        })
    }
}
