//! Running lines on an access point made from settings.

ghost use Rattle.std.specs.Prelude.{◌≡◌, ◌+◌, ◌<◌, ◌≤◌, [], length, vec_len, IfOk};
ghost use Rattle.std.specs.List.{All};
ghost use Rattle.ap_books.specs.Counts.{none};
ghost use Rattle.ap_books.specs.Holdings.{HasParts, sum_of};
ghost use Rattle.ap_live.specs.Opening.{parts_in_all};
ghost use Rattle.ap_live.specs.Tokens.{IsWorker};
ghost use Rattle.ap_shards.specs.Opening.{AreNamed};
ghost use Rattle.ap_shards.specs.Pages.{HasPages};
ghost use Rattle.apd_run.specs.Dealing.{AreHands, AreNumberedFrom, AreRest, IsNewOperator, IsNewWorker};
ghost use Rattle.apd_run.specs.Hands.{AreUnused, crew_of};
ghost use Rattle.apd_driver.specs.Captures.{KeepsWhole};
ghost use Rattle.apd_driver.specs.Shows.{IsBroken};
ghost use Rattle.apd_run.specs.NewRuns.{IsNewCrew, RunsNew, plan_at};

use crate::access::hands::{Hands, Kept, deal};
use crate::access::names::Names;
use crate::access::operator::{LiveOperator, Sources};
use crate::access::program_counts::ProgramCounts;
use crate::access::register::{Batch, Register};
use crate::access::worker::LiveWorker;
use crate::loads::{Limits, Loads};
use ap_books::{Ledgers, Totals};
use ap_live::{Gate, LiveAp, Opened, Settings, WorkerToken};
use ap_locked::Journals;
use ap_shards::NewShards;
use apd_driver::{Console, Lines, Staff, run_lines};
use apd_files::Files;
use bpf_regions::Shapes;
use std::alloc::{AllocError, Global};
use std::marker::{Brand, PhantomData};
use std::sync::Wait;
use std::thread::Threads;

/// The status of a run for which an allocation failed.
const NO_MEMORY: u8 = 3;

/// What a run uses besides its access point: the files of its loads, what the verifier or a check may do for each
/// program, and the gate that is told of each event.
#[derive(Drop)]
pub struct Supplies<'a, F, G: Drop> {
    pub files: &'a mut F,
    pub limits: Limits,
    pub gate: G,
}

/// What a run begins with: what its access point is made from, a copy of its maps' shapes, and its lines.
#[derive(Drop)]
pub struct Opening<S: Drop> {
    pub settings: Settings,
    pub shapes: Shapes,
    pub new: NewShards,
    pub lines: S,
}

/// An access point whose tokens were given out: the tokens, a journal for the batches of its workers, the programs in force
/// there, and what a run uses besides.
struct Equipment<'a, 'b, B: Ledgers + Journals, F, G: Drop> {
    ap: &'a LiveAp<B>,
    hands: Hands<B>,
    batches: ap_journal::Opened<Batch>,
    loads: Loads,
    supplies: Supplies<'b, F, G>,
}

/// The end of a run for which an allocation failed before it began.
fn without_memory<P: Console>(writer: P) -> (P, u8)
    ensures same { P.contents result.0 ≡ P.contents writer }
    ensures broken { IsBroken result.1 }
{
    (writer, NO_MEMORY)
}

/// Workers at rest.
fn ready_workers<'a, B, L, G>(
    alloc: Global,
    ap: &'a LiveAp<B>,
    gate: G,
    register: &Register<L>,
    tokens: Vec<WorkerToken<B>>,
) -> Result<Vec<LiveWorker<'a, B, L, G>>, AllocError>
where
    B: Ledgers + Journals,
    L: Names,
    G: Gate + Copy,
    requires own { All (IsWorker ap.now) tokens.items }
    requires new { All IsNewWorker tokens.items }
    requires numbered { AreNumberedFrom 0 tokens.items }
    requires named { ap.now ≡ L.ap }
    requires none { register.now ≡ [] }
    ensures many { IfOk result (λ ready. vec_len ready ≡ vec_len tokens) }
{
    let mut tokens = tokens;
    let mut ready = Vec::with_capacity(alloc, tokens.len())?;
    'tokens: while let Some(token) = tokens.pop() {
        let number = tokens.len();
        ready.push_reserved(LiveWorker {
            ap,
            alloc,
            gate,
            receipt: register.receipt(number),
            token,
            told: 0,
            handled: Vec::new(alloc),
            list: PhantomData,
        });
    }
    Ok(ready)
}

/// An operator that keeps these parts of the ledgers, beside all workers.
fn new_operator<'a, B, L, F>(
    ap: &'a LiveAp<B>,
    kept: Kept<B>,
    register: Register<L>,
    loads: &'a mut Loads,
    sources: Sources<'a, F>,
) -> LiveOperator<'a, B, L, F>
where
    B: Ledgers + Journals,
    L: Names,
    F: Files,
    requires new { IsNewOperator ap.now kept.token.value }
    requires kept { HasParts kept.parts kept.hoard.value }
    requires pages { HasPages kept.parts kept.pages.value }
    requires unused { AreUnused kept.pages.value }
    requires rest { AreRest ap.now kept.passes }
    requires enough { 1 < kept.parts }
    requires nothing { sum_of kept.hoard.value ≡ none }
    requires some { 0 < length ap.now.queues }
    requires all { kept.parts + length ap.now.queues + 1 ≡ parts_in_all }
    requires none { register ≡ [] }
    requires shares { B.shares ≡ parts_in_all }
    requires named { ap.now ≡ L.ap }
    requires list { loads.old.list ≡ L.ap.list.list }
    requires no_loads { loads.old.loads ≡ [] }
    ensures workers { (crew_of F.held result).workers ≡ length ap.now.queues }
    ensures new { IsNewCrew (F.held sources.entry.files.now) sources.entry.limits
        (plan_at B.config ap.now) (crew_of F.held result) }
{
    let Kept {
        token,
        hoard,
        pages,
        passes,
        parts,
    } = kept;
    LiveOperator {
        ap,
        token,
        hoard,
        pages,
        parts,
        passes,
        register,
        told: [0; 8],
        settled: [false; 8],
        totals: Totals::new(),
        workers: ap.workers() as u64,
        loads,
        programs: ProgramCounts::none(),
        sources,
        list: PhantomData,
    }
}

/// Runs lines on an access point whose tokens were given out.
fn run_with<B, L, F, G, R, S, P>(
    rt: &R,
    alloc: Global,
    equipment: Equipment<'_, '_, B, F, G>,
    lines: S,
    writer: P,
) -> (P, u8)
where
    B: Ledgers + Journals + Send + Sync,
    L: Names + Send,
    F: Files,
    G: Gate + Copy + Send,
    R: Threads + Wait + Sync,
    S: Lines + Drop,
    P: Console + Drop,
    requires hands { let hands = equipment.hands in
        AreHands equipment.ap.now hands.kept.token.value hands.workers.items hands.kept.hoard.value hands.kept.parts }
    requires pages { HasPages equipment.hands.kept.parts equipment.hands.kept.pages.value }
    requires unused { AreUnused equipment.hands.kept.pages.value }
    requires rest { AreRest equipment.ap.now equipment.hands.kept.passes }
    requires shares { B.shares ≡ parts_in_all }
    requires some { 0 < length equipment.ap.now.queues }
    requires each { length equipment.ap.now.queues ≡ vec_len equipment.hands.workers }
    requires named { equipment.ap.now ≡ L.ap }
    requires batches { equipment.batches ≡ L.batches }
    requires loads { equipment.loads.list ≡ L.ap.list.list }
    requires no_loads { equipment.loads.loads ≡ [] }
    ensures runs { RunsNew (F.held equipment.entry.supplies.files.now) equipment.entry.supplies.limits
        (plan_at B.config equipment.entry.ap.now) (P.manner writer) (S.script lines) (P.contents writer) (P.contents result.0) result.1 }
    ensures keeps { result.1 < 2 → KeepsWhole (P.manner writer).form (S.script lines)
        (P.contents writer) (P.contents result.0)
        (P.recorded writer) (P.recorded result.0) }
{
    let Equipment {
        ap,
        hands,
        batches,
        loads,
        supplies,
    } = equipment;
    let Supplies {
        files,
        limits,
        gate,
    } = supplies;
    let Hands { kept, workers } = hands;
    let register = Register::new(batches);
    let mut loads = loads;
    let Ok(ready) = ready_workers::<B, L, G>(alloc, ap, gate, &register, workers) else {
        // Dropped by a call, since it has many parts.
        drop(kept);
        loads.close(rt);
        return without_memory(writer);
    };
    let sources = Sources { files, limits };
    let operator = new_operator::<B, L, F>(ap, kept, register, &mut loads, sources);
    let staff = Staff {
        operator,
        workers: ready,
    };
    let ended = run_lines(rt, alloc, staff, lines, writer);
    loads.close(rt);
    ended
}

/// Runs lines on a new access point, and returns the writer and the exit status, as `run_lines` does.
pub(crate) fn run_live<B, F, G, R, S, P>(
    rt: &R,
    alloc: Global,
    opening: Opening<S>,
    supplies: Supplies<'_, F, G>,
    writer: P,
) -> (P, u8)
where
    B: Ledgers + Journals + Send + Sync,
    F: Files,
    G: Gate + Copy + Send,
    R: Threads + Wait + Sync,
    S: Lines + Drop,
    P: Console + Drop,
    requires some { 0 < opening.settings.workers }
    requires few { opening.settings.workers ≤ 8 }
    requires shapes { opening.shapes ≡ opening.settings.shapes }
    requires named { AreNamed B.name_of B.shares B.journal_of opening.new }
    requires config { opening.settings.link ≡ B.config }
    requires shares { B.shares ≡ parts_in_all }
    ensures runs { RunsNew (F.held supplies.entry.files.now) supplies.entry.limits
        (record { link = opening.settings.link; maps = opening.settings.shapes }) (P.manner writer) (S.script opening.lines)
        (P.contents writer) (P.contents result.0) result.1 }
    ensures keeps { result.1 < 2 → KeepsWhole (P.manner writer).form (S.script opening.lines)
        (P.contents writer) (P.contents result.0)
        (P.recorded writer) (P.recorded result.0) }
{
    let Opening {
        settings,
        shapes,
        new,
        lines,
    } = opening;
    let workers = settings.workers as usize;
    let Ok(opened) = LiveAp::<B>::open(rt, alloc, settings, new) else {
        return without_memory(writer);
    };
    let Opened {
        mut ap,
        publisher,
        left,
    } = opened;
    let loads = Loads::new(alloc, publisher, shapes);
    let Ok(hands) = deal(&mut ap, alloc, left, workers) else {
        loads.close(rt);
        return without_memory(writer);
    };
    let equipment = Equipment {
        ap: &ap,
        hands,
        batches: ap_journal::Opened::new(),
        loads,
        supplies,
    };
    run_with::<B, Brand, F, G, R, S, P>(rt, alloc, equipment, lines, writer)
}
