//! Frames of the path that are reduced to outlines, and rebuilt when they are needed.

ghost use Rattle.std.specs.Prelude.{◌≡◌, ◌<◌, ◌≤◌, ◌+◌, ◌*◌, ◌∷◌, ◌++◌, [], ℕ, List, length, map, drop, false, Option, is_some, IfOk, IfErr, IfSome, OnOk, IfNone};
ghost use Rattle.bpf_absstate.specs.View.{View};
ghost use Rattle.bpf_rules.specs.declared.ways.Ways.TheVariants.{One};
ghost use Rattle.bpf_verifier.specs.declared.frame.Frame.{Frame};
ghost use Rattle.bpf_verifier.specs.Causes.{IsStopped};
ghost use Rattle.bpf_verifier.specs.Counting.{states_from};
ghost use Rattle.bpf_verifier.specs.Folded.{outline_of, unfolded, IsTaken};
ghost use Rattle.bpf_verifier.specs.Pushed.{AreStraight, ArePushedOut, IsLate, MoreAt, NoMore};
ghost use Rattle.bpf_verifier.specs.Traced.{LeadsExactly, AreOpen, IsOpened, OpensWith, IsTraced};

use crate::frame::{Frame, Outcome, examine_state};
use bpf_absstate::AbsState;
use bpf_checks::examine_moved;
use bpf_decode::Program;
use bpf_prune::Work;
use bpf_rules::{Fault, Ways};
use std::alloc::{AllocError, Global};
use std::marker::Model;
use std::snapshot::Snapshot;

/// How many finished states are kept of each target slot.
const KEPT: u8 = 64;

/// The outline of a frame.
#[derive(Clone, Copy)]
pub(crate) struct Outline {
    /// How many states with one successor precede it.
    before: u32,
    /// The greatest budget of the finished successors.
    best: u32,
    /// Whether a successor is pending.
    forks: bool,
}

/// A frame, and the successor being explored.
#[derive(Drop)]
struct Opened {
    frame: Frame,
    child: AbsState,
}

/// A part of the path, kept as its first state and the outlines: examining each state gives the next.
#[derive(Drop)]
pub(crate) struct Fold {
    first: AbsState,
    outlines: Vec<Outline>,
    /// How many frames, from the oldest, have to be made again. The states of the others are pushed out when those below
    /// are finished, so they needn't be kept.
    needed: usize,
    frames: Snapshot<Vec<Frame>>,
}

impl Model for Fold {
    ghost use Rattle.std.specs.Prelude.{List, length, take};
    ghost use Rattle.bpf_verifier.specs.declared.frame.Frame.{Frame};

    ghost Value = { List Frame };

    ghost use Rattle.bpf_verifier.specs.Folded.{IsFolded};
    ghost use Rattle.bpf_verifier.specs.Pushed.{ArePushedOut};

    ghost view = { λ a. take (length a.outlines.items) a.frames.value.items };

    ghost invariant = { λ a. IsFolded a.first a.outlines.items (take (length a.outlines.items) a.frames.value.items)
        × ArePushedOut a.needed (take (length a.outlines.items) a.frames.value.items) };
}

fn outlined(frame: &Frame) -> Outline
    ensures is { result ≡ outline_of frame.now }
{
    Outline {
        before: frame.before,
        best: frame.best,
        forks: frame.pending.is_some(),
    }
}

fn outlines(alloc: Global, frames: &[Frame]) -> Result<Vec<Outline>, AllocError>
    ensures is { IfOk result (λ outlines. outlines.items ≡ map outline_of frames.now) }
{
    let mut outlines = Vec::with_capacity(alloc, frames.len())?;
    for frame in frames {
        outlines.push(outlined(frame))?;
    }
    Ok(outlines)
}

/// The number of frames up to the newest with a pending successor.
fn forked(frames: &[Frame]) -> usize
    ensures within { result ≤ length frames.now }
    ensures straight { AreStraight (drop result frames.now) }
{
    let mut end = 0;
    for place in 0..frames.len() {
        if frames[place].pending.is_some() {
            end = place + 1;
        }
    }
    end
}

/// Makes room for the count of a slot.
fn widen(counts: &mut Vec<u8>, pc: usize) -> Result<(), AllocError>
    ensures same { IfOk result (λ u. NoMore counts.old.items counts.new.items) }
{
    if counts.len() <= pc {
        counts.resize(pc.saturating_add(1), 0u8)?;
    }
    Ok(())
}

/// Whether a state at that slot is one of the first 64; counts it.
fn is_early(counts: &mut Vec<u8>, pc: usize) -> Result<bool, AllocError>
    ensures more { IfOk result (λ early. MoreAt pc counts.old.items counts.new.items) }
    ensures late { IfOk result
        (λ early. early ≡ false → IsLate pc counts.old.items counts.new.items) }
{
    widen(counts, pc)?;
    let Some(count) = counts.get_mut(pc) else {
        return Ok(true);
    };
    if *count < KEPT {
        *count += 1;
        return Ok(true);
    }
    Ok(false)
}

/// How many frames, from the oldest, have to be made again: those up to the newest with a pending successor, and then
/// the 64 oldest of each target slot. The younger ones are finished before those, which push them out. All, if the fold is
/// `whole`.
fn needed(alloc: Global, frames: &[Frame], whole: bool) -> Result<usize, AllocError>
    ensures pushed { IfOk result (λ n. ArePushedOut n frames.now) }
{
    if whole {
        return Ok(frames.len());
    }
    let start = forked(frames);
    let mut counts = Vec::new(alloc);
    let mut needed = start;
    for place in start..frames.len() {
        if let Some(state) = &frames[place].state {
            if is_early(&mut counts, state.pc())? {
                needed = place + 1;
            }
        }
    }
    Ok(needed)
}

fn only(ways: Ways) -> AbsState
    requires one { (a : View) × (ways ≡ One a) }
    ensures is { ways ≡ One result }
{
    match ways {
        Ways::Nowhere => unreachable!(),
        Ways::One(next) => next,
        Ways::Two(_, _) => unreachable!(),
    }
}

/// Counts a state as work before it is made again.
fn count_remade(state: &AbsState, work: &mut Work) -> Result<(), Fault>
    ensures most { work.new.most ≡ work.old.most }
    ensures examined { work.new.examined ≡ work.old.examined }
    ensures remade { OnOk result (work.new.remade ≡ work.old.remade + 1) }
    ensures least { work.old.remade ≤ work.new.remade }
    ensures greatest { work.new.remade ≤ work.old.remade + 1 }
    ensures units { work.new.units + 563 * work.old.remade ≤ work.old.units + 563 * work.new.remade }
    ensures refuses { IfErr result (λ e. IsStopped e work.new) }
{
    let Ok(()) = work.remake(state) else {
        return Err(Fault::TooManyVisits);
    };
    Ok(())
}

/// The state after `steps` states with one successor. They were examined before, so only memory may be lacking. Each
/// counts as work before it is made again.
fn led(
    alloc: Global,
    program: &Program,
    state: AbsState,
    steps: u32,
    work: &mut Work,
) -> Result<AbsState, Fault>
    requires leads { (b : View) × LeadsExactly program.now steps state b }
    ensures is { IfOk result
        (λ a. (b : View) → LeadsExactly program.now steps state b → a ≡ b) }
    ensures most { work.new.most ≡ work.old.most }
    ensures examined { work.new.examined ≡ work.old.examined }
    ensures remade { OnOk result (work.new.remade ≡ work.old.remade + steps) }
    ensures greatest { work.new.remade ≤ work.old.remade + steps }
    ensures units { work.new.units + 563 * work.old.remade ≤ work.old.units + 563 * work.new.remade }
    ensures refuses { IfErr result (λ e. IsStopped e work.new) }
{
    let mut current = state;
    for _step in 0..steps {
        count_remade(&current, work)?;
        let Ok(ways) = examine_moved(alloc, program, current) else {
            return Err(Fault::NoMemory);
        };
        current = only(ways);
    }
    Ok(current)
}

/// The pending successor, if any, and the one being explored.
fn parted(ways: Ways, forks: bool) -> (Option<AbsState>, AbsState)
    requires open { (o : Option View) × (child : View) × AreOpen o child ways × (forks ≡ is_some o) }
    ensures open { AreOpen result.0 result.1 ways }
    ensures forks { forks ≡ is_some result.0 }
{
    match ways {
        Ways::Nowhere => unreachable!(),
        Ways::One(next) => (None, next),
        Ways::Two(first, second) => {
            if forks {
                return (Some(second), first);
            }
            (None, second)
        }
    }
}

/// The frame of a state with that outline. The state was examined before, so only memory may be lacking. It counts as
/// work before it is made again.
fn reopened(
    alloc: Global,
    program: &Program,
    own: AbsState,
    outline: Outline,
    work: &mut Work,
) -> Result<Opened, Fault>
    requires opens { OpensWith program.now outline own }
    ensures is { IfOk result
        (λ o. (f : Frame) (child : View) → IsOpened program.now f own child → outline
        ≡ outline_of f → (o.frame ≡ f) × (o.child ≡ child)) }
    ensures most { work.new.most ≡ work.old.most }
    ensures examined { work.new.examined ≡ work.old.examined }
    ensures remade { OnOk result (work.new.remade ≡ work.old.remade + 1) }
    ensures greatest { work.new.remade ≤ work.old.remade + 1 }
    ensures units { work.new.units + 563 * work.old.remade ≤ work.old.units + 563 * work.new.remade }
    ensures refuses { IfErr result (λ e. IsStopped e work.new) }
{
    count_remade(&own, work)?;
    let Ok(outcome) = examine_state(alloc, program, own) else {
        return Err(Fault::NoMemory);
    };
    let Outcome { ways, kept } = outcome;
    let (pending, child) = parted(ways, outline.forks);
    Ok(Opened {
        frame: Frame {
            before: outline.before,
            state: kept,
            pending,
            best: outline.best,
        },
        child,
    })
}

/// The frame with that outline, on the path after a state. The states with one successor before it, and its own, were
/// examined before, so only memory may be lacking. Each counts as work before it is made again.
fn next_opened(
    alloc: Global,
    program: &Program,
    from: AbsState,
    outline: Outline,
    work: &mut Work,
) -> Result<Opened, Fault>
    requires opens { (own : View) × LeadsExactly program.now outline.before from own
        × OpensWith program.now outline own }
    ensures is { IfOk result
        (λ o. (own : View) (f : Frame) (child : View) →
        LeadsExactly program.now outline.before from own → IsOpened program.now f own child → outline
        ≡ outline_of f → (o.frame ≡ f) × (o.child ≡ child)) }
    ensures most { work.new.most ≡ work.old.most }
    ensures examined { work.new.examined ≡ work.old.examined }
    ensures remade { OnOk result (work.new.remade ≡ work.old.remade + (outline.before + 1)) }
    ensures greatest { work.new.remade ≤ work.old.remade + (outline.before + 1) }
    ensures units { work.new.units + 563 * work.old.remade ≤ work.old.units + 563 * work.new.remade }
    ensures refuses { IfErr result (λ e. IsStopped e work.new) }
{
    let own = led(alloc, program, from, outline.before, work)?;
    let opened = reopened(alloc, program, own, outline, work)?;
    Ok(opened)
}

/// One frame more.
fn add(frames: &mut Vec<Frame>, frame: Frame) -> Result<(), AllocError>
    ensures items { OnOk result (frames.new.items ≡ frames.old.items ++ frame ∷ []) }
{
    frames.push(frame)?;
    Ok(())
}

impl Fold {
    /// Folds frames; None if the first has no state. If it is `whole`, all frames are made again later; otherwise only
    /// those whose states may stay kept, or which a pending successor follows.
    pub(crate) fn of(
        alloc: Global,
        frames: &Vec<Frame>,
        whole: bool,
    ) -> Result<Option<Fold>, AllocError>
        ensures is { IfOk result (λ o. IfSome o (λ fold. fold ≡ frames.now.items)) }
    {
        let Some(frame) = frames.first() else {
            return Ok(None);
        };
        let Some(state) = &frame.state else {
            return Ok(None);
        };
        let first = state.clone()?;
        let outlines = outlines(alloc, frames)?;
        let needed = needed(alloc, frames, whole)?;
        Ok(Some(Fold {
            first,
            outlines,
            needed,
            frames: Snapshot::of(frames),
        }))
    }

    /// The number of frames.
    pub(crate) fn len(&self) -> usize
        ensures is { result ≡ length self.now }
    {
        self.outlines.len()
    }

    /// Takes the newest frame off without making it again, if it needn't be.
    pub(crate) fn leave_out(&mut self) -> Option<Frame>
        ensures some { IfSome result (IsTaken self.old self.new) }
        ensures none { IfNone result (self.new ≡ self.old) }
    {
        let count = self.outlines.len();
        if count <= 1 || count <= self.needed {
            return None;
        }
        let outline = self.outlines[count - 1];
        if outline.forks {
            return None;
        }
        let _last = self.outlines.pop();
        Some(Frame {
            before: outline.before,
            state: None,
            pending: None,
            best: outline.best,
        })
    }

    /// The frames. Each state before them, from the first on, and each of their own counts as work before it is made
    /// again.
    pub(crate) fn unfold(
        self,
        alloc: Global,
        program: &Program,
        work: &mut Work,
    ) -> Result<Vec<Frame>, Fault>
        requires traced { (after : ℕ) × (a : View) × IsTraced program.now self after a }
        ensures is { IfOk result (λ frames. frames.items ≡ self) }
        ensures some { IfOk result (λ frames. 0 < length frames.items) }
        ensures most { work.new.most ≡ work.old.most }
        ensures examined { work.new.examined ≡ work.old.examined }
        ensures remade { OnOk result (work.new.remade ≡ work.old.remade + states_from self) }
        ensures greatest { work.new.remade ≤ work.old.remade + states_from self }
        ensures units { work.new.units + 563 * work.old.remade ≤ work.old.units + 563 * work.new.remade }
        ensures refuses { IfErr result (λ e. IsStopped e work.new) }
    {
        let Fold {
            first,
            outlines,
            ..
        } = self;
        let mut frames = Vec::with_capacity(alloc, outlines.len())?;
        let Opened { frame, child } = reopened(alloc, program, first, outlines[0], work)?;
        add(&mut frames, frame)?;
        let mut current = child;
        for k in 1..outlines.len() {
            let outline = outlines[k];
            let Opened { frame, child } = next_opened(alloc, program, current, outline, work)?;
            add(&mut frames, frame)?;
            current = child;
        }
        Ok(frames)
    }
}

/// Takes the newest frame off without making it again, if it needn't be.
pub(crate) fn left_out(folds: &mut Vec<Fold>) -> Option<Frame>
    ensures some { IfSome result (IsTaken (unfolded folds.old.items) (unfolded folds.new.items)) }
    ensures none { IfNone result (folds.new.items ≡ folds.old.items) }
{
    let count = folds.len();
    if count == 0 {
        return None;
    }
    folds[count - 1].leave_out()
}
