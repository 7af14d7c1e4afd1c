//! The exploration, path by path.

ghost use Rattle.std.specs.Prelude.{◌≡◌, ◌⊎◌, ◌<◌, ◌≤◌, ◌+◌, ◌*◌, ◌++◌, ◌∷◌, [], ◌^◌, ℕ, List, Option, Some, length, replicate, IfOk, IfErr, IfSome, OnOk, OnErr};
ghost use Rattle.bpf_insn.specs.declared.insn.Insn.{Insn};
ghost use Rattle.bpf_decode.specs.Program.{Begins, Code, IsWhole};
ghost use Rattle.bpf_regions.specs.Maps.{AreShapes};
ghost use Rattle.bpf_rules.specs.declared.ways.Ways.TheVariants.{Nowhere, One, Two};
ghost use Rattle.bpf_model.specs.Run.{Safe};
ghost use Rattle.bpf_model.specs.State.{Setting};
ghost use Rattle.bpf_absstate.specs.View.{View, entry_view};
ghost use Rattle.bpf_plain.specs.Clear.{IsClear};
ghost use Rattle.bpf_plain.specs.Paths.{Reaches};
ghost use Rattle.bpf_prune.specs.Covering.{Covers, kept_at, newest_covering};
ghost use Rattle.bpf_prune.specs.Spending.{HasPassed, comparisons};
ghost use Rattle.bpf_verifier.specs.Causes.{IsFaulty, IsStopped, IsDue};
ghost use Rattle.bpf_verifier.specs.Counting.{weight};
ghost use Rattle.bpf_verifier.specs.Spent.{IsSpent, IsEarned, IsMemoryOrPassed};
ghost use Rattle.bpf_verifier.specs.Found.{IsFresh, IsCountedSoFar, IsPaidSoFar, IsBegunSoFar, IsSafeSoFar, IsSafeAfter, HasFinished, IsTracedSoFar, IsTracedAfter, IsWalkedSoFar, IsWalkedAfter, IsClearSoFar, IsClearAfter, IsExamining, IsExamined, HasStepped};
ghost use Rattle.bpf_verifier.specs.Path.{IsBegun, IsKept, StandsIn};
ghost use Rattle.bpf_verifier.specs.Safety.{AllSafe};
ghost use Rattle.bpf_plain.specs.Walks.{IsPlain, HasWalk};

use crate::frame::{Frame, Outcome, examine_state};
use crate::limit::StateLimit;
use crate::observer::Observer;
use crate::path::Path;
use crate::refusal::Refusal;
use bpf_absstate::AbsState;
use bpf_decode::Program;
use bpf_prune::{Entry, Finished, TooMuchWork, Work};
use bpf_rules::{Fault, Ways};
use std::alloc::{AllocError, Global};

/// What comes after a state is finished.
#[derive(Drop)]
enum Unwound {
    /// The state to examine next.
    Onward(AbsState),
    /// The exploration is over; this is the start's budget.
    Over(u32),
}

/// An exploration in progress.
#[derive(Drop)]
pub(crate) struct Exploration {
    /// The path to the state to examine next.
    path: Path,
    /// How many states with one successor follow the newest frame.
    after: u32,
    finished: Finished,
    /// How many states were visited.
    visits: u32,
    observer: Observer,
}

impl Exploration {
    /// An exploration that hasn't started.
    pub(crate) fn new(
        alloc: Global,
        program: &Program,
        observer: Observer,
    ) -> Result<Exploration, AllocError>
        ensures fresh { IfOk result (IsFresh program.now) }
        ensures whole { IsWhole program.now }
        ensures shapes { AreShapes program.now.shapes }
    {
        program.whole();
        program.shapes().whole();
        let finished = Finished::new(alloc, program.len())?;
        Ok(Exploration {
            path: Path::new(alloc, observer.is_listening()),
            after: 0,
            finished,
            visits: 0,
            observer,
        })
    }

    /// The observer of this exploration.
    pub(crate) fn into_observer(self) -> Observer {
        self.observer
    }

    /// Puts a state on the path. One of its successors is explored next, and `pending` after it.
    fn push(
        &mut self,
        before: u32,
        state: Option<AbsState>,
        pending: Option<AbsState>,
        best: u32,
    ) -> Result<(), AllocError>
        ensures path { OnOk result
            (self.new.path ≡ self.old.path ++
            (record { before = before; state = state; pending = pending; best = best }) ∷ []) }
        ensures after { OnOk result (self.new.after ≡ 0) }
        ensures finished { self.new.finished ≡ self.old.finished }
        ensures visits { self.new.visits ≡ self.old.visits }
    {
        self.path.push(Frame {
            before,
            state,
            pending,
            best,
        })?;
        self.after = 0;
        Ok(())
    }

    /// The state that follows the path is finished, and kept if it is given.
    fn finish(&mut self, state: Option<AbsState>, budget: u32) -> Result<(), AllocError>
        ensures finished { OnOk result (IsKept self.old.finished self.new.finished state budget) }
        ensures path { self.new.path ≡ self.old.path }
        ensures after { self.new.after ≡ self.old.after }
        ensures visits { self.new.visits ≡ self.old.visits }
    {
        self.observer.ends(self.path.len(), self.after, budget);
        if let Some(state) = state {
            self.observer.finishes(&state, budget)?;
            self.finished.keep(Entry { state, budget })?;
        }
        Ok(())
    }

    /// The state under exploration is finished with a budget: goes back to the newest pending successor. The states of
    /// the path up to there are finished, too: what is kept then is the same as if each of them had been kept. States of
    /// the path that are made again count as work before that.
    fn unwind(&mut self, program: &Program, done: u32, work: &mut Work) -> Result<Unwound, Fault>
        requires room { self.old.visits ≤ 2 ^ 22 }
        requires traced { (a : View) × IsTracedSoFar program.now a self.old }
        requires counted { IsCountedSoFar self.old }
        requires paid { done + weight self.old.path self.old.after ≤ self.old.visits }
        ensures traced { IfOk result (IsTracedAfter program.now self.new) }
        ensures visits { self.new.visits ≡ self.old.visits }
        ensures finished { IfOk result (λ u. HasFinished done self.old self.new) }
        ensures counted { IfOk result (λ u. IsCountedSoFar self.new) }
        ensures paid { IfOk result (IsPaidSoFar self.new) }
        ensures begun { IfOk result
            (λ u. (slots : List (Option Insn)) → IsBegunSoFar slots self.old →
            IsBegunSoFar slots self.new × IsBegun slots u) }
        ensures safe { IfOk result
            (λ u. (p : Setting) (start a : View) → IsSafeSoFar p start a self.old →
            AllSafe p done a → IsSafeAfter p start self.new u) }
        ensures walked { IfOk result
            (λ u. (slots : List (Option Insn)) (start a : View) →
            IsWalkedSoFar slots start a self.old → Reaches slots a.pc done →
            IsWalkedAfter slots start self.new u) }
        ensures clear { IfOk result
            (λ u. (c : Code) (n : ℕ) → IsClearSoFar c n self.old → IsClearAfter c n self.new u) }
        ensures most { work.new.most ≡ work.old.most }
        ensures examined { work.new.examined ≡ work.old.examined }
        ensures remade { OnOk result
            (work.new.remade + 4194304 * length self.new.path
            ≤ work.old.remade + 4194304 * (length self.old.path + 1)) }
        ensures greatest { work.new.remade ≤ work.old.remade + 4194304 * (length self.old.path + 1) }
        ensures units { work.new.units + 563 * work.old.remade ≤ work.old.units + 563 * work.new.remade }
        ensures refuses { IfErr result (λ e. IsStopped e work.new) }
    {
        let mut done = done;
        while let Some(frame) = self.path.pop(program, work)? {
            let Frame {
                before,
                state,
                pending,
                best,
            } = frame;
            let best = best.max(done + self.after);
            match pending {
                Some(next) => {
                    self.push(before, state, None, best)?;
                    return Ok(Unwound::Onward(next));
                }
                None => {
                    self.after = before;
                    done = best + 1;
                    self.finish(state, done)?;
                }
            }
        }
        Ok(Unwound::Over(done + self.after))
    }

    /// A finished state with that budget includes the state being examined: goes back.
    fn cover(&mut self, program: &Program, budget: u32, work: &mut Work) -> Result<Unwound, Fault>
        requires covers { (own : View) × IsExamining program.now own self.old
            × Covers (kept_at self.old.finished own.pc) own budget }
        ensures stepped { IfOk result
            (λ u. (own : View) → Covers (kept_at self.old.finished own.pc) own budget →
            HasStepped program.now own self.old self.new u) }
        ensures visits { self.new.visits ≡ self.old.visits }
        ensures most { work.new.most ≡ work.old.most }
        ensures examined { work.new.examined ≡ work.old.examined }
        ensures remade { OnOk result
            (work.new.remade + 4194304 * length self.new.path
            ≤ work.old.remade + 4194304 * (length self.old.path + 1)) }
        ensures greatest { work.new.remade ≤ work.old.remade + 4194304 * (length self.old.path + 1) }
        ensures units { work.new.units + 563 * work.old.remade ≤ work.old.units + 563 * work.new.remade }
        ensures refuses { IfErr result (λ e. IsStopped e work.new) }
    {
        self.observer.ends(self.path.len(), self.after, budget);
        let unwound = self.unwind(program, budget, work)?;
        Ok(unwound)
    }

    /// The state being examined has no successors: it is finished, and kept if it is given. Then goes back.
    fn end(
        &mut self,
        program: &Program,
        kept: Option<AbsState>,
        work: &mut Work,
    ) -> Result<Unwound, Fault>
        requires examined { (own : View) × IsExamining program.now own self.old
            × IsExamined program.now own Nowhere kept }
        ensures stepped { IfOk result
            (λ u. (own : View) → IsExamined program.now own Nowhere kept →
            HasStepped program.now own self.old self.new u) }
        ensures visits { self.new.visits ≡ self.old.visits }
        ensures most { work.new.most ≡ work.old.most }
        ensures examined { work.new.examined ≡ work.old.examined }
        ensures remade { OnOk result
            (work.new.remade + 4194304 * length self.new.path
            ≤ work.old.remade + 4194304 * (length self.old.path + 1)) }
        ensures greatest { work.new.remade ≤ work.old.remade + 4194304 * (length self.old.path + 1) }
        ensures units { work.new.units + 563 * work.old.remade ≤ work.old.units + 563 * work.new.remade }
        ensures refuses { IfErr result (λ e. IsStopped e work.new) }
    {
        self.finish(kept, 1)?;
        let unwound = self.unwind(program, 1, work)?;
        Ok(unwound)
    }

    /// The state being examined, which may be kept, has one successor. That is next.
    fn follow(&mut self, kept: Option<AbsState>, next: AbsState) -> Result<Unwound, AllocError>
        requires paid { weight self.old.path (self.old.after + 1) ≤ self.old.visits }
        ensures stepped { IfOk result
            (λ u. (c : Code) (own : View) → IsExamining c own self.old →
            IsExamined c own (One next) kept → HasStepped c own self.old self.new u) }
        ensures visits { self.new.visits ≡ self.old.visits }
        ensures longer { OnOk result (length self.new.path ≤ length self.old.path + 1) }
    {
        if kept.is_none() {
            self.after += 1;
            return Ok(Unwound::Onward(next));
        }
        let before = self.after;
        self.push(before, kept, None, 0)?;
        Ok(Unwound::Onward(next))
    }

    /// The state being examined, which may be kept, has two successors. The first is next, and the second pending.
    fn fork(
        &mut self,
        kept: Option<AbsState>,
        first: AbsState,
        second: AbsState,
    ) -> Result<Unwound, AllocError>
        ensures stepped { IfOk result
            (λ u. (c : Code) (own : View) → IsExamining c own self.old →
            IsExamined c own (Two first second) kept → HasStepped c own self.old self.new u) }
        ensures visits { self.new.visits ≡ self.old.visits }
        ensures longer { OnOk result (length self.new.path ≤ length self.old.path + 1) }
    {
        let before = self.after;
        self.push(before, kept, Some(second), 0)?;
        Ok(Unwound::Onward(first))
    }

    /// The successors of the state being examined: the first is next; without any that state is finished.
    fn lead(
        &mut self,
        program: &Program,
        outcome: Outcome,
        work: &mut Work,
    ) -> Result<Unwound, Fault>
        requires examined { (own : View) × IsExamining program.now own self.old
            × IsExamined program.now own outcome.ways outcome.kept }
        ensures stepped { IfOk result
            (λ u. (own : View) → IsExamining program.now own self.old →
            IsExamined program.now own outcome.ways outcome.kept →
            HasStepped program.now own self.old self.new u) }
        ensures visits { self.new.visits ≡ self.old.visits }
        ensures most { work.new.most ≡ work.old.most }
        ensures examined { work.new.examined ≡ work.old.examined }
        ensures remade { OnOk result
            (work.new.remade + 4194304 * length self.new.path
            ≤ work.old.remade + 4194304 * (length self.old.path + 1)) }
        ensures greatest { work.new.remade ≤ work.old.remade + 4194304 * (length self.old.path + 1) }
        ensures units { work.new.units + 563 * work.old.remade ≤ work.old.units + 563 * work.new.remade }
        ensures refuses { IfErr result (λ e. IsStopped e work.new) }
    {
        let Outcome { ways, kept } = outcome;
        match ways {
            Ways::Nowhere => {
                let unwound = self.end(program, kept, work)?;
                Ok(unwound)
            }
            Ways::One(next) => {
                let unwound = self.follow(kept, next)?;
                Ok(unwound)
            }
            Ways::Two(first, second) => {
                let unwound = self.fork(kept, first, second)?;
                Ok(unwound)
            }
        }
    }

    /// Examines a state, unless a finished one includes it, whose budget is given. Its first successor is explored
    /// next; without any it is finished.
    fn visit(
        &mut self,
        program: &Program,
        state: AbsState,
        covering: Option<u32>,
        work: &mut Work,
    ) -> Result<Unwound, Fault>
        requires whole { IsWhole program.now }
        requires room { self.old.visits < 2 ^ 22 }
        requires covers { IfSome covering (Covers (kept_at self.old.finished state.pc) state) }
        requires traced { IsTracedSoFar program.now state self.old }
        requires counted { IsCountedSoFar self.old }
        requires paid { weight self.old.path self.old.after ≤ self.old.visits }
        requires stands { StandsIn program.now.slots state }
        ensures stepped { IfOk result (HasStepped program.now state self.old self.new) }
        ensures visits { self.new.visits ≡ self.old.visits + 1 }
        ensures most { work.new.most ≡ work.old.most }
        ensures examined { work.new.examined ≡ work.old.examined }
        ensures remade { OnOk result
            (work.new.remade + 4194304 * length self.new.path
            ≤ work.old.remade + 4194304 * (length self.old.path + 1)) }
        ensures greatest { work.new.remade ≤ work.old.remade + 4194304 * (length self.old.path + 1) }
        ensures units { work.new.units + 563 * work.old.remade ≤ work.old.units + 563 * work.new.remade }
        ensures refuses { IfErr result
            (λ e. IsStopped e work.new ⊎ IsFaulty program.now state e) }
    {
        let alloc = self.path.alloc();
        self.visits += 1;
        self.observer.examines(&state, self.path.len(), self.after)?;
        if let Some(budget) = covering {
            let unwound = self.cover(program, budget, work)?;
            return Ok(unwound);
        }
        let outcome = examine_state(alloc, program, state)?;
        let unwound = self.lead(program, outcome, work)?;
        Ok(unwound)
    }
}

/// Counts a state before it is examined, and looks for a finished one that includes it. Its budget, if there is one.
fn look(finished: &Finished, state: &AbsState, work: &mut Work) -> Result<Option<u32>, TooMuchWork>
    ensures is { IfOk result
        (λ budget. budget ≡ newest_covering (kept_at finished.now state.now.pc) state.now) }
    ensures covers { IfOk result
        (λ budget. IfSome budget (Covers (kept_at finished.now state.now.pc) state.now)) }
    ensures most { work.new.most ≡ work.old.most }
    ensures examined { OnOk result (work.new.examined ≡ work.old.examined + 1) }
    ensures remade { work.new.remade ≡ work.old.remade }
    ensures compared { OnOk result
        (work.new.compared
        ≡ work.old.compared + comparisons (kept_at finished.now state.now.pc) state.now) }
    ensures least { work.old.examined ≤ work.new.examined }
    ensures greatest { work.new.examined ≤ work.old.examined + 1 }
    ensures few { work.new.units ≤ work.old.units + 36979 }
    ensures passed { OnErr result (HasPassed work.new) }
{
    work.examine(state)?;
    let covering = finished.covering(state, work)?;
    Ok(covering)
}

/// Explores each path of a program, within a limit of states and of work, and returns a budget within which it is safe.
/// The observer is told of each step.
pub(crate) fn observed_budget(
    alloc: Global,
    program: &Program,
    exploration: &mut Exploration,
    limit: StateLimit,
    work: &mut Work,
) -> Result<u32, Refusal>
    requires fresh { IsFresh program.now exploration.old }
    requires whole { IsWhole program.now }
    requires shapes { AreShapes program.now.shapes }
    ensures safe { IfOk result (Safe program.now.slots program.now.shapes) }
    ensures small { IfOk result (λ budget. budget ≤ limit) }
    ensures walk { IfOk result
        (λ budget. IsPlain program.now.slots → HasWalk program.now.slots budget) }
    ensures clear { IfErr result
        (λ e. IsClear program.now entry_view limit → IsMemoryOrPassed e.fault work.new) }
    ensures begins { IfErr result (λ e. Begins program.now.slots e.pc) }
    ensures due { IfErr result (IsDue program.now limit work.old work.new) }
    ensures spent { IsSpent limit work.old work.new }
    ensures earned { IfOk result (λ budget. IsEarned budget work.old work.new) }
{
    let most = limit.states();
    let mut current = AbsState::entry(alloc)?;
    'visit: while exploration.visits < most {
        let pc = current.pc();
        let Ok(covering) = look(&exploration.finished, &current, work) else {
            return Err(Refusal::past_limits(pc));
        };
        match exploration.visit(program, current, covering, work) {
            Ok(Unwound::Onward(next)) => current = next,
            Ok(Unwound::Over(budget)) => return Ok(budget),
            Err(fault) => return Err(Refusal { fault, pc }),
        }
    }
    Err(Refusal::past_limits(current.pc()))
}

/// Like `observed_budget`, without an observer.
pub(crate) fn find_budget(
    alloc: Global,
    program: &Program,
    limit: StateLimit,
    work: &mut Work,
) -> Result<u32, Refusal>
    ensures whole { IsWhole program.now }
    ensures safe { IfOk result (Safe program.now.slots program.now.shapes) }
    ensures small { IfOk result (λ budget. budget ≤ limit) }
    ensures walk { IfOk result
        (λ budget. IsPlain program.now.slots → HasWalk program.now.slots budget) }
    ensures clear { IfErr result
        (λ e. IsClear program.now entry_view limit → IsMemoryOrPassed e.fault work.new) }
    ensures begins { IfErr result (λ e. Begins program.now.slots e.pc) }
    ensures due { IfErr result (IsDue program.now limit work.old work.new) }
    ensures spent { IsSpent limit work.old work.new }
    ensures earned { IfOk result (λ budget. IsEarned budget work.old work.new) }
{
    let mut exploration = Exploration::new(alloc, program, Observer::off())?;
    observed_budget(alloc, program, &mut exploration, limit, work)
}
