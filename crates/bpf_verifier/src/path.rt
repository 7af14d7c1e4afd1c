//! The path to the state to examine next.

ghost use Rattle.std.specs.Prelude.{◌≡◌, ◌≤◌, ◌+◌, ◌*◌, ◌∷◌, ◌++◌, [], ℕ, List, OnOk, IfOk, IfErr, IfSome, IfNone};
ghost use Rattle.bpf_absstate.specs.View.{View};
ghost use Rattle.bpf_verifier.specs.Causes.{IsStopped};
ghost use Rattle.bpf_verifier.specs.Counting.{weight};
ghost use Rattle.bpf_verifier.specs.Folded.{IsTaken};
ghost use Rattle.bpf_verifier.specs.Traced.{IsTraced};

use crate::fold::{Fold, left_out};
use crate::frame::Frame;
use bpf_decode::Program;
use bpf_prune::Work;
use bpf_rules::Fault;
use std::alloc::{AllocError, Global};
use std::marker::Model;
use std::mem::replace;

/// The weight of the frames that are pushed before older ones are folded. A state adds at most 32, so more states are
/// pushed than a program has slots.
const WINDOW: u32 = 1048576;

/// The frames of an exploration, the oldest first. Deep ones are folded.
#[derive(Drop)]
pub(crate) struct Path {
    alloc: Global,
    /// Whether all folded frames are made again. Otherwise those are left out whose states needn't be kept.
    whole: bool,
    /// The oldest frames, before the first that has a state: at most as many as a program has slots.
    root: Vec<Frame>,
    /// The folded frames after the root.
    folds: Vec<Fold>,
    /// The number of folded frames.
    folded: usize,
    /// The frames to fold next.
    older: Vec<Frame>,
    /// The newest frames. The first of them has a state.
    newer: Vec<Frame>,
    /// The weight of the frames pushed since frames were folded.
    window: u32,
}

impl Model for Path {
    ghost use Rattle.std.specs.Prelude.{List, ◌++◌};
    ghost use Rattle.bpf_verifier.specs.declared.frame.Frame.{Frame};

    ghost Value = { List Frame };

    ghost use Rattle.bpf_verifier.specs.Folded.{unfolded};

    ghost view = { λ a. a.root.items ++ (unfolded a.folds.items ++ (a.older.items ++ a.newer.items)) };
}

impl Path {
    /// An empty path; allocates nothing. If it is `whole`, each frame is taken off with its state.
    pub(crate) fn new(alloc: Global, whole: bool) -> Path
        ensures is { result ≡ [] }
    {
        Path {
            alloc,
            whole,
            root: Vec::new(alloc),
            folds: Vec::new(alloc),
            folded: 0,
            older: Vec::new(alloc),
            newer: Vec::new(alloc),
            window: 0,
        }
    }

    /// The number of frames.
    pub(crate) fn len(&self) -> usize {
        self.root
            .len()
            .saturating_add(self.folded)
            .saturating_add(self.older.len())
            .saturating_add(self.newer.len())
    }

    /// The allocator.
    pub(crate) fn alloc(&self) -> Global {
        self.alloc
    }

    pub(crate) fn push(&mut self, frame: Frame) -> Result<(), AllocError>
        ensures ok { OnOk result (self.new ≡ self.old ++ frame ∷ []) }
    {
        self.window = self.window.saturating_add(frame.weight());
        if frame.state.is_some() {
            if self.window > WINDOW {
                self.fold()?;
            }
            self.newer.push(frame)?;
            return Ok(());
        }
        if self.newer.is_empty() {
            self.older.push(frame)?;
            return Ok(());
        }
        self.newer.push(frame)?;
        Ok(())
    }

    /// Folds the older frames, or moves them to the root if the first of them has no state. Then the newer ones become
    /// the older ones.
    fn fold(&mut self) -> Result<(), AllocError>
        ensures ok { OnOk result (self.new ≡ self.old) }
    {
        let Some(fold) = Fold::of(self.alloc, &self.older, self.whole)? else {
            if self.folds.is_empty() {
                self.root.append(&mut self.older)?;
            }
            self.turn();
            return Ok(());
        };
        self.folded = self.folded.saturating_add(fold.len());
        self.folds.push(fold)?;
        self.older.clear();
        self.turn();
        Ok(())
    }

    /// If there are no older frames, the newer ones become the older ones.
    fn turn(&mut self)
        ensures is { self.new ≡ self.old }
    {
        if self.older.is_empty() {
            self.older = replace(&mut self.newer, Vec::new(self.alloc));
            self.window = 0;
        }
    }

    /// Takes the newest frame off the path. States that are made again count as work before that.
    pub(crate) fn pop(&mut self, program: &Program, work: &mut Work) -> Result<Option<Frame>, Fault>
        requires traced { (after : ℕ) × (a : View) × IsTraced program.now self.old after a }
        ensures some { IfOk result (λ o. IfSome o (IsTaken self.old self.new)) }
        ensures none { IfOk result (λ o. IfNone o ((self.old ≡ []) × (self.new ≡ []))) }
        ensures most { work.new.most ≡ work.old.most }
        ensures examined { work.new.examined ≡ work.old.examined }
        ensures greatest { work.new.remade ≤ work.old.remade + weight self.old 0 }
        ensures units { work.new.units + 563 * work.old.remade ≤ work.old.units + 563 * work.new.remade }
        ensures refuses { IfErr result (λ e. IsStopped e work.new) }
    {
        if let Some(frame) = self.newer.pop() {
            return Ok(Some(frame));
        }
        if let Some(frame) = self.older.pop() {
            return Ok(Some(frame));
        }
        if let Some(frame) = left_out(&mut self.folds) {
            self.folded = self.folded.saturating_sub(1);
            return Ok(Some(frame));
        }
        let Some(fold) = self.folds.pop() else {
            if let Some(frame) = self.root.pop() {
                return Ok(Some(frame));
            }
            return Ok(None);
        };
        self.folded = self.folded.saturating_sub(fold.len());
        self.older = fold.unfold(self.alloc, program, work)?;
        if let Some(frame) = self.older.pop() {
            return Ok(Some(frame));
        }
        Ok(None)
    }
}
