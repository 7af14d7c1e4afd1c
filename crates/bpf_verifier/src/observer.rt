//! What is recorded of an exploration, beside its result.

ghost use Rattle.std.specs.Prelude.{◌≡◌, OnOk};
ghost use Rattle.bpf_verifier.specs.Budgets.{raised_along, start_of, slots_after, budgets_of, ended};

use crate::slot_budgets::{part, raises_along};
use bpf_absstate::AbsState;
use bpf_prune::Entry;
use std::alloc::{AllocError, Global};

/// The records of an exploration.
#[derive(Drop)]
pub(crate) struct Heard {
    /// The states finished at target slots, in that order.
    pub(crate) finished: Vec<Entry>,
    /// The state examined last.
    pub(crate) examined: Option<AbsState>,
    /// The slots on the path to it, from slot 0 to its own.
    pub(crate) path: Vec<usize>,
    /// How many states were examined at each slot; it ends at the last slot examined.
    pub(crate) visits: Vec<u32>,
    /// The greatest budget with which a state was finished at each slot, 0 if none was; it ends at the last slot
    /// examined.
    pub(crate) budgets: Vec<u32>,
    /// For each kept state, which has a pending successor or is at a target slot, the length of the path before the
    /// state that follows it.
    starts: Vec<usize>,
}

/// Records an exploration. If it is off, it does nothing and allocates nothing.
#[derive(Drop)]
pub(crate) struct Observer {
    heard: Option<Heard>,
}

impl Heard {
    pub(crate) fn new(alloc: Global) -> Heard {
        Heard {
            finished: Vec::new(alloc),
            examined: None,
            path: Vec::new(alloc),
            visits: Vec::new(alloc),
            budgets: Vec::new(alloc),
            starts: Vec::new(alloc),
        }
    }

    /// Cuts the path back to `kept` kept states and `after` states after the newest of them, then appends this slot.
    fn goes_to(&mut self, slot: usize, kept: usize, after: u32) -> Result<(), AllocError> {
        self.starts.truncate(kept);
        if self.starts.len() < kept {
            self.starts.push(self.path.len())?;
        }
        let start = self.starts.last().map_or(0, |start| *start);
        self.path.truncate(start.saturating_add(after as usize));
        self.path.push(slot)?;
        Ok(())
    }

    /// Counts one more state examined at this slot.
    fn counts(&mut self, slot: usize) -> Result<(), AllocError> {
        if self.visits.len() <= slot {
            self.visits.resize(slot.saturating_add(1), 0u32)?;
        }
        if self.budgets.len() <= slot {
            self.budgets.resize(slot.saturating_add(1), 0u32)?;
        }
        if let Some(count) = self.visits.get_mut(slot) {
            *count = count.saturating_add(1);
        }
        Ok(())
    }

    /// Where on the path the states begin that follow the newest of `kept` kept ones.
    fn start(&self, kept: usize) -> usize
        ensures is { result ≡ start_of self.now.starts.items kept }
    {
        if kept == 0 {
            return 0;
        }
        match self.starts.get(kept - 1) {
            Some(start) => *start,
            None => 0,
        }
    }

    /// The path has `kept` kept states, and `after` after the newest; the state that comes next is finished with that
    /// budget, and so are those `after` states, each with one step more than the next.
    fn ends(&mut self, kept: usize, after: u32, budget: u32)
        ensures budgets { self.new.budgets.items
            ≡ raised_along self.old.budgets.items (slots_after self.old kept after) budget }
    {
        let start = self.start(kept);
        let slots = part(
            self.path.as_slice(),
            start,
            (after as usize).saturating_add(1),
        );
        raises_along(self.budgets.as_mut_slice(), slots, budget);
    }
}

impl Observer {
    /// An observer that records nothing.
    pub(crate) fn off() -> Observer {
        Observer { heard: None }
    }

    /// An observer that records the finished states, the state examined last, the path to it, and the counts.
    pub(crate) fn listening(alloc: Global) -> Observer {
        Observer {
            heard: Some(Heard::new(alloc)),
        }
    }

    /// Whether it records anything.
    pub(crate) fn is_listening(&self) -> bool {
        self.heard.is_some()
    }

    /// This state is examined next. The path to it has `kept` kept states, and `after` after the newest.
    pub(crate) fn examines(
        &mut self,
        state: &AbsState,
        kept: usize,
        after: u32,
    ) -> Result<(), AllocError> {
        if let Some(heard) = &mut self.heard {
            heard.goes_to(state.pc(), kept, after)?;
            heard.counts(state.pc())?;
            heard.examined = Some(state.clone()?);
        }
        Ok(())
    }

    /// The path has `kept` kept states, and `after` after the newest; the state that comes next is finished with that
    /// budget, and so are those `after` states, each with one step more than the next.
    pub(crate) fn ends(&mut self, kept: usize, after: u32, budget: u32)
        ensures budgets { budgets_of self.new ≡ ended self.old kept after budget }
    {
        if let Some(heard) = &mut self.heard {
            heard.ends(kept, after, budget);
        }
    }

    /// This state, at a target slot, is finished with that budget.
    pub(crate) fn finishes(&mut self, state: &AbsState, budget: u32) -> Result<(), AllocError>
        ensures budgets { OnOk result (budgets_of self.new ≡ budgets_of self.old) }
    {
        if let Some(heard) = &mut self.heard {
            heard.finished.push(Entry {
                state: state.clone()?,
                budget,
            })?;
        }
        Ok(())
    }

    /// The records.
    pub(crate) fn into_heard(self) -> Option<Heard> {
        self.heard
    }
}
