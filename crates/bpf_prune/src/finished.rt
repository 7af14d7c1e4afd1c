//! The finished states of every slot.

ghost use Rattle.std.specs.Prelude.{◌≡◌, ◌+◌, ◌≤◌, [], replicate, OnOk, OnErr, IfOk, IfSome};
ghost use Rattle.bpf_prune.specs.Covering.{newest_covering, with_entry, Covers, kept_at};
ghost use Rattle.bpf_prune.specs.Spending.{HasPassed, comparisons};

use crate::kept::{Entry, Kept};
use crate::work::{TooMuchWork, Work};
use bpf_absstate::{AbsState, Difference};
use std::alloc::{AllocError, Global};
use std::cell::Cell;
use std::marker::Model;

/// The newest finished states of each slot of a code.
#[derive(Drop)]
pub struct Finished {
    slots: Vec<Kept>,
    /// Where the last search found its state not included in the kept ones, by their age. It only says where to compare
    /// first.
    before: Vec<Cell<Difference>>,
}

impl Model for Finished {
    ghost use Rattle.std.specs.Prelude.{List};
    ghost use Rattle.bpf_prune.specs.declared.kept.Entry.{Entry};

    ghost Value = { List (List Entry) };

    ghost view = { λ a. a.slots.items };
}

/// Unknown positions for the 64 newest states of a slot.
fn unknown(alloc: Global) -> Result<Vec<Cell<Difference>>, AllocError> {
    let mut places = Vec::with_capacity(alloc, 64)?;
    for _age in 0..64 {
        places.push(Cell::new(Difference::Apart))?;
    }
    Ok(places)
}

impl Finished {
    /// A table without states, for a code of that many slots.
    pub fn new(alloc: Global, slots: usize) -> Result<Finished, AllocError>
        ensures is { IfOk result (λ finished. finished ≡ replicate slots []) }
    {
        let mut table = Vec::with_capacity(alloc, slots)?;
        for _slot in 0..slots {
            table.push(Kept::none(alloc))?;
        }
        Ok(Finished {
            slots: table,
            before: unknown(alloc)?,
        })
    }

    /// Keeps a state at its slot, and drops the oldest of 64 there. A slot outside the code keeps nothing. If
    /// allocation fails, nothing changes.
    pub fn keep(&mut self, entry: Entry) -> Result<(), AllocError>
        ensures ok { OnOk result (self.new ≡ with_entry self.old entry) }
        ensures err { OnErr result (self.new ≡ self.old) }
    {
        let pc = entry.state.pc();
        if pc < self.slots.len() {
            let kept = &mut self.slots[pc];
            kept.keep(entry)?;
        }
        Ok(())
    }

    /// The budget of the newest state kept at this one's slot that includes it. Each comparison counts as work before
    /// it is made: 1 to 569 units. Refused if that passes the limit of work.
    pub fn covering(&self, state: &AbsState, work: &mut Work) -> Result<Option<u32>, TooMuchWork>
        ensures is { IfOk result
            (λ budget. budget ≡ newest_covering (kept_at self.now state.now.pc) state.now) }
        ensures covers { IfOk result
            (λ budget. IfSome budget (Covers (kept_at self.now state.now.pc) state.now)) }
        ensures most { work.new.most ≡ work.old.most }
        ensures examined { work.new.examined ≡ work.old.examined }
        ensures remade { work.new.remade ≡ work.old.remade }
        ensures compared { OnOk result
            (work.new.compared
            ≡ work.old.compared + comparisons (kept_at self.now state.now.pc) state.now) }
        ensures few { work.new.units ≤ work.old.units + 36416 }
        ensures passed { OnErr result (HasPassed work.new) }
    {
        let pc = state.pc();
        if pc < self.slots.len() {
            let kept = &self.slots[pc];
            return kept.covering(state, self.before.as_slice(), work);
        }
        Ok(None)
    }
}
