//! Finished states that say no more than their checks need.

ghost use Rattle.std.specs.Prelude.{◌<◌, IfErr};
ghost use Rattle.bpf_prune.specs.Spending.{HasPassed};
ghost use Rattle.bpf_cert.specs.Limits.{IsStop};

use crate::claim::Claim;
use crate::claims::Claims;
use crate::coverage::leads;
use crate::limit::Stop;
use bpf_absnum::AbsNum;
use bpf_absstate::AbsState;
use bpf_absval::{AbsSlot, AbsVal};
use bpf_decode::Program;
use bpf_insn::Reg;
use bpf_prune::{Entry, Work};
use std::alloc::{AllocError, Global};

/// With how many claims of its slot a state is compared.
const NEWEST: usize = 64;

/// What is omitted from a state.
#[derive(Clone, Copy, PartialEq, Eq)]
struct Cut {
    /// The registers of which nothing is said: bit n for Rn.
    unset: u16,
    /// The registers of which only the kind of value is said.
    loose: u16,
    /// The slots of the newest stack of which nothing is said.
    slots: u64,
    /// Whether nothing is said of the frame's length.
    length: bool,
}

/// Nothing is omitted.
const WHOLE: Cut = Cut {
    unset: 0,
    loose: 0,
    slots: 0,
    length: false,
};

/// The value with any number, or at any offset that keeps its label.
fn loosened(value: AbsVal) -> AbsVal {
    match value {
        AbsVal::Number(_) => AbsVal::Number(AbsNum::full()),
        AbsVal::Frame {
            offset: _,
            label: Some(label),
        } => AbsVal::Frame {
            offset: AbsNum::full(),
            label: Some(label),
        },
        other => other,
    }
}

/// Copies from a state the bytes known to follow a value's label.
fn add_room(short: &mut AbsState, state: &AbsState, value: AbsVal) -> Result<(), AllocError> {
    let label = match value {
        AbsVal::Frame {
            label: Some(known),
            ..
        } => known.label,
        _ => return Ok(()),
    };
    if let Some(size) = state.room(label) {
        short.raise_room(label, size)?;
    }
    Ok(())
}

/// Copies R0 to R9 from a state.
fn add_registers(short: &mut AbsState, state: &AbsState) -> Result<(), AllocError> {
    for number in 0..10u8 {
        let register = Reg::new(number);
        short.set_register(register, state.register(register))?;
        add_room(short, state, state.register(register))?;
    }
    Ok(())
}

/// Copies a slot of the main function's stack.
fn add_slot(short: &mut AbsState, index: usize, slot: AbsSlot) -> Result<(), AllocError>
    requires { index < 64 }
{
    if matches!(slot, AbsSlot::Unset) {
        return Ok(());
    }
    let _frames = short.depth();
    short.set_slot(0, index, slot)?;
    Ok(())
}

fn stored(slot: AbsSlot) -> AbsVal {
    match slot {
        AbsSlot::Stored(value) => value,
        _ => AbsVal::Unset,
    }
}

/// Copies the main function's stack from a state.
fn add_slots(short: &mut AbsState, state: &AbsState) -> Result<(), AllocError> {
    let _frames = state.depth();
    for index in 0..64 {
        add_slot(short, index, state.slot(0, index))?;
        add_room(short, state, stored(state.slot(0, index)))?;
    }
    Ok(())
}

/// The state without what is known of the frame's length; unchanged in a called function.
fn without_length(alloc: Global, state: &AbsState) -> Result<AbsState, AllocError> {
    if state.depth() != 1 {
        return state.clone();
    }
    let mut short = AbsState::entry(alloc)?;
    add_registers(&mut short, state)?;
    add_slots(&mut short, state)?;
    short.go_to(state.pc());
    Ok(short)
}

fn cut_registers(state: &mut AbsState, cut: Cut) -> Result<(), AllocError> {
    for number in 0..10u8 {
        let register = Reg::new(number);
        if cut.unset >> number & 1 == 1 {
            state.set_register(register, AbsVal::Unset)?;
        } else if cut.loose >> number & 1 == 1 {
            state.set_register(register, loosened(state.register(register)))?;
        }
    }
    Ok(())
}

fn cut_slots(state: &mut AbsState, cut: Cut) -> Result<(), AllocError> {
    for index in 0..64 {
        if cut.slots >> index & 1 == 1 {
            let newest = state.depth() - 1;
            state.set_slot(newest, index, AbsSlot::Unset)?;
        }
    }
    Ok(())
}

/// The state without what is omitted.
fn without(alloc: Global, state: &AbsState, cut: Cut) -> Result<AbsState, AllocError> {
    let mut wide = if cut.length {
        without_length(alloc, state)?
    } else {
        state.clone()?
    };
    cut_registers(&mut wide, cut)?;
    cut_slots(&mut wide, cut)?;
    Ok(wide)
}

/// A finished state from which as much as possible is omitted. All its successors are claimed already.
#[derive(Clone, Copy)]
struct Trial<'a> {
    alloc: Global,
    program: &'a Program,
    claims: &'a Claims,
    state: &'a AbsState,
    budget: u32,
}

impl Trial<'_> {
    /// Whether the state still leads to claims within its budget.
    fn passes(self, cut: Cut, work: &mut Work) -> Result<bool, Stop>
        ensures stop { IfErr result (IsStop (HasPassed work.new)) }
    {
        let claim = Claim {
            state: without(self.alloc, self.state, cut)?,
            budget: self.budget,
            is_open: true,
        };
        leads(self.program, self.claims, claim, work)
    }

    /// Omits as much of one register as possible.
    fn cut_register(self, cut: Cut, number: u8, work: &mut Work) -> Result<Cut, Stop>
        requires { number < 10 }
        ensures stop { IfErr result (IsStop (HasPassed work.new)) }
    {
        let unset = Cut {
            unset: cut.unset | 1 << number,
            ..cut
        };
        let value = self.state.register(Reg::new(number));
        if matches!(value, AbsVal::Unset) || self.passes(unset, work)? {
            return Ok(unset);
        }
        let loose = Cut {
            loose: cut.loose | 1 << number,
            ..cut
        };
        if loosened(value) != value && self.passes(loose, work)? {
            return Ok(loose);
        }
        Ok(cut)
    }

    /// Omits as much of the registers as possible.
    fn cut_registers(self, cut: Cut, work: &mut Work) -> Result<Cut, Stop>
        ensures stop { IfErr result (IsStop (HasPassed work.new)) }
    {
        let mut cut = cut;
        for number in 0..10 {
            cut = self.cut_register(cut, number, work)?;
        }
        Ok(cut)
    }

    /// Omits a slot of the newest stack, if possible.
    fn cut_slot(self, cut: Cut, index: u8, work: &mut Work) -> Result<Cut, Stop>
        requires { index < 64 }
        ensures stop { IfErr result (IsStop (HasPassed work.new)) }
    {
        let less = Cut {
            slots: cut.slots | 1 << index,
            ..cut
        };
        let slot = self.state.slot(self.state.depth() - 1, index as usize);
        if matches!(slot, AbsSlot::Unset) || self.passes(less, work)? {
            return Ok(less);
        }
        Ok(cut)
    }

    /// Omits as many slots of the newest stack as possible.
    fn cut_slots(self, cut: Cut, work: &mut Work) -> Result<Cut, Stop>
        ensures stop { IfErr result (IsStop (HasPassed work.new)) }
    {
        let mut cut = cut;
        for index in 0..64 {
            cut = self.cut_slot(cut, index, work)?;
        }
        Ok(cut)
    }

    /// What can be omitted. What was last omitted at its slot, if anything, is tried first.
    fn cut(self, before: Cut, work: &mut Work) -> Result<Cut, Stop>
        ensures stop { IfErr result (IsStop (HasPassed work.new)) }
    {
        if before != WHOLE && self.passes(before, work)? {
            return Ok(before);
        }
        let short = Cut {
            length: true,
            ..WHOLE
        };
        let cut = if self.passes(short, work)? {
            short
        } else {
            WHOLE
        };
        let cut = self.cut_registers(cut, work)?;
        self.cut_slots(cut, work)
    }
}

/// Finished states as claims, each without what its checks don't need; the checks count as work. A state that such a
/// claim includes, with a budget that serves, is left out.
pub(crate) fn widened(
    alloc: Global,
    program: &Program,
    finished: &[Entry],
    work: &mut Work,
) -> Result<Claims, Stop>
    ensures stop { IfErr result (IsStop (HasPassed work.new)) }
{
    let mut claims = Claims::new(alloc, program.len())?;
    let mut cuts = vec![in alloc; WHOLE; program.len()]?;
    for one in finished {
        let pc = one.state.pc();
        if pc >= cuts.len() || claims.soon_include(&one.state, one.budget, NEWEST, work)? {
            continue;
        }
        let trial = Trial {
            alloc,
            program,
            claims: &claims,
            state: &one.state,
            budget: one.budget,
        };
        cuts[pc] = trial.cut(cuts[pc], work)?;
        claims.push(Claim {
            state: without(alloc, &one.state, cuts[pc])?,
            budget: one.budget,
            is_open: true,
        })?;
    }
    Ok(claims)
}
