//! What registers may hold. Copies share each value until one of them writes it.

ghost use Rattle.std.specs.Prelude.{◌≡◌, ◌+◌, ◌<◌, ◌≤◌, ◌||◌, [], ◌∷◌, length, map, replicate, slice_get, slice_set, Some, OnOk, OnErr, IfOk, IfSome, IfNone, true};
ghost use Rattle.bpf_absval.specs.declared.value.AbsVal.TheVariants.{Unset};
ghost use Rattle.bpf_absval.specs.Marked.{is_marked, OthersStay, seen};
ghost use Rattle.bpf_absval.specs.Unlabelled.{unlabelled, has_label, bare};
ghost use Rattle.bpf_absval.specs.WellFormed.{IsVal};
ghost use Rattle.bpf_absstate.specs.Difference.{lies_in_at, IsValueOutside};
ghost use Rattle.bpf_absstate.specs.Inclusion.{values_included};
ghost use Rattle.bpf_absstate.specs.Shared.{held_by};
ghost use Rattle.bpf_absstate.specs.View.{entry_registers, stack_end, main_frame, callee_registers, caller_registers, kept_of, without_arguments};

use bpf_absnum::AbsNum;
use bpf_absval::{AbsRegion, AbsVal, Marks, Rooms};
use std::alloc::{AllocError, Global};
use std::marker::Model;
use std::rc::Rc;

/// Eleven values, each behind a shared pointer.
#[derive(Drop)]
struct Values {
    values: [Rc<AbsVal>; 11],
}

impl Model for Values {
    ghost use Rattle.std.specs.Prelude.{◌≡◌, List, length};
    ghost use Rattle.bpf_absval.specs.declared.value.AbsVal.{AbsVal};
    ghost use Rattle.bpf_absstate.specs.Shared.{held_by};

    ghost Value = { List AbsVal };

    ghost view = { λ a. held_by a.values };

    ghost invariant = { λ a. length a.values ≡ 11 };
}

impl Clone for Values {
    ghost is_clone = { λ a b. b ≡ a };

    fn clone(&self) -> Result<Values, AllocError> {
        let values = self.values.clone()?;
        Ok(Values { values })
    }
}

/// What R0 to R10 may hold.
#[derive(Drop)]
pub struct Registers {
    shared: Rc<Values>,
}

impl Model for Registers {
    ghost use Rattle.std.specs.Prelude.{List};
    ghost use Rattle.bpf_absval.specs.declared.value.AbsVal.{AbsVal};

    ghost Value = { List AbsVal };

    ghost view = { λ a. a.shared.value };
}

impl Clone for Registers {
    ghost is_clone = { λ a b. b ≡ a };

    fn clone(&self) -> Result<Registers, AllocError> {
        let shared = self.shared.clone()?;
        Ok(Registers { shared })
    }
}

/// The caller's R6 to R9.
#[derive(Drop)]
pub struct Kept {
    values: [Rc<AbsVal>; 4],
    /// The values whose label is forgotten: none has a label, whatever `values` says.
    marks: Marks,
}

impl Model for Kept {
    ghost use Rattle.std.specs.Prelude.{◌≡◌, List, length};
    ghost use Rattle.bpf_absval.specs.declared.value.AbsVal.{AbsVal};
    ghost use Rattle.bpf_absval.specs.Marked.{seen};
    ghost use Rattle.bpf_absval.specs.Unlabelled.{bare};
    ghost use Rattle.bpf_absstate.specs.Shared.{held_by};

    ghost Value = { List AbsVal };

    ghost view = { λ a. seen bare a.marks.bits 0 (held_by a.values) };

    ghost invariant = { λ a. length a.values ≡ 4 };
}

impl Clone for Kept {
    ghost is_clone = { λ a b. b ≡ a };

    fn clone(&self) -> Result<Kept, AllocError> {
        let values = self.values.clone()?;
        Ok(Kept {
            values,
            marks: self.marks,
        })
    }
}

fn end_of_stack(number: u8) -> AbsVal
    ensures is { result ≡ stack_end number }
{
    AbsVal::Pointer {
        region: AbsRegion::Stack(number),
        offset: AbsNum::single(512),
    }
}

/// Writes the value behind a shared pointer, for this owner only. If allocation fails, it is unchanged.
fn write(held: &mut Rc<AbsVal>, value: AbsVal) -> Result<(), AllocError>
    ensures ok { OnOk result (held.new.value ≡ value) }
    ensures err { OnErr result (held.new.value ≡ held.old.value) }
{
    let held = Rc::make_mut(held)?;
    *held = value;
    Ok(())
}

fn take_label(held: &mut Rc<AbsVal>, label: u16) -> Result<(), AllocError>
    ensures is { OnOk result (held.new.value ≡ unlabelled label held.old.value) }
{
    let value = **held;
    if value.has_label(label) {
        write(held, value.without_label(label))?;
    }
    Ok(())
}

fn take_labels(values: &mut [Rc<AbsVal>], label: u16) -> Result<(), AllocError>
    ensures is { OnOk result (held_by values.new ≡ map (unlabelled label) (held_by values.old)) }
{
    for k in 0..values.len() {
        take_label(&mut values[k], label)?;
    }
    Ok(())
}

/// The marks, and one at `index` if the value there has the label.
fn marked(marks: Marks, index: usize, value: &AbsVal, label: u16) -> Marks
    requires { index < 64 }
    ensures here { is_marked result.bits index
        ≡ (has_label label value.now || is_marked marks.bits index) }
    ensures others { OthersStay index marks.bits result.bits }
{
    if value.has_label(label) {
        return marks.with(index);
    }
    marks
}

/// The marks of the values that have lost their label, once this one is forgotten too. `marks` are those before.
fn forgotten(values: &[Rc<AbsVal>], marks: Marks, label: u16) -> Marks
    requires { length values.now ≤ 64 }
    ensures { seen bare result.bits 0 (held_by values.now)
        ≡ map (unlabelled label) (seen bare marks.bits 0 (held_by values.now)) }
{
    let mut lost = marks;
    for k in 0..values.len() {
        lost = marked(lost, k, &values[k], label);
    }
    lost
}

/// An index at which the value of `a` isn't included in that of `b`.
fn first_outside(a: &[Rc<AbsVal>], b: &[Rc<AbsVal>], rooms: &Rooms, others: &Rooms) -> Option<usize>
    requires { length a.now ≡ length b.now }
    ensures none { IfNone result
        (values_included rooms.now others.now (held_by a.now) (held_by b.now) ≡ true) }
    ensures some { IfSome result
        (IsValueOutside rooms.now others.now (held_by a.now) (held_by b.now)) }
{
    for k in 0..a.len() {
        if !a[k].is_included(&b[k], rooms, others) {
            return Some(k);
        }
    }
    None
}

impl Values {
    fn unset(alloc: Global) -> Result<Values, AllocError>
        ensures is { IfOk result (λ values. values ≡ replicate 11 Unset) }
    {
        let none = Rc::new(alloc, AbsVal::Unset)?;
        let values = [
            none.clone()?,
            none.clone()?,
            none.clone()?,
            none.clone()?,
            none.clone()?,
            none.clone()?,
            none.clone()?,
            none.clone()?,
            none.clone()?,
            none.clone()?,
            none,
        ];
        Ok(Values { values })
    }

    fn entry(alloc: Global) -> Result<Values, AllocError>
        ensures is { IfOk result (λ values. values ≡ entry_registers) }
    {
        let mut values = Values::unset(alloc)?;
        let start = AbsNum::single(0);
        values.set(
            1,
            AbsVal::Frame {
                offset: start,
                label: None,
            },
        )?;
        values.set(2, AbsVal::FrameEnd)?;
        values.set(
            3,
            AbsVal::Pointer {
                region: AbsRegion::Context,
                offset: start,
            },
        )?;
        values.set(10, end_of_stack(0))?;
        Ok(values)
    }

    fn get(&self, number: usize) -> AbsVal
        requires { number < 11 }
        ensures is { slice_get self.now number ≡ Some result }
    {
        *self.values[number]
    }

    fn pointer(&self, number: usize) -> Result<Rc<AbsVal>, AllocError>
        requires { number < 11 }
        ensures is { IfOk result (λ held. slice_get self.now number ≡ Some held.value) }
    {
        let held = self.values[number].clone()?;
        Ok(held)
    }

    fn set(&mut self, number: usize, value: AbsVal) -> Result<(), AllocError>
        requires { number < 11 }
        ensures ok { OnOk result (self.new ≡ slice_set self.old number value) }
        ensures err { OnErr result (self.new ≡ self.old) }
    {
        write(&mut self.values[number], value)?;
        Ok(())
    }

    /// Sets a register to the value behind a shared pointer, which it shares.
    fn share(&mut self, number: usize, held: &Rc<AbsVal>) -> Result<(), AllocError>
        requires { number < 11 }
        ensures is { OnOk result (self.new ≡ slice_set self.old number held.now.value) }
    {
        let held = held.clone()?;
        self.values[number] = held;
        Ok(())
    }

    fn forget_label(&mut self, label: u16) -> Result<(), AllocError>
        ensures is { OnOk result (self.new ≡ map (unlabelled label) self.old) }
    {
        take_labels(&mut self.values, label)?;
        Ok(())
    }

    fn first_outside(&self, other: &Values, rooms: &Rooms, others: &Rooms) -> Option<usize>
        ensures none { IfNone result
            (values_included rooms.now others.now self.now other.now ≡ true) }
        ensures some { IfSome result (IsValueOutside rooms.now others.now self.now other.now) }
        ensures few { IfSome result (λ number. number < 11) }
    {
        first_outside(&self.values, &other.values, rooms, others)
    }

    fn lies_in(&self, other: &Values, number: usize, rooms: &Rooms, others: &Rooms) -> bool
        requires { number < 11 }
        ensures is { result ≡ lies_in_at rooms.now others.now self.now other.now number }
    {
        self.values[number].is_included(&other.values[number], rooms, others)
    }

    fn kept(&self) -> Result<Kept, AllocError>
        ensures is { IfOk result (λ kept. kept ≡ kept_of self.now) }
    {
        let values = [
            self.values[6].clone()?,
            self.values[7].clone()?,
            self.values[8].clone()?,
            self.values[9].clone()?,
        ];
        Ok(Kept::of(values))
    }

    #[tactic(auto, using(crate::proofs::Pointers::got_set))]
    fn enter(&mut self, number: u8) -> Result<(), AllocError>
        ensures is { OnOk result (self.new ≡ callee_registers self.old number) }
    {
        self.set(0, AbsVal::Unset)?;
        let none = self.pointer(0)?;
        self.share(6, &none)?;
        self.share(7, &none)?;
        self.share(8, &none)?;
        self.share(9, &none)?;
        self.set(10, end_of_stack(number))?;
        Ok(())
    }

    #[tactic(auto, using(crate::proofs::Pointers::got_set))]
    fn clear_arguments(&mut self) -> Result<(), AllocError>
        ensures is { OnOk result (self.new ≡ without_arguments self.old) }
    {
        self.set(1, AbsVal::Unset)?;
        let none = self.pointer(1)?;
        self.share(2, &none)?;
        self.share(3, &none)?;
        self.share(4, &none)?;
        self.share(5, &none)?;
        Ok(())
    }

    #[tactic(auto, using(crate::proofs::Pointers::got_or))]
    fn leave(&mut self, kept: &Kept, number: u8) -> Result<(), AllocError>
        ensures is { OnOk result (self.new ≡ caller_registers self.old kept.now (number + 1)) }
    {
        self.clear_arguments()?;
        self.share(6, &kept.pointer(0)?)?;
        self.share(7, &kept.pointer(1)?)?;
        self.share(8, &kept.pointer(2)?)?;
        self.share(9, &kept.pointer(3)?)?;
        self.set(10, end_of_stack(number))?;
        Ok(())
    }
}

impl Kept {
    /// Those values, with their labels.
    fn of(values: [Rc<AbsVal>; 4]) -> Kept
        ensures is { result ≡ held_by values }
    {
        Kept {
            values,
            marks: Marks::none(),
        }
    }

    /// The values kept for the main function's caller: all unset.
    pub fn none(alloc: Global) -> Result<Kept, AllocError>
        ensures is { IfOk result (λ kept. kept ≡ main_frame.kept) }
    {
        let none = Rc::new(alloc, AbsVal::Unset)?;
        let values = [none.clone()?, none.clone()?, none.clone()?, none];
        Ok(Kept::of(values))
    }

    fn get(&self, number: usize) -> AbsVal
        requires { number < 4 }
        ensures is { slice_get self.now number ≡ Some result }
    {
        let value = *self.values[number];
        if self.marks.has(number) {
            return value.bare();
        }
        value
    }

    fn pointer(&self, number: usize) -> Result<Rc<AbsVal>, AllocError>
        requires { number < 4 }
        ensures is { IfOk result (λ held. slice_get self.now number ≡ Some held.value) }
    {
        let mut held = self.values[number].clone()?;
        if self.marks.has(number) {
            let value = held.bare();
            write(&mut held, value)?;
        }
        Ok(held)
    }

    /// The values without a label. They stay shared.
    pub fn without_label(&self, label: u16) -> Result<Kept, AllocError>
        ensures is { IfOk result (λ kept. kept ≡ map (unlabelled label) self.now) }
    {
        let values = self.values.clone()?;
        let marks = forgotten(&self.values, self.marks, label);
        Ok(Kept { values, marks })
    }

    /// One of the values that isn't included in the other's; `None` if there is none.
    pub fn first_outside(&self, other: &Kept, rooms: &Rooms, others: &Rooms) -> Option<usize>
        ensures none { IfNone result
            (values_included rooms.now others.now self.now other.now ≡ true) }
        ensures some { IfSome result (IsValueOutside rooms.now others.now self.now other.now) }
        ensures few { IfSome result (λ number. number < 4) }
    {
        let _values = &self.values;
        let _others = &other.values;
        for k in 0..4 {
            if !self.lies_in(other, k, rooms, others) {
                return Some(k);
            }
        }
        None
    }

    /// Whether one of the values is included in the other's.
    pub fn lies_in(&self, other: &Kept, number: usize, rooms: &Rooms, others: &Rooms) -> bool
        requires { number < 4 }
        ensures is { result ≡ lies_in_at rooms.now others.now self.now other.now number }
    {
        if self.marks.has(number) || other.marks.has(number) {
            return self
                .get(number)
                .is_included(&other.get(number), rooms, others);
        }
        self.values[number].is_included(&other.values[number], rooms, others)
    }
}

impl Registers {
    /// The registers at the start of a run.
    pub fn entry(alloc: Global) -> Result<Registers, AllocError>
        ensures is { IfOk result (λ registers. registers ≡ entry_registers) }
    {
        let values = Values::entry(alloc)?;
        let shared = Rc::new(alloc, values)?;
        Ok(Registers { shared })
    }

    /// What a register may hold.
    pub fn get(&self, number: usize) -> AbsVal
        requires { number < 11 }
        ensures is { slice_get self.now number ≡ Some result }
    {
        self.shared.get(number)
    }

    /// Sets a register. If allocation fails, the registers are unchanged.
    pub fn set(&mut self, number: usize, value: AbsVal) -> Result<(), AllocError>
        requires { number < 11 }
        ensures ok { OnOk result (self.new ≡ slice_set self.old number value) }
        ensures err { OnErr result (self.new ≡ self.old) }
        // The value is well formed.
        ensures whole { IsVal value }
    {
        let values = Rc::make_mut(&mut self.shared)?;
        values.set(number, value)?;
        Ok(())
    }

    /// What a caller keeps: R6 to R9.
    pub fn kept(&self) -> Result<Kept, AllocError>
        ensures is { IfOk result (λ kept. kept ≡ kept_of self.now) }
    {
        self.shared.kept()
    }

    /// The registers of a called function whose stack frame has that number.
    pub fn called(&self, number: u8) -> Result<Registers, AllocError>
        ensures is { IfOk result (λ registers. registers ≡ callee_registers self.now number) }
    {
        let mut shared = self.shared.clone()?;
        let values = Rc::make_mut(&mut shared)?;
        values.enter(number)?;
        Ok(Registers { shared })
    }

    /// The registers of a caller after a return: it kept those values, and its stack frame has that number.
    pub fn returned(&self, kept: &Kept, number: u8) -> Result<Registers, AllocError>
        ensures is { IfOk result
            (λ registers. registers ≡ caller_registers self.now kept.now (number + 1)) }
    {
        let mut shared = self.shared.clone()?;
        let values = Rc::make_mut(&mut shared)?;
        values.leave(kept, number)?;
        Ok(Registers { shared })
    }

    /// The registers after a call: R1 to R5 are unset.
    pub fn without_arguments(&self) -> Result<Registers, AllocError>
        ensures is { IfOk result (λ registers. registers ≡ without_arguments self.now) }
    {
        let mut shared = self.shared.clone()?;
        let values = Rc::make_mut(&mut shared)?;
        values.clear_arguments()?;
        Ok(Registers { shared })
    }

    /// The registers without a label.
    pub fn without_label(&self, label: u16) -> Result<Registers, AllocError>
        ensures is { IfOk result (λ registers. registers ≡ map (unlabelled label) self.now) }
    {
        let mut shared = self.shared.clone()?;
        let values = Rc::make_mut(&mut shared)?;
        values.forget_label(label)?;
        Ok(Registers { shared })
    }

    /// A register that isn't included in the other's; `None` if there is none.
    pub fn first_outside(&self, other: &Registers, rooms: &Rooms, others: &Rooms) -> Option<usize>
        ensures none { IfNone result
            (values_included rooms.now others.now self.now other.now ≡ true) }
        ensures some { IfSome result (IsValueOutside rooms.now others.now self.now other.now) }
        ensures few { IfSome result (λ number. number < 11) }
    {
        self.shared.first_outside(&other.shared, rooms, others)
    }

    /// Whether a register is included in the other's.
    pub fn lies_in(&self, other: &Registers, number: usize, rooms: &Rooms, others: &Rooms) -> bool
        requires { number < 11 }
        ensures is { result ≡ lies_in_at rooms.now others.now self.now other.now number }
    {
        self.shared.lies_in(&other.shared, number, rooms, others)
    }
}
