//! Call frames of certificates.

ghost use Rattle.std.specs.Prelude.{◌≡◌};

use crate::slots::Slots;
use bpf_absval::AbsVal;
use std::marker::Model;

/// What R0 to R9 may hold.
#[derive(Drop)]
pub struct Registers {
    values: [AbsVal; 10],
}

impl Model for Registers {
    ghost use Rattle.std.specs.Prelude.{List};
    ghost use Rattle.bpf_absval.specs.declared.value.AbsVal.{AbsVal};

    ghost Value = { List AbsVal };

    ghost view = { λ a. a.values };
}

/// How many of these values are set.
fn set_count(values: &[AbsVal]) -> usize {
    let mut count = 0usize;
    for value in values {
        match value {
            AbsVal::Unset => {}
            _ => count = count.saturating_add(1),
        }
    }
    count
}

impl Registers {
    /// Ten values, from R0 on.
    pub fn new(values: [AbsVal; 10]) -> Registers
        ensures is { result ≡ values }
    {
        Registers { values }
    }

    /// The ten values, from R0 on.
    pub fn as_slice(&self) -> &[AbsVal]
        ensures is { result.now ≡ self.now }
    {
        &self.values
    }

    /// Roughly the bytes of memory that they take in a state.
    pub fn weight(&self) -> usize {
        set_count(&self.values)
            .saturating_mul(96)
            .saturating_add(384)
    }
}

/// What is known of one function call.
#[derive(Drop)]
pub struct Frame {
    /// The slot at which its caller continues; 0 for the main function.
    pub return_slot: u16,
    pub registers: Registers,
    pub stack: Slots,
}
