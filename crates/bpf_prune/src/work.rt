//! Work, counted in units before it is done, with a limit.
//!
//! One unit is one part of a state that is looked at: a register, or of a call frame its return slot, one of the
//! caller's R6 to R9, or a slot of its stack. A state that is examined, or made again, counts all its parts. So does a
//! comparison of a state with a kept one, if none of six parts decides it; before, it counts those. A comparison with a
//! claim of a certificate counts two parts before all.

ghost use Rattle.std.specs.Prelude.{◌≡◌, ◌+◌, ◌*◌, ◌≤◌, OnOk, OnErr};
ghost use Rattle.bpf_prune.specs.Spending.{HasPassed, parts, unspent};

use bpf_absstate::AbsState;
use std::marker::Model;

/// A piece of work isn't done, since it would pass the limit.
#[derive(Clone, Copy, Debug, PartialEq, Eq)]
pub struct TooMuchWork;

/// How much work was done, and how much is allowed.
#[derive(Drop)]
pub struct Work {
    /// The units that are allowed.
    most: u64,
    /// The units that were done.
    units: u64,
    /// The states that were examined.
    examined: u64,
    /// How many times an examined state was made again.
    remade: u64,
    /// The comparisons of a state with another one.
    compared: u64,
    /// The units of the piece that was refused last; 0 if none was.
    refused: u64,
}

impl Model for Work {
    ghost use Rattle.std.specs.Prelude.{◌+◌, ◌*◌, ◌≤◌};
    ghost use Rattle.bpf_prune.specs.Spending.{Tally};

    ghost Value = { Tally };

    ghost view = { λ a. record {
      most = a.most;
      units = a.units;
      examined = a.examined;
      remade = a.remade;
      compared = a.compared;
      refused = a.refused;
    } };

    ghost invariant = { λ a. (a.units ≤ a.most) × (80 * (a.examined + a.remade) + a.compared ≤ a.units) };
}

/// How many parts a state has, 80 to 563.
pub fn parts_of(state: &AbsState) -> u64
    ensures is { result ≡ parts state.now }
    ensures some { 80 ≤ result }
    ensures few { result ≤ 563 }
{
    11 + 69 * state.depth() as u64
}

impl Work {
    /// No work yet, and the units that are allowed.
    pub fn within(most: u64) -> Work
        ensures is { result ≡ unspent most }
    {
        Work {
            most,
            units: 0,
            examined: 0,
            remade: 0,
            compared: 0,
            refused: 0,
        }
    }

    /// The units that were done.
    pub fn units(&self) -> u64
        ensures is { result ≡ self.now.units }
    {
        let Work { units, .. } = self;
        *units
    }

    /// Does nothing; its contract gives a proof what holds of all work.
    pub fn known(&self)
        ensures allowed { self.now.units ≤ self.now.most }
        ensures counted { 80 * (self.now.examined + self.now.remade) + self.now.compared ≤ self.now.units }
    {
        let _most = self.most;
    }

    /// Counts units before they are done. Refused if that passes the limit.
    pub fn spend(&mut self, units: u64) -> Result<(), TooMuchWork>
        requires small { units ≤ 563 }
        ensures most { self.new.most ≡ self.old.most }
        ensures examined { self.new.examined ≡ self.old.examined }
        ensures remade { self.new.remade ≡ self.old.remade }
        ensures compared { self.new.compared ≡ self.old.compared }
        ensures done { OnOk result (self.new.units ≡ self.old.units + units) }
        ensures same { OnErr result (self.new.units ≡ self.old.units) }
        ensures passed { OnErr result (HasPassed self.new) }
    {
        if self.most - self.units < units {
            self.refused = units;
            return Err(TooMuchWork);
        }
        self.units += units;
        Ok(())
    }

    /// Counts a state before it is examined: each of its parts is a unit. Refused if that passes the limit.
    pub fn examine(&mut self, state: &AbsState) -> Result<(), TooMuchWork>
        ensures most { self.new.most ≡ self.old.most }
        ensures examined { OnOk result (self.new.examined ≡ self.old.examined + 1) }
        ensures remade { self.new.remade ≡ self.old.remade }
        ensures compared { self.new.compared ≡ self.old.compared }
        ensures done { OnOk result (self.new.units ≡ self.old.units + parts state.now) }
        ensures few { self.new.units ≤ self.old.units + 563 }
        ensures same { OnErr result (self.new.units ≡ self.old.units) }
        ensures none { OnErr result (self.new.examined ≡ self.old.examined) }
        ensures passed { OnErr result (HasPassed self.new) }
    {
        let _ = &self.units;
        self.spend(parts_of(state))?;
        self.examined += 1;
        Ok(())
    }

    /// Counts a state before it is made again: each of its parts is a unit. Refused if that passes the limit.
    pub fn remake(&mut self, state: &AbsState) -> Result<(), TooMuchWork>
        ensures most { self.new.most ≡ self.old.most }
        ensures examined { self.new.examined ≡ self.old.examined }
        ensures remade { OnOk result (self.new.remade ≡ self.old.remade + 1) }
        ensures compared { self.new.compared ≡ self.old.compared }
        ensures done { OnOk result (self.new.units ≡ self.old.units + parts state.now) }
        ensures few { self.new.units ≤ self.old.units + 563 }
        ensures same { OnErr result (self.new.units ≡ self.old.units) }
        ensures none { OnErr result (self.new.remade ≡ self.old.remade) }
        ensures passed { OnErr result (HasPassed self.new) }
    {
        let _ = &self.units;
        self.spend(parts_of(state))?;
        self.remade += 1;
        Ok(())
    }

    /// Counts a comparison of a state with another one, and the part that is compared first. Refused if that passes the
    /// limit.
    pub fn compare(&mut self) -> Result<(), TooMuchWork>
        ensures most { self.new.most ≡ self.old.most }
        ensures examined { self.new.examined ≡ self.old.examined }
        ensures remade { self.new.remade ≡ self.old.remade }
        ensures compared { OnOk result (self.new.compared ≡ self.old.compared + 1) }
        ensures done { OnOk result (self.new.units ≡ self.old.units + 1) }
        ensures same { OnErr result (self.new.units ≡ self.old.units) }
        ensures none { OnErr result (self.new.compared ≡ self.old.compared) }
        ensures passed { OnErr result (HasPassed self.new) }
    {
        let _ = &self.units;
        self.spend(1)?;
        self.compared += 1;
        Ok(())
    }
}
