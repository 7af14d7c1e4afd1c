//! The work of a check, counted or not, and why a check ends without a verdict.

ghost use Rattle.std.specs.Prelude.{◌≡◌, ◌≤◌, ℕ, Option, Some, None, IfErr, OnOk};
ghost use Rattle.bpf_prune.specs.Spending.{HasPassed, parts};
ghost use Rattle.bpf_cert.specs.Limits.{CountsOne, CountsUnits, IsStop, number_within, stopped};
ghost use Rattle.bpf_cert.specs.declared.limit.Stop.TheVariants as stop;
ghost use Rattle.bpf_cert.specs.declared.limit.WithinFault.TheVariants.{Refused};
ghost use Rattle.bpf_cert.specs.declared.fault.CertFault.TheVariants as fault;

use crate::fault::CertFault;
use bpf_absstate::AbsState;
use bpf_prune::{TooMuchWork, Work};
use std::alloc::{AllocError, AllocFailed};

/// Why claims aren't examined to the end.
#[derive(Clone, Copy, Debug, PartialEq, Eq)]
pub enum Stop {
    /// An allocation failed.
    NoMemory,
    /// The limit of work is reached, and more is needed.
    TooMuchWork,
}

impl From<AllocError> for Stop {
    ghost from_gives = { λ _ e. e ≡ stop.NoMemory };

    fn from(_error: AllocError) -> Stop {
        Stop::NoMemory
    }
}

impl<T: Drop> From<AllocFailed<T>> for Stop {
    ghost from_gives = { λ _ e. e ≡ stop.NoMemory };

    fn from(_error: AllocFailed<T>) -> Stop {
        Stop::NoMemory
    }
}

/// Why a certificate isn't accepted within a limit of work.
#[derive(Clone, Copy, Debug, PartialEq, Eq)]
pub enum WithinFault {
    /// The refusal of a check without a limit.
    Refused(CertFault),
    /// 36: the limit of work is reached, and more is needed, which says nothing about the certificate.
    TooMuchWork,
}

impl WithinFault {
    /// The fault's number: 36, 40, or 70 to 72.
    pub fn number(self) -> u8
        ensures is { result ≡ number_within self }
    {
        match self {
            WithinFault::Refused(fault) => fault.number(),
            WithinFault::TooMuchWork => 36,
        }
    }
}

impl From<AllocError> for WithinFault {
    ghost from_gives = { λ _ e. e ≡ Refused fault.NoMemory };

    fn from(_error: AllocError) -> WithinFault {
        WithinFault::Refused(CertFault::NoMemory)
    }
}

impl From<Stop> for WithinFault {
    ghost from_gives = { λ s e. e ≡ stopped s };

    fn from(stop: Stop) -> WithinFault {
        match stop {
            Stop::NoMemory => WithinFault::Refused(CertFault::NoMemory),
            Stop::TooMuchWork => WithinFault::TooMuchWork,
        }
    }
}

/// Counts the work of a check before it is done, and may refuse it.
pub trait Meter {
    /// The most units of work that it allows, if there is a limit.
    ghost limit: { Self → Option ℕ };

    /// What was done passes the limit with the piece that was refused.
    ghost has_passed: { Self → Type 0 };

    /// How many examined states it has counted.
    ghost examined: { Self → ℕ };

    /// How many comparisons it has counted.
    ghost compared: { Self → ℕ };

    /// How many units it has counted.
    ghost spent: { Self → ℕ };

    /// Counts a state that is examined, if there is a limit.
    fn examines(&mut self, state: &AbsState) -> Result<(), Stop>
        ensures limit { limit self.new ≡ limit self.old }
        ensures counted { OnOk result (CountsOne (limit self.old) (examined self.old) (examined self.new)) }
        ensures spent { OnOk result
            (CountsUnits (limit self.old) (parts state.now) (spent self.old) (spent self.new)) }
        ensures least { examined self.old ≤ examined self.new }
        ensures compared { compared self.new ≡ compared self.old }
        ensures stop { IfErr result (IsStop (has_passed self.new)) };

    /// Counts a comparison of a state with a claim, if there is a limit.
    fn compares(&mut self) -> Result<(), Stop>
        ensures limit { limit self.new ≡ limit self.old }
        ensures examined { examined self.new ≡ examined self.old }
        ensures counted { OnOk result (CountsOne (limit self.old) (compared self.old) (compared self.new)) }
        ensures spent { OnOk result (CountsUnits (limit self.old) 1 (spent self.old) (spent self.new)) }
        ensures least { compared self.old ≤ compared self.new }
        ensures stop { IfErr result (IsStop (has_passed self.new)) };

    /// Counts units.
    fn spends(&mut self, units: u64) -> Result<(), Stop>
        requires small { units ≤ 563 }
        ensures limit { limit self.new ≡ limit self.old }
        ensures examined { examined self.new ≡ examined self.old }
        ensures compared { compared self.new ≡ compared self.old }
        ensures spent { OnOk result (CountsUnits (limit self.old) units (spent self.old) (spent self.new)) }
        ensures stop { IfErr result (IsStop (has_passed self.new)) };
}

/// Counts nothing, and refuses nothing.
#[derive(Clone, Copy, Debug)]
pub struct Unlimited;

impl Meter for Unlimited {
    ghost limit = { λ _. None };

    ghost has_passed = { λ _. ⊥ };

    ghost examined = { λ _. 0 };

    ghost compared = { λ _. 0 };

    ghost spent = { λ _. 0 };

    fn examines(&mut self, state: &AbsState) -> Result<(), Stop> {
        let _state = state;
        Ok(())
    }

    fn compares(&mut self) -> Result<(), Stop> {
        Ok(())
    }

    fn spends(&mut self, units: u64) -> Result<(), Stop> {
        let _units = units;
        Ok(())
    }
}

impl Meter for Work {
    ghost limit = { λ w. Some w.most };

    ghost has_passed = { λ w. HasPassed w };

    ghost examined = { λ w. w.examined };

    ghost compared = { λ w. w.compared };

    ghost spent = { λ w. w.units };

    fn examines(&mut self, state: &AbsState) -> Result<(), Stop> {
        match self.examine(state) {
            Ok(()) => Ok(()),
            Err(TooMuchWork) => Err(Stop::TooMuchWork),
        }
    }

    fn compares(&mut self) -> Result<(), Stop> {
        match self.compare() {
            Ok(()) => Ok(()),
            Err(TooMuchWork) => Err(Stop::TooMuchWork),
        }
    }

    fn spends(&mut self, units: u64) -> Result<(), Stop> {
        match self.spend(units) {
            Ok(()) => Ok(()),
            Err(TooMuchWork) => Err(Stop::TooMuchWork),
        }
    }
}

/// How many units are counted at once.
const PIECE: u64 = 563;

/// Counts any number of units.
pub(crate) fn spend_all<M: Meter>(work: &mut M, units: u64) -> Result<(), Stop>
    ensures limit { M.limit work.new ≡ M.limit work.old }
    ensures examined { M.examined work.new ≡ M.examined work.old }
    ensures compared { M.compared work.new ≡ M.compared work.old }
    ensures spent { OnOk result
        (CountsUnits (M.limit work.old) units (M.spent work.old) (M.spent work.new)) }
    ensures stop { IfErr result (IsStop (M.has_passed work.new)) }
{
    let mut left = units;
    while left > 0 {
        let piece = left.min(PIECE);
        work.spends(piece)?;
        left -= piece;
    }
    Ok(())
}
