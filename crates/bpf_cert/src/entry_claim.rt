//! The claims of a certificate's entries.

ghost use Rattle.std.specs.Prelude.{◌≡◌, length, take};
ghost use Rattle.std.specs.List.{All, list_all};
ghost use Rattle.bpf_absstate.specs.WellFormed.{IsView};
ghost use Rattle.bpf_cert_format.specs.Fits.{FitsEntry};
ghost use Rattle.bpf_cert.specs.States.{callers_free as free, claim_of, state_of as describes};
ghost use Rattle.bpf_rules.specs.Operands.{is_unset as unset};

use crate::claim::Claim;
use bpf_absstate::AbsState;
use bpf_absval::AbsVal;
use bpf_cert_format::{Entry, Frame};

fn is_unset(value: AbsVal) -> bool
    ensures is { result ≡ unset value }
{
    match value {
        AbsVal::Unset => true,
        _ => false,
    }
}

fn are_unset(values: &[AbsVal]) -> bool
    ensures is { result ≡ list_all unset values.now }
{
    values.iter().all(|value| is_unset(*value))
}

/// Whether R0 to R5 are unset.
fn says_nothing(frame: &Frame) -> bool
    requires all { length frame.now.registers ≡ 10 }
    ensures is { result ≡ list_all unset (take 6 frame.now.registers) }
{
    are_unset(&frame.registers.as_slice()[..6])
}

/// Whether R0 to R5 of all calling functions are unset.
fn callers_free(frames: &[Frame]) -> bool
    requires all { All (λ f. length f.registers ≡ 10) frames.now }
    ensures is { result ≡ free frames.now }
{
    for k in 1..frames.len() {
        if !says_nothing(&frames[k - 1]) {
            return false;
        }
    }
    true
}

/// The claim of an entry that describes a state.
#[tactic(auto, using(crate::proofs::Builds::registers_ten))]
pub(crate) fn claim(maps: usize, state: AbsState, entry: &Entry) -> Claim
    requires described { state ≡ describes entry.now }
    requires fits { FitsEntry maps entry.now }
    ensures is { result ≡ claim_of entry.now }
    ensures whole { IsView result.state }
{
    state.whole();
    Claim {
        state,
        budget: entry.budget(),
        is_open: callers_free(entry.frames()),
    }
}
