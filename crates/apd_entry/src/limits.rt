//! What the verifier may do for each program.

ghost use Rattle.std.specs.Prelude.{◌≡◌};
ghost use Rattle.apd_program.specs.Verifying.{within};

use apd_run::{Limits, StateLimit};

/// At most so many states, and so much work, if it is limited.
pub(crate) fn within(states: u32, work: Option<u64>) -> Limits
    ensures is { result ≡ within states work }
{
    Limits {
        states: StateLimit::nearest(states),
        work,
    }
}
