//! The limits on examined states and on work.

ghost use Rattle.std.specs.Prelude.{◌≡◌, ◌↔◌, ℕ, None, IsSome, IfSome};
ghost use Rattle.bpf_verifier.specs.Limits.{IsStateLimit, nearest, units_of};

use std::marker::Model;

/// The most states that any exploration examines.
const MOST: u32 = 4194304;

/// The most states that an exploration examines, from 1 to 4194304. A program that needs more is refused with 36.
#[derive(Clone, Copy, Debug, PartialEq, Eq)]
pub struct StateLimit {
    states: u32,
}

impl Model for StateLimit {
    ghost Value = { ℕ };

    ghost view = { λ l. l.states };

    ghost invariant = { λ l. IsStateLimit l.states };

    ghost inverse = { λ n. record { states = n } };
}

impl StateLimit {
    /// The greatest limit, 4194304 states.
    pub const MOST: StateLimit = StateLimit { states: MOST };

    /// None if the number is 0 or above 4194304.
    pub fn new(states: u32) -> Option<Self>
        ensures valid { IsSome result ↔ IsStateLimit states }
        ensures value { IfSome result (λ l. l ≡ states) }
    {
        if 1 <= states && states <= MOST {
            Some(StateLimit { states })
        } else {
            None
        }
    }

    /// The limit nearest to a number: 1 for 0, and 4194304 for more.
    pub fn nearest(states: u32) -> Self
        ensures value { result ≡ nearest states }
    {
        StateLimit {
            states: states.max(1).min(MOST),
        }
    }

    /// The number of states, from 1 to 4194304.
    pub fn states(self) -> u32
        ensures value { result ≡ self }
        ensures valid { IsStateLimit self }
    {
        self.states
    }

    /// This limit of states, and any work.
    pub fn alone(self) -> Limits
        ensures is { result ≡ record { states = self; work = None } }
        ensures valid { IsStateLimit self }
    {
        let _ = self.states;
        Limits {
            states: self,
            work: None,
        }
    }
}

/// The most that an exploration does. A program that needs more is refused with 36.
#[derive(Clone, Copy)]
pub struct Limits {
    /// The most states that it examines.
    pub states: StateLimit,
    /// The most units of work, as [`bpf_prune::work`] counts them, if they are limited. No exploration needs 2^50.
    pub work: Option<u64>,
}

impl Limits {
    /// The greatest limit of states, and any work.
    pub const MOST: Limits = Limits {
        states: StateLimit::MOST,
        work: None,
    };

    /// How many units of work are allowed; without a limit, as many as can be counted.
    pub fn units(self) -> u64
        ensures is { result ≡ units_of self.work }
    {
        match self.work {
            Some(work) => work,
            None => u64::MAX,
        }
    }
}
