//! The queries put to a judge: a list that only proofs read.

ghost use Rattle.std.specs.Prelude.{◌≡◌, ℕ, List, [], ◌∷◌, ◌++◌};
ghost use Rattle.std.specs.Borrow.{ftrue};
ghost use Rattle.ap_model.specs.Asks.{Ask};

use bpf_regions::{Context, Frame, Hook};
use std::marker::Model;

/// One query and its answer, as recorded.
#[derive(Clone, Copy)]
pub(crate) struct Asked<'a> {
    pub(crate) hook: Hook,
    pub(crate) frame: &'a [u8],
    pub(crate) context: &'a [u8],
    pub(crate) answer: u64,
}

/// The queries put to a judge so far, in order, each with its answer. The log has no run-time data,
/// and its methods do nothing at run time; clauses read the list as `asks`.
#[derive(Drop)]
pub struct AskLog {
    pub ghost asks: { List (Ask × ℕ) },
}

impl Model for AskLog {
    ghost also_owns = { λ _. ftrue };
}

impl AskLog {
    ghost use Rattle.ap_model.specs.Noting.{noted};

    /// An empty log.
    pub fn new() -> AskLog
        ensures { result.asks ≡ [] }
    {
        AskLog {}
    }

    /// The log with one more entry at the end.
    pub(crate) fn then(&self, _asked: &Asked<'_>) -> AskLog
        ensures { result.asks ≡ noted self.now.asks _asked.now }
    {
        AskLog {}
    }

    /// Appends a query and its answer.
    pub fn note(&mut self, hook: Hook, frame: &Frame<'_>, context: &Context, answer: u64)
        ensures { self.new.asks ≡ self.old.asks ++
            (record { hook = hook; frame = frame.now; context = context.now }, answer) ∷ [] }
    {
        let asked = Asked {
            hook,
            frame: frame.bytes(),
            context: context.bytes(),
            answer,
        };
        *self = self.then(&asked);
    }
}
