//! Who gives verdicts.

ghost use Rattle.std.specs.Prelude.{◌≡◌, ℕ, List, [], ◌∷◌, ◌++◌, drop, slice_index};
ghost use Rattle.ap_model.specs.Asks.{Ask};

use crate::ask_log::AskLog;
use bpf_regions::{Context, Frame, Hook};

/// Gives the verdicts. An implementation names the relation that its answers satisfy, and lists its
/// queries: each query appends exactly itself and its answer, so a judge whose list is unchanged
/// was not queried.
pub trait Judge {
    /// The queries put to the judge so far, in order, with its answers.
    ghost asks: { Self → List (Ask × ℕ) };

    /// A judge may give this answer to this query, and become that judge.
    ghost gives: { Self → Ask → ℕ → Self → Type 0 };

    /// Answers one query.
    fn judge(&mut self, hook: Hook, frame: &Frame<'_>, context: &Context) -> u64
        ensures { gives self.old (record { hook = hook; frame = frame.now; context = context.now })
            result self.new };

    /// Each query is appended once.
    ghost lists: { (p p2 : Self) (q : Ask) (a : ℕ) → gives p q a p2 → asks p2 ≡ asks p ++ (q, a) ∷ [] };
}

/// Answers from a list, and with 0 after its end.
#[derive(Drop)]
pub struct ListJudge<'a> {
    pub answers: &'a [u64],
    pub asked: AskLog,
}

impl<'a> ListJudge<'a> {
    /// A judge that was not queried yet.
    pub fn new(answers: &'a [u64]) -> Self
        ensures answers { result.answers.now ≡ answers.now }
        ensures unasked { result.asked.asks ≡ [] }
    {
        ListJudge {
            answers,
            asked: AskLog::new(),
        }
    }

    /// Removes and returns the first answer, or returns 0 if none is left.
    fn next(&mut self) -> u64
        ensures answer { result ≡ slice_index self.old.answers.now 0 }
        ensures rest { self.new.answers.now ≡ drop 1 self.old.answers.now }
        ensures asked { self.new.asked ≡ self.old.asked }
    {
        let Some((first, rest)) = self.answers.split_first() else {
            return 0;
        };
        self.answers = rest;
        *first
    }
}

impl Judge for ListJudge<'_> {
    ghost use Rattle.std.specs.Prelude.{◌≡◌, ◌∷◌, [], ◌++◌, drop, slice_index};

    ghost asks = { λ p. p.asked.asks };

    ghost gives = { λ p q a p2. (a ≡ slice_index p.answers.now 0) × (p2.answers.now ≡ drop 1 p.answers.now) × (p2.asked.asks ≡ p.asked.asks ++ (q, a) ∷ []) };

    ghost lists = { λ p p2 q a h. h.2 };

    fn judge(&mut self, hook: Hook, frame: &Frame<'_>, context: &Context) -> u64 {
        let answer = self.next();
        self.asked.note(hook, frame, context, answer);
        answer
    }
}
