//! Tokens that meet, and what they uphold then.

ghost use Rattle.std.specs.Prelude.{◌≡◌};
ghost use Rattle.ap_shards.specs.Tokens.{HaveSeenAlike, KeepOwn};
ghost use Rattle.ap_live.specs.Counting.{counted_by};
ghost use Rattle.ap_live.specs.Upholding.{UpholdAll, own_counts};

use crate::tokens::{OperatorToken, WorkerToken};
use ap_books::Ledgers;
use ap_locked::Journals;

impl<B: Ledgers + Journals> WorkerToken<B> {
    /// Of each shard's journal both workers then have seen the same, which extends what each had seen.
    /// Each keeps its own entries, and upholds the link's laws of all that it has seen.
    pub fn meet(&mut self, other: &mut WorkerToken<B>)
        ensures this { KeepOwn self.old.shards self.new.shards }
        ensures that { KeepOwn other.old.shards other.new.shards }
        ensures seen { HaveSeenAlike self.new.shards other.new.shards }
        ensures upholds { UpholdAll B.config self.new.shards }
        ensures other_upholds { UpholdAll B.config other.new.shards }
        ensures counted { counted_by self.new.shards ≡ own_counts self.new.shards }
        ensures other_counted { counted_by other.new.shards ≡ own_counts other.new.shards }
        ensures same { self.new ≡ record self.old { shards = self.new.shards } }
        ensures same_other { other.new ≡ record other.old { shards = other.new.shards } }
    {
        self.shards.meet(&mut other.shards);
    }

    /// The same for a worker and an operator.
    pub fn meet_operator(&mut self, operator: &mut OperatorToken<B>)
        ensures this { KeepOwn self.old.shards self.new.shards }
        ensures that { KeepOwn operator.old.shards operator.new.shards }
        ensures seen { HaveSeenAlike self.new.shards operator.new.shards }
        ensures upholds { UpholdAll B.config self.new.shards }
        ensures operator_upholds { UpholdAll B.config operator.new.shards }
        ensures counted { counted_by self.new.shards ≡ own_counts self.new.shards }
        ensures operator_counted { counted_by operator.new.shards ≡ own_counts operator.new.shards }
        ensures same { self.new ≡ record self.old { shards = self.new.shards } }
        ensures same_operator { operator.new ≡ record operator.old { shards = operator.new.shards } }
    {
        self.shards.meet(&mut operator.shards);
    }
}
