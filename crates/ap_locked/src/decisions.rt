//! One event, under the lock of its shard.

ghost use Rattle.std.specs.Prelude.{◌≡◌, IfOk, IfErr};
ghost use Rattle.ap_core.specs.Handles.{rules};
ghost use Rattle.ap_locked.specs.Kept.{Decided, Holds};

use crate::entry::{Deed, Signing};
use crate::locked::Locked;
use crate::names::Journals;
use crate::token::ShardToken;
use ap_books::Ledgers;
use ap_core::Outcome;
use ap_model::{Event, Judge, Out};
use std::alloc::{AllocError, Global};
use std::snapshot::Snapshot;

impl<B: Ledgers + Journals, const SHARD: usize> Locked<B, SHARD> {
    /// Decides an event. Its entry, with the returned outputs, is appended to the journal and to the
    /// token's page, and counted in the books and in the token's shares. The flag says whether a data
    /// verdict dropped. The token has then seen the whole journal. An event that is refused for lack of memory changes nothing,
    /// asks for no verdict and has no entry; so does one if the journal is full, at about 2^61 entries,
    /// which no run reaches.
    pub fn decide<J: Judge>(
        &mut self,
        alloc: Global,
        mine: &mut ShardToken<B, SHARD>,
        event: &Event,
        judge: &mut J,
    ) -> Result<(Vec<Out>, bool), AllocError>
        ensures entry { IfOk result
            (λ r. Decided J.gives self.old mine.old event.now judge.old r.0.items r.1 self.new
            mine.new judge.new) }
        ensures holds { IfOk result (λ _. Holds (rules SHARD B.config) self.old) }
        ensures refused { IfErr result
            (λ _. (self.new ≡ self.old) × (mine.new ≡ mine.old) × (judge.new ≡ judge.old)) }
    {
        if !self.author.prepare(&self.journal) {
            return Err(AllocError);
        }
        mine.pages.look(&mut self.author, &self.journal);
        let before = Snapshot::of(&*judge);
        let outcome = self.shard.handle_with_drop(alloc, event, judge)?;
        let Outcome { outs, dropped } = outcome;
        let deed = Deed {
            event,
            outs: outs.as_slice(),
            before: &before,
            judge: &*judge,
        };
        let signing = Signing {
            pages: &mine.pages,
            deed: &deed,
        };
        self.author.add(&mut self.journal, &signing);
        mine.own.add(&deed);
        mine.pages.write(&mut self.page_books, &self.journal, &deed);
        self.books.count(&mut mine.shares, outs.as_slice(), dropped);
        Ok((outs, dropped))
    }
}
