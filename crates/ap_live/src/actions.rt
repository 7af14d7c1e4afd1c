//! What an operator decides at once.

ghost use Rattle.std.specs.Prelude.{◌≡◌, IsTrue, IfErr, IfOk};
ghost use Rattle.ap_live.specs.Headline.{OperatorHeadline};
ghost use Rattle.ap_live.specs.Serving.{Acted, is_command};

use crate::live::LiveAp;
use crate::tokens::OperatorToken;
use ap_books::Ledgers;
use ap_core::shard_of;
use ap_locked::Journals;
use ap_model::{Event, Out};
use std::alloc::{AllocError, Global};
use std::sync::Wait;

impl<B: Ledgers + Journals> LiveAp<B> {
    /// Decides a `Kick` or a `Close` at once, under its shard's lock, concurrently with that shard's
    /// worker. The main theorem holds of the returned outputs. A command that is refused for lack of
    /// memory leaves the token unchanged.
    pub fn act<R: Wait>(
        &self,
        rt: &R,
        alloc: Global,
        operator: &mut OperatorToken<B>,
        event: &Event,
    ) -> Result<Vec<Out>, AllocError>
        requires command { IsTrue (is_command event.now) }
        ensures acted { IfOk result
            (λ outs. Acted B.config operator.old event.now outs.items operator.new) }
        ensures headline { IfOk result
            (λ outs. OperatorHeadline B.config operator.old event.now outs.items operator.new) }
        ensures refused { IfErr result (λ _. operator.new ≡ operator.old) }
        ensures same { operator.new ≡ record operator.old { shards = operator.new.shards } }
    {
        let Some(shard) = shard_of(event) else {
            unreachable!()
        };
        let outs = self
            .shards
            .act(rt, alloc, &mut operator.shards, (shard as u16, event))?;
        Ok(outs)
    }
}
