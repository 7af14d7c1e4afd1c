//! A command, under the lock of its shard.

ghost use Rattle.std.specs.Prelude.{◌≡◌, ◌<◌, IfOk, IfErr};
ghost use Rattle.ap_locked.specs.Tokens.{rules};
ghost use Rattle.ap_shards.specs.Fates.{Acts, ActsAt};

use crate::shards::Shards;
use crate::tokens::ShardTokens;
use ap_books::Ledgers;
use ap_locked::{Journals, Locked, ShardToken};
use ap_model::{Event, ListJudge, Out};
use std::alloc::{AllocError, Global};
use std::sync::{Mutex, Wait};

fn act_at<B: Ledgers + Journals, const SHARD: usize>(
    alloc: Global,
    locked: &mut Locked<B, SHARD>,
    mine: &mut ShardToken<B, SHARD>,
    event: &Event,
) -> Result<Vec<Out>, AllocError>
    ensures acted { IfOk result (λ outs. Acts (rules SHARD B.config)
        mine.old event.now outs.items mine.new) }
    ensures refused { IfErr result (λ _. mine.new ≡ mine.old) }
{
    let mut nobody = ListJudge::new(&[]);
    let (outs, _) = locked.decide(alloc, mine, event, &mut nobody)?;
    Ok(outs)
}

/// Locks the shard, and decides the command.
fn act_under<B: Ledgers + Journals, const SHARD: usize, R: Wait>(
    rt: &R,
    alloc: Global,
    lock: &Mutex<Locked<B, SHARD>>,
    mine: &mut ShardToken<B, SHARD>,
    event: &Event,
) -> Result<Vec<Out>, AllocError>
    ensures acted { IfOk result (λ outs. Acts (rules SHARD B.config)
        mine.old event.now outs.items mine.new) }
    ensures refused { IfErr result (λ _. mine.new ≡ mine.old) }
{
    let mut locked = lock.lock(rt);
    act_at(alloc, &mut *locked, mine, event)
}

impl<B: Ledgers + Journals> Shards<B> {
    /// Decides a command under the lock of this shard, concurrently with its worker. If it fails, for
    /// lack of memory, the tokens are unchanged.
    pub fn act<R: Wait>(
        &self,
        rt: &R,
        alloc: Global,
        mine: &mut ShardTokens<B>,
        at: (u16, &Event),
    ) -> Result<Vec<Out>, AllocError>
        requires { at.0 < 8 }
        ensures acted { IfOk result (λ outs. ActsAt B.config
            at.entry.0 mine.old at.entry.1.now outs.items mine.new) }
        ensures refused { IfErr result (λ _. mine.new ≡ mine.old) }
    {
        let (shard, event) = at;
        match shard {
            0 => act_under(rt, alloc, &self.of0, &mut mine.of0, event),
            1 => act_under(rt, alloc, &self.of1, &mut mine.of1, event),
            2 => act_under(rt, alloc, &self.of2, &mut mine.of2, event),
            3 => act_under(rt, alloc, &self.of3, &mut mine.of3, event),
            4 => act_under(rt, alloc, &self.of4, &mut mine.of4, event),
            5 => act_under(rt, alloc, &self.of5, &mut mine.of5, event),
            6 => act_under(rt, alloc, &self.of6, &mut mine.of6, event),
            7 => act_under(rt, alloc, &self.of7, &mut mine.of7, event),
            _ => unreachable!(),
        }
    }
}
