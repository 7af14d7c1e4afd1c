//! How an operator puts events.

ghost use Rattle.std.specs.Prelude.{◌≡◌, ◌<◌, ◌%◌, ◌-◌, length, IfErr, OnOk, OnErr};
ghost use Rattle.ap_queues.specs.Items.{IsTold};
ghost use Rattle.ap_queues.specs.Lines.{AreLinesOf, puts_of, WasFullAt};
ghost use Rattle.ap_queues.specs.Putting.{IsTick, first_shard, shard_count, served, with_item};
ghost use Rattle.ap_queues.specs.Refusing.{StopsAt};

use crate::Item;
use crate::lines::fault::Unserved;
use crate::lines::lines::EventLines;
use crate::lines::passes::OperatorLines;
use ap_core::shard_of;
use ap_model::Event;
use std::sync::Wait;

impl EventLines {
    /// Puts an item into the queue of its shard's worker, or returns it if that queue was full.
    fn put_one<R: Wait>(&self, rt: &R, operator: &mut OperatorLines, item: Item) -> Result<(), Item>
        requires own { AreLinesOf self.now operator.old }
        ensures own { AreLinesOf self.now operator.new }
        ensures put { OnOk result (puts_of operator.new ≡ with_item (puts_of operator.old) item) }
        ensures refused { OnErr result (puts_of operator.new ≡ puts_of operator.old) }
        ensures back { IfErr result (λ full. full ≡ item) }
        ensures full { OnErr result (WasFullAt (item.shard % length self.now) operator.new) }
    {
        let worker = usize::from(item.shard) % self.queues.len();
        let pass = &mut operator.passes[worker];
        match self.queues[worker].put(rt, pass, item) {
            Ok(()) => Ok(()),
            Err(full) => Err(full.item),
        }
    }

    /// Puts an event into the queue of its shard's worker; worker s modulo the number of workers serves
    /// shard s. A tick is put for each shard, by shard number. `call` is the caller's number for it.
    /// Fails with 61 only if a queue held 256 items at a moment of the call, and returns the event and
    /// that queue's shard, the first that did not get it.
    pub fn submit<R: Wait>(
        &self,
        rt: &R,
        operator: &mut OperatorLines,
        call: u64,
        event: Event,
    ) -> Result<(), Unserved>
        requires own { AreLinesOf self.now operator.old }
        ensures own { AreLinesOf self.now operator.new }
        ensures put { OnOk result (puts_of operator.new
            ≡ served (puts_of operator.old) call event (first_shard event) (shard_count event)) }
        ensures refused { IfErr result (StopsAt self.now operator.old operator.new call event
            (first_shard event) (shard_count event)) }
    {
        match shard_of(&event) {
            None => self.submit_at(rt, operator, call, event, 0),
            Some(shard) => self.submit_one(rt, operator, call, event, shard as u16),
        }
    }

    /// Continues a tick at this shard, as `submit`.
    pub fn submit_at<R: Wait>(
        &self,
        rt: &R,
        operator: &mut OperatorLines,
        call: u64,
        event: Event,
        shard: u16,
    ) -> Result<(), Unserved>
        requires own { AreLinesOf self.now operator.old }
        requires tick { IsTick event }
        requires below { shard < 8 }
        ensures own { AreLinesOf self.now operator.new }
        ensures put { OnOk result
            (puts_of operator.new ≡ served (puts_of operator.old) call event shard (8 - shard)) }
        ensures refused { IfErr result
            (StopsAt self.now operator.old operator.new call event shard (8 - shard)) }
    {
        let Event::Tick(units) = event else {
            unreachable!()
        };
        for next in shard..8 {
            let event = Event::Tick(units);
            let item = Item {
                call,
                shard: next,
                event,
            };
            if let Err(item) = self.put_one(rt, operator, item) {
                return Err(Unserved {
                    event: item.event,
                    shard: item.shard,
                });
            }
        }
        Ok(())
    }

    /// Puts an event for one shard that it concerns.
    fn submit_one<R: Wait>(
        &self,
        rt: &R,
        operator: &mut OperatorLines,
        call: u64,
        event: Event,
        shard: u16,
    ) -> Result<(), Unserved>
        requires own { AreLinesOf self.now operator.old }
        requires told { IsTold event shard }
        ensures own { AreLinesOf self.now operator.new }
        ensures put { OnOk result
            (puts_of operator.new ≡ served (puts_of operator.old) call event shard 1) }
        ensures refused { IfErr result
            (StopsAt self.now operator.old operator.new call event shard 1) }
    {
        let item = Item { call, shard, event };
        match self.put_one(rt, operator, item) {
            Ok(()) => Ok(()),
            Err(item) => Err(Unserved {
                event: item.event,
                shard: item.shard,
            }),
        }
    }
}
