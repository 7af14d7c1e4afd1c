//! What goes through a queue, and what a handle knows.

use ap_model::Event;
use std::collections::LinkedList;
use std::marker::Model;

/// An event for one shard (0 to 7) that it concerns, with its caller's number for it.
#[derive(Drop)]
pub struct Item {
    pub call: u64,
    pub shard: u16,
    pub event: Event,
}

impl Model for Item {
    ghost use Rattle.ap_queues.specs.Items as items;

    ghost Value = { items.Item };

    ghost view = { λ i. record { call = i.call; shard = i.shard; event = i.event } };

    ghost invariant = { λ i. items.IsTold i.event i.shard };
}

/// An item, with the number (0 to 7) of the operator that put it.
#[derive(Drop)]
pub struct Queued {
    pub operator: u8,
    pub item: Item,
}

/// What a handle may do (make operators, take, put), and what it has done. Only proofs have such
/// values.
pub struct View {
    pub makes: bool,
    pub made: u8,
    pub takes: bool,
    pub taken: LinkedList<Queued>,
    pub puts: bool,
    pub operator: u8,
    pub put: LinkedList<Item>,
}
