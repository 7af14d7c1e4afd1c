//! What a worker reports.

use ap_queues::Item;
use ap_shards::Fate;

/// What became of an event, and the item that the worker took, whose memory so returns to the thread that
/// allocated it.
#[derive(Drop)]
pub struct Tagged {
    pub item: Item,
    pub fate: Fate,
}
