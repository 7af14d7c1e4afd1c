//! The ledgers of an access point.

ghost use Rattle.std.specs.Prelude.{ℕ};

use std::marker::{Brand, PhantomData};
use std::sync::ledger::Ledger;

/// The ledgers of an access point: the name of each, by shard and count, and into how many parts
/// each is divided. Each access point has its own type for them.
pub trait Ledgers {
    ghost name_of: { ℕ → ℕ → ℕ };

    ghost shares: { ℕ };
}

impl Ledgers for Brand {
    ghost name_of = { λ shard count. 0 };

    ghost shares = { 0 };
}

/// The ledger of one count of one shard.
pub struct CountLedger<B: Ledgers, const SHARD: usize, const COUNT: usize> {
    marker: PhantomData<B>,
}

impl<B: Ledgers, const SHARD: usize, const COUNT: usize> Ledger for CountLedger<B, SHARD, COUNT> {
    ghost name = { B.name_of SHARD COUNT };

    ghost parts = { B.shares };
}
