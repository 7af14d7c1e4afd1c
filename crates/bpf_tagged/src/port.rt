//! What answers a program's queries.

ghost use Rattle.std.specs.Prelude.{◌≡◌, ◌<◌, ℕ, List, slice_get};
ghost use Rattle.bpf_regions.specs.declared.asks.Ask.{Ask};
ghost use Rattle.bpf_regions.specs.declared.asks.Ask.TheVariants.{Access, Help};
ghost use Rattle.bpf_regions.specs.declared.maps.Shape.{Shape};
ghost use Rattle.bpf_model.specs.Run.{InRange, words_in};

use bpf_regions::{Helper, MapOp};

/// Answers a program's queries. Each answer is in its range. `gives` says which answers a port may give to a query, and
/// what the port is afterwards.
pub trait Port {
    /// The shapes of the port's maps.
    ghost shapes: { Self → List Shape };

    /// A port may give this query this answer, and is then the second port.
    ghost gives: { Self → Ask → ℕ → Self → Type 0 };

    /// One access to one word of a map. A store returns 0, every other access a number that fits the word.
    fn access(&mut self, map: u32, word: u32, op: MapOp) -> u64
        requires there { word < words_in (slice_get (shapes self.old) map) }
        ensures gives { gives self.old (Access map word op) result self.new }
        ensures in_range { InRange (shapes self.old) (Access map word op) result }
        ensures shapes { shapes self.new ≡ shapes self.old };

    /// One query to a helper.
    fn helper(&mut self, helper: Helper) -> u64
        ensures gives { gives self.old (Help helper) result self.new }
        ensures in_range { InRange (shapes self.old) (Help helper) result }
        ensures shapes { shapes self.new ≡ shapes self.old };
}
