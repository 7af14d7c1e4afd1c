//! The rule of a table of map words, and its steps.

ghost use Rattle.std.specs.Prelude.{ℕ};

use crate::seen::View;
use atomic_table::{Join, Play, Split, TableRule};
use bpf_regions::Shape;
use std::marker::{Brand, PhantomData};

pub struct Mapped;

impl TableRule<(), View, Shape> for Mapped {
    ghost use Rattle.shared_maps.specs.Kept.{Kept, numbering};

    ghost holds = { Kept };

    ghost first = { λ _. numbering 1 };
}

/// The operation and shape of an access. Each call chooses them.
pub trait Asking {
    ghost use Rattle.bpf_regions.specs.declared.maps.MapOp.{MapOp};
    ghost use Rattle.bpf_regions.specs.declared.maps.Shape.{Shape};

    ghost operation: { MapOp };

    ghost shape: { Shape };
}

impl Asking for Brand {
    ghost use Rattle.bpf_regions.specs.declared.maps.MapOp.TheVariants.{Load};
    ghost use Rattle.bpf_regions.specs.declared.maps.Scope.TheVariants.{Shared};
    ghost use Rattle.bpf_regions.specs.declared.maps.WordWidth.TheVariants.{Eight};

    ghost operation = { Load };

    ghost shape = { record { entries = 1; words = 1; width = Eight; scope = Shared } };
}

/// An access: one case for all operations.
pub struct Makes<J> {
    asking: PhantomData<J>,
}

impl<J: Asking> Play<(), View> for Makes<J> {
    ghost use Rattle.shared_maps.specs.Kept.{Made};

    ghost then = { Made J.shape J.operation };
}

/// A read of the history so far, which also extends what the seat was told.
pub struct Learns<J> {
    asking: PhantomData<J>,
}

impl<J: Asking> Play<(), View> for Learns<J> {
    ghost use Rattle.shared_maps.specs.Kept.{Learned};

    ghost then = { λ _ me _ after. Learned J.shape me after };
}

/// A read that changes nothing.
pub struct Confirms<J> {
    asking: PhantomData<J>,
}

impl<J: Asking> Play<(), View> for Confirms<J> {
    ghost use Rattle.shared_maps.specs.Kept.{Confirmed};

    ghost then = { λ _ me _ after. Confirmed J.shape me after };
}

/// A new seat.
pub struct Numbers;

impl Split<View> for Numbers {
    ghost use Rattle.shared_maps.specs.Kept.{numbered, seated};

    ghost left = { numbered };

    ghost right = { seated };
}

/// A note for another seat of what one has seen.
pub struct Tells;

impl Split<View> for Tells {
    ghost use Rattle.shared_maps.specs.Kept.{note};

    ghost left = { λ v. v };

    ghost right = { λ v. note v.seen };
}

/// A seat is told what another has seen.
pub struct Hears;

impl Join<View> for Hears {
    ghost use Rattle.std.specs.Prelude.{[]};
    ghost use Rattle.shared_maps.specs.Kept.{note, hearing};

    ghost both = { hearing };

    ghost spent = { note [] };
}

/// A seat takes over what another has seen, which extends what it has seen itself.
pub struct Follows;

impl Join<View> for Follows {
    ghost use Rattle.std.specs.Prelude.{[]};
    ghost use Rattle.shared_maps.specs.Kept.{note, following};

    ghost both = { following };

    ghost spent = { note [] };
}
