//! Where a window passes frames up to.
ghost use Rattle.std.specs.Prelude.{◌≡◌, ℕ, ◌+◌, ◌-◌, ◌<◌, ◌≤◌, [], ◌∷◌, ◌++◌};

use arrayvec::ArrayVec;

/// Takes the frames that a window passes up (IEEE 802.11-2016, 10.24.7.6.1), in order, each with its
/// sequence number.
pub trait Sink<F> {
    /// How many more frames it has capacity for.
    ghost room: { Self → ℕ };

    /// A sink that receives this frame, of this sequence number, may become that sink.
    ghost receives: { Self → ℕ → F → Self → Type 0 };

    /// Takes the next frame.
    fn receive(&mut self, number: u16, frame: F)
        requires number { number < 4096 }
        requires capacity { 1 ≤ room self.old }
        ensures frame { receives self.old number frame self.new }
        ensures left { room self.old ≤ room self.new + 1 };
}

/// The list of the frames.
impl<F: Drop, A> Sink<F> for ArrayVec<(u16, F), 64, A> {
    ghost use Rattle.std.specs.Prelude.{◌≡◌, ◌-◌, [], ◌∷◌, ◌++◌};
    ghost use Rattle.arrayvec.specs.ArrayVec.{array_vec_len};

    ghost room = { λ v. 64 - array_vec_len v };

    ghost receives = { λ v n f w. w.items ≡ v.items ++ (n, f) ∷ [] };

    fn receive(&mut self, number: u16, frame: F) {
        self.push((number, frame));
    }
}
