//! Numbers determined by a seed.

ghost use Rattle.std.specs.Prelude.{◌<◌, length};

/// A sequence of numbers that a seed determines (splitmix64).
#[derive(Drop)]
pub struct Numbers {
    state: u64,
}

impl Numbers {
    /// The sequence of a seed.
    pub fn new(seed: u64) -> Numbers {
        Numbers { state: seed }
    }

    /// The next number.
    pub fn next(&mut self) -> u64 {
        self.state = self.state.wrapping_add(0x9e37_79b9_7f4a_7c15);
        let once = (self.state ^ (self.state >> 30)).wrapping_mul(0xbf58_476d_1ce4_e5b9);
        let twice = (once ^ (once >> 27)).wrapping_mul(0x94d0_49bb_1331_11eb);
        twice ^ (twice >> 31)
    }

    /// A number below `limit`.
    pub fn below(&mut self, limit: u64) -> u64
        requires { 0 < limit }
        ensures { result < limit }
    {
        self.next() % limit
    }

    /// Whether an event that is to happen once in `times` times happens.
    pub fn is_one_in(&mut self, times: u64) -> bool
        requires { 0 < times }
    {
        self.below(times) == 0
    }

    /// An index into a list of this length.
    pub fn place_in(&mut self, length: usize) -> usize
        requires { 0 < length }
        ensures { result < length }
    {
        let place = self.below(length as u64);
        place as usize
    }

    /// An item of a list.
    pub fn one_of<T: Copy>(&mut self, items: &[T]) -> T
        requires { 0 < length items.now }
    {
        let place = self.place_in(items.len());
        items[place]
    }

    pub fn byte(&mut self) -> u8 {
        (self.next() & 0xff) as u8
    }

    /// A number of 16 bits.
    pub fn half(&mut self) -> u16 {
        (self.next() & 0xffff) as u16
    }

    /// A number of 32 bits.
    pub fn word(&mut self) -> u32 {
        (self.next() & 0xffff_ffff) as u32
    }
}
