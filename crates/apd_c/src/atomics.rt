//! Read-modify-write operations on words of maps.

ghost use Rattle.bpf_regions.specs.declared.maps.MapOp.TheVariants.{Swap, Add, Or, And, Xor, CompareExchange};
ghost use Rattle.apd_c.specs.Held.{held};
ghost use Rattle.apd_c.specs.Words.{Operates};

use crate::handle::Handle;
use crate::words::{Loaded, access_at};
use bpf_regions::MapOp;

/// Stores a number, mod 2^(8 * width), in a word of a map.
///
/// 0: the value is the word's old one. 90: there is no such word. 91: the handle holds no maps. It allocates nothing.
#[unsafe(no_mangle)]
pub extern "C" fn apd_c_exchange(maps: &mut Handle, map: u32, word: u32, value: u64) -> Loaded
    ensures { Operates (held maps.old) map word (Swap value) result (held maps.new) }
{
    access_at(maps, map, word, MapOp::Swap(value))
}

/// Adds a number to a word of a map, mod 2^(8 * width).
///
/// 0: the value is the word's old one. 90: there is no such word. 91: the handle holds no maps. It allocates nothing.
#[unsafe(no_mangle)]
pub extern "C" fn apd_c_fetch_add(maps: &mut Handle, map: u32, word: u32, value: u64) -> Loaded
    ensures { Operates (held maps.old) map word (Add value) result (held maps.new) }
{
    access_at(maps, map, word, MapOp::Add(value))
}

/// Combines a word of a map with a number by OR.
///
/// 0: the value is the word's old one. 90: there is no such word. 91: the handle holds no maps. It allocates nothing.
#[unsafe(no_mangle)]
pub extern "C" fn apd_c_fetch_or(maps: &mut Handle, map: u32, word: u32, value: u64) -> Loaded
    ensures { Operates (held maps.old) map word (Or value) result (held maps.new) }
{
    access_at(maps, map, word, MapOp::Or(value))
}

/// Combines a word of a map with a number by AND.
///
/// 0: the value is the word's old one. 90: there is no such word. 91: the handle holds no maps. It allocates nothing.
#[unsafe(no_mangle)]
pub extern "C" fn apd_c_fetch_and(maps: &mut Handle, map: u32, word: u32, value: u64) -> Loaded
    ensures { Operates (held maps.old) map word (And value) result (held maps.new) }
{
    access_at(maps, map, word, MapOp::And(value))
}

/// Combines a word of a map with a number by XOR.
///
/// 0: the value is the word's old one. 90: there is no such word. 91: the handle holds no maps. It allocates nothing.
#[unsafe(no_mangle)]
pub extern "C" fn apd_c_fetch_xor(maps: &mut Handle, map: u32, word: u32, value: u64) -> Loaded
    ensures { Operates (held maps.old) map word (Xor value) result (held maps.new) }
{
    access_at(maps, map, word, MapOp::Xor(value))
}

/// Stores `new` in a word of a map if it holds `expected`, both mod 2^(8 * width).
///
/// 0: the value is the word's old one, which is `expected`, mod 2^(8 * width), exactly if `new` was stored. 90: there
/// is no such word. 91: the handle holds no maps. It allocates nothing.
#[unsafe(no_mangle)]
pub extern "C" fn apd_c_compare_exchange(
    maps: &mut Handle,
    map: u32,
    word: u32,
    expected: u64,
    new: u64,
) -> Loaded
    ensures { Operates (held maps.old) map word (CompareExchange expected new) result
        (held maps.new) }
{
    access_at(maps, map, word, MapOp::CompareExchange { expected, new })
}
