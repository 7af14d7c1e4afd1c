//! Bytes that hexadecimal digits spell, with letters for what frames often have.

use std::alloc::Global;
use std::process::Abort;

/// What a letter stands for: `P` for the address `020000000001` of the access point, `S` for the address `02000000000a`
/// of a station, `N` for the element of network `lab`, `R` for the element of four rates.
fn part(letter: u8) -> &'static [u8] {
    match letter {
        b'P' => &[2, 0, 0, 0, 0, 1],
        b'S' => &[2, 0, 0, 0, 0, 10],
        b'N' => &[0, 3, 0x6c, 0x61, 0x62],
        b'R' => &[1, 4, 0x82, 0x84, 0x8b, 0x96],
        _ => &[],
    }
}

/// Appends the bytes that hexadecimal digits and such letters spell. All else is for reading.
pub fn append(rt: &impl Abort, bytes: &mut Vec<u8>, digits: &str) {
    let mut high = None;
    for digit in digits.as_bytes() {
        bytes.extend_from_slice(part(*digit)).expect(rt, "memory");
        let Some(value) = char::from(*digit).to_digit(16) else {
            continue;
        };
        match high {
            None => high = Some(value),
            Some(first) => {
                let byte = u8::try_from((first << 4) | value).unwrap_or(0);
                bytes.push(byte).expect(rt, "memory");
                high = None;
            }
        }
    }
}

/// The bytes that such a text spells.
pub fn spelled(rt: &impl Abort, alloc: Global, digits: &str) -> Vec<u8> {
    let mut bytes = Vec::new(alloc);
    append(rt, &mut bytes, digits);
    bytes
}
