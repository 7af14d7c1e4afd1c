//! Slots of code (RFC 9669, section 3) with random fields.

use crate::numbers::Numbers;
use std::alloc::AllocError;

/// A slot's fields. Offset and immediate value are in two's complement.
#[derive(Clone, Copy)]
pub struct Slot {
    pub opcode: u8,
    pub destination: u8,
    pub source: u8,
    pub offset: u16,
    pub immediate: u32,
}

impl Slot {
    /// Its eight bytes.
    pub fn bytes(self) -> [u8; 8] {
        let [low, high] = self.offset.to_le_bytes();
        let [a, b, c, d] = self.immediate.to_le_bytes();
        let registers = ((self.source & 15) << 4) | (self.destination & 15);
        [self.opcode, registers, low, high, a, b, c, d]
    }

    /// Appends it to code.
    pub fn push_to(self, code: &mut Vec<u8>) -> Result<(), AllocError> {
        code.extend_from_slice(&self.bytes())
    }
}

/// A slot with an immediate value.
pub fn with_value(opcode: u8, destination: u8, immediate: u32) -> Slot {
    Slot {
        opcode,
        destination,
        source: 0,
        offset: 0,
        immediate,
    }
}

/// A slot with two registers and an offset.
pub fn with_registers(opcode: u8, destination: u8, source: u8, offset: u16) -> Slot {
    Slot {
        opcode,
        destination,
        source,
        offset,
        immediate: 0,
    }
}

/// EXIT.
pub const EXIT: Slot = Slot {
    opcode: 0x95,
    destination: 0,
    source: 0,
    offset: 0,
    immediate: 0,
};

/// Opcodes of each class.
pub const OPCODES: [u8; 104] = [
    // arithmetic of 64 bits: with a value, with a register
    0x07, 0x17, 0x27, 0x37, 0x47, 0x57, 0x67, 0x77, 0x87, 0x97, 0xa7, 0xb7, 0xc7, 0xd7, 0x0f, 0x1f,
    0x2f, 0x3f, 0x4f, 0x5f, 0x6f, 0x7f, 0x9f, 0xaf, 0xbf, 0xcf,
    // of 32 bits
    0x04, 0x14, 0x24, 0x34, 0x44, 0x54, 0x64, 0x74, 0x84, 0x94, 0xa4, 0xb4, 0xc4, 0xd4, 0x0c, 0x1c,
    0x2c, 0x3c, 0x4c, 0x5c, 0x6c, 0x7c, 0x9c, 0xac, 0xbc, 0xcc, 0xdc,
    // jumps: calls, exit, with a value and with a register, of 64 and of 32 bits
    0x05, 0x06, 0x85, 0x95, 0x15, 0x25, 0x35, 0x45, 0x55, 0x65, 0x75, 0xa5, 0xb5, 0xc5, 0xd5, 0x1d,
    0x2d, 0x3d, 0x4d, 0x5d, 0x6d, 0x7d, 0xad, 0xbd, 0xcd, 0xdd, 0x16, 0x26, 0x36, 0x56, 0x1e, 0x2e,
    // memory: loads, stores, atomic operations, wide values
    0x61, 0x69, 0x71, 0x79, 0x81, 0x89, 0x91, 0x62, 0x6a, 0x72, 0x7a, 0x63, 0x6b, 0x73, 0x7b, 0xc3,
    0xdb, 0x18, 0x79,
];

/// Boundary values.
const EDGES: [u32; 16] = [
    0xffff_ffff,
    0x7fff_ffff,
    0x8000_0000,
    0xff,
    0x100,
    0xffff,
    0x1_0000,
    2400,
    2399,
    2007,
    64,
    63,
    32,
    31,
    0xffff_fff0,
    0xffff_fe00,
];

/// An immediate value: small, a boundary value, a power of two, or any.
pub fn value(numbers: &mut Numbers) -> u32 {
    match numbers.below(8) {
        0..=3 => numbers.word() & 15,
        4 | 5 => numbers.one_of(&EDGES),
        6 => 1u32.rotate_left(numbers.word() & 31),
        _ => numbers.word(),
    }
}

/// An offset: mostly a few slots or bytes forward or back.
pub fn offset(numbers: &mut Numbers) -> u16 {
    match numbers.below(8) {
        0..=3 => numbers.half() & 15,
        4 | 5 => (numbers.half() & 31).wrapping_neg(),
        6 => (numbers.half() & 511).wrapping_neg(),
        _ => numbers.half(),
    }
}

/// A slot with one of the opcodes and random fields.
pub fn random_slot(numbers: &mut Numbers) -> Slot {
    let opcode = numbers.one_of(&OPCODES);
    let destination = (numbers.byte() & 15) % 11;
    let source = (numbers.byte() & 15) % 11;
    Slot {
        opcode,
        destination,
        source: if opcode & 8 == 0 { 0 } else { source },
        offset: if numbers.is_one_in(2) {
            0
        } else {
            offset(numbers)
        },
        immediate: if numbers.is_one_in(2) {
            0
        } else {
            value(numbers)
        },
    }
}
