//! A slot's fields and its eight bytes (RFC 9669 section 3.1).

ghost use Rattle.std.specs.Prelude.{◌≡◌, ◌<◌, length};
ghost use Rattle.bpf_insn.specs.Slot.{slot_of, fields_at, FitsSlot};

use byteorder::{ByteOrder, LittleEndian};

/// The fields of an eight-byte slot: opcode, destination and source registers, signed 16-bit offset, signed 32-bit
/// immediate.
#[derive(Clone, Copy, Debug)]
pub struct Fields {
    pub opcode: u8,
    pub dst: u8,
    pub src: u8,
    pub offset: i16,
    pub imm: i32,
}

pub(crate) fn fields_in(slot: &[u8]) -> Fields
    requires eight { length slot.now ≡ 8 }
    ensures exact { result ≡ fields_at slot.now }
    ensures spelled { slot.now ≡ slot_of result }
    ensures fits { FitsSlot result }
{
    Fields {
        opcode: slot[0],
        dst: slot[1] % 16,
        src: slot[1] / 16,
        offset: LittleEndian::read_i16(&[slot[2], slot[3]]),
        imm: LittleEndian::read_i32(&[slot[4], slot[5], slot[6], slot[7]]),
    }
}

pub(crate) fn slot_with(fields: Fields) -> [u8; 8]
    requires fits { FitsSlot fields }
    ensures is { result ≡ slot_of fields }
{
    let mut offset = [0; 2];
    LittleEndian::write_i16(&mut offset, fields.offset);
    let mut imm = [0; 4];
    LittleEndian::write_i32(&mut imm, fields.imm);
    [
        fields.opcode,
        fields.dst + 16 * fields.src,
        offset[0],
        offset[1],
        imm[0],
        imm[1],
        imm[2],
        imm[3],
    ]
}
