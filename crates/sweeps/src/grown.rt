//! Programs grown at random from parts, most of which are accepted.

use crate::numbers::Numbers;
use crate::slots::{EXIT, Slot, offset, value, with_registers, with_value};
use std::alloc::{AllocError, Global};

/// Registers that hold numbers. R6 holds the start of the frame, R7 that of the context.
const PLAIN: [u8; 8] = [0, 1, 2, 3, 4, 5, 8, 9];

/// The least lengths of a frame that programs test for.
const LENGTHS: [u32; 8] = [0, 1, 14, 24, 26, 64, 100, 1500];

/// Operations: add, sub, mul, div, or, and, mod, xor, mov.
const OPERATIONS: [u8; 9] = [0x00, 0x10, 0x20, 0x30, 0x40, 0x50, 0x90, 0xa0, 0xb0];

/// Shifts: left, logical right, and arithmetic right.
const SHIFTS: [u8; 3] = [0x60, 0x70, 0xc0];

const CONDITIONS: [u8; 11] = [
    0x10, 0x20, 0x30, 0x40, 0x50, 0x60, 0x70, 0xa0, 0xb0, 0xc0, 0xd0,
];

/// Atomic operations: add, or, and, xor, each without and with fetch; exchange, compare and exchange.
const ATOMICS: [u32; 10] = [0x00, 0x40, 0x50, 0xa0, 0x01, 0x41, 0x51, 0xa1, 0xe1, 0xf1];

/// Loads of one, two, four and eight bytes, and sign-extending loads of one, two and four.
const LOADS: [u8; 7] = [0x71, 0x69, 0x61, 0x79, 0x91, 0x89, 0x81];

/// A register with a number.
fn plain(numbers: &mut Numbers) -> u8 {
    numbers.one_of(&PLAIN)
}

/// Sets R1 to R5 to numbers.
fn push_arguments(code: &mut Vec<u8>, numbers: &mut Numbers) -> Result<(), AllocError> {
    for register in 1..6u8 {
        with_value(0xb7, register, value(numbers)).push_to(code)?;
    }
    Ok(())
}

/// Sets four words of the stack to numbers.
fn push_stack(code: &mut Vec<u8>, numbers: &mut Numbers) -> Result<(), AllocError> {
    for place in 1..5u16 {
        Slot {
            opcode: 0x7a,
            destination: 10,
            source: 0,
            offset: (8 * place).wrapping_neg(),
            immediate: value(numbers),
        }
        .push_to(code)?;
    }
    Ok(())
}

fn push_all(code: &mut Vec<u8>, slots: &[Slot]) -> Result<(), AllocError> {
    for slot in slots {
        slot.push_to(code)?;
    }
    Ok(())
}

/// Keeps the start of the frame and that of the context, and exits if the frame is shorter than `length`.
fn push_test(code: &mut Vec<u8>, length: u32) -> Result<(), AllocError> {
    let slots = [
        with_registers(0xbf, 6, 1, 0),
        with_registers(0xbf, 7, 3, 0),
        with_registers(0xbf, 0, 1, 0),
        with_value(0x07, 0, length),
        with_registers(0xbd, 0, 2, 2),
        with_value(0xb7, 0, 7),
        EXIT,
    ];
    push_all(code, &slots)
}

/// The start: a test of the frame's length, and a number for each register.
fn push_start(code: &mut Vec<u8>, numbers: &mut Numbers, length: u32) -> Result<(), AllocError> {
    push_test(code, length)?;
    for register in [0u8, 8, 9] {
        with_value(0xb7, register, value(numbers)).push_to(code)?;
    }
    push_arguments(code, numbers)?;
    push_stack(code, numbers)
}

/// 4 for 32 bits or 7 for 64.
fn width(numbers: &mut Numbers) -> u8 {
    if numbers.is_one_in(2) { 4 } else { 7 }
}

/// An operation on numbers.
fn operation(numbers: &mut Numbers) -> Slot {
    let operation = numbers.one_of(&OPERATIONS);
    let class = width(numbers);
    let divides = operation == 0x30 || operation == 0x90;
    let signed = if divides && numbers.is_one_in(2) {
        1
    } else {
        0
    };
    if numbers.is_one_in(2) {
        let code = operation | class | 8;
        return with_registers(code, plain(numbers), plain(numbers), signed);
    }
    let divisor = if divides { 1 } else { 0 };
    Slot {
        opcode: operation | class,
        destination: plain(numbers),
        source: 0,
        offset: signed,
        immediate: value(numbers) | divisor,
    }
}

/// A shift, by a number below 32 or by a register.
fn shift(numbers: &mut Numbers) -> Slot {
    let code = numbers.one_of(&SHIFTS) | width(numbers);
    if numbers.is_one_in(2) {
        return with_registers(code | 8, plain(numbers), plain(numbers), 0);
    }
    with_value(code, plain(numbers), numbers.word() & 31)
}

/// A byte order, a sign extension, or a negation.
fn turn(numbers: &mut Numbers) -> Slot {
    let register = plain(numbers);
    match numbers.below(4) {
        0 => {
            let order = numbers.one_of(&[0xd4u8, 0xdc, 0xd7]);
            with_value(order, register, numbers.one_of(&[16u32, 32, 64]))
        }
        1 => with_registers(
            0xbf,
            register,
            plain(numbers),
            numbers.one_of(&[8u16, 16, 32]),
        ),
        2 => with_registers(0xbc, register, plain(numbers), numbers.one_of(&[8u16, 16])),
        _ => with_value(0x80 | width(numbers), register, 0),
    }
}

/// A load from the frame, the context or the stack.
fn load(numbers: &mut Numbers, length: u32) -> Slot {
    let code = numbers.one_of(&LOADS);
    let register = plain(numbers);
    match numbers.below(4) {
        0 => with_registers(code, register, 7, numbers.half() & 31),
        1 => with_registers(0x79, register, 10, stacked(numbers)),
        _ => {
            let place = numbers.below(u64::from(length) + 1) & 0xfff;
            with_registers(code, register, 6, place as u16)
        }
    }
}

/// The offset of one of the four words of the stack.
fn stacked(numbers: &mut Numbers) -> u16 {
    numbers.one_of(&[0xfff8u16, 0xfff0, 0xffe8, 0xffe0])
}

/// A store to the stack, or an atomic operation there.
fn store(numbers: &mut Numbers) -> Slot {
    let offset = stacked(numbers);
    if numbers.is_one_in(2) {
        return with_registers(0x7b, 10, plain(numbers), offset);
    }
    Slot {
        opcode: numbers.one_of(&[0xdbu8, 0xdb, 0xc3]),
        destination: 10,
        source: plain(numbers),
        offset,
        immediate: numbers.one_of(&ATOMICS),
    }
}

/// A branch over at most three slots.
fn branch(numbers: &mut Numbers) -> Slot {
    let class = if numbers.is_one_in(4) { 6 } else { 5 };
    let code = numbers.one_of(&CONDITIONS) | class;
    let over = numbers.half() & 3;
    if numbers.is_one_in(2) {
        return with_registers(code | 8, plain(numbers), plain(numbers), over);
    }
    Slot {
        opcode: code,
        destination: plain(numbers),
        source: 0,
        offset: over,
        immediate: value(numbers),
    }
}

/// A helper call, and numbers for the registers that it leaves unset.
fn push_call(code: &mut Vec<u8>, numbers: &mut Numbers) -> Result<(), AllocError> {
    let helper = 2 + (numbers.word() & 3);
    with_value(0x85, 0, helper).push_to(code)?;
    push_arguments(code, numbers)
}

/// A byte of the frame after a part of variable length.
fn push_window(code: &mut Vec<u8>, numbers: &mut Numbers) -> Result<(), AllocError> {
    let mask = numbers.one_of(&[3u32, 7, 15, 31, 63]);
    with_value(0x57, 8, mask).push_to(code)?;
    with_registers(0xbf, 9, 6, 0).push_to(code)?;
    with_registers(0x0f, 9, 8, 0).push_to(code)?;
    if numbers.is_one_in(2) {
        with_registers(0x71, 0, 9, numbers.half() & 7).push_to(code)?;
    }
    with_registers(0xbf, 9, 0, 0).push_to(code)
}

/// A loop of at most 8 iterations around an operation.
fn push_loop(code: &mut Vec<u8>, numbers: &mut Numbers) -> Result<(), AllocError> {
    let slots = [
        with_value(0xb7, 8, 1 + (numbers.word() & 7)),
        operation(numbers),
        with_value(0x17, 8, 1),
        with_registers(0x55, 8, 0, 0xfffd),
    ];
    push_all(code, &slots)
}

/// A store to the word to which R0 points, or an atomic addition there.
fn at_entry(numbers: &mut Numbers, place: u16) -> Slot {
    with_registers(numbers.one_of(&[0xdbu8, 0x7b]), 0, 9, place)
}

/// A word of an entry of map 0 is written and read, if there is an entry.
fn push_entry(code: &mut Vec<u8>, numbers: &mut Numbers) -> Result<(), AllocError> {
    let place = numbers.one_of(&[0u16, 8, 8, 12]);
    let slots = [
        with_registers(0x18, 1, 5, 0),
        with_value(0, 0, 0),
        with_registers(0xbf, 2, plain(numbers), 0),
        with_value(0x85, 0, 1),
        with_registers(0x55, 0, 0, 1),
        EXIT,
        at_entry(numbers, place),
        with_registers(0x79, 0, 0, place),
    ];
    push_all(code, &slots)?;
    push_arguments(code, numbers)
}

fn push_part(code: &mut Vec<u8>, numbers: &mut Numbers, length: u32) -> Result<(), AllocError> {
    match numbers.below(32) {
        0..=11 => operation(numbers).push_to(code),
        12 | 13 => shift(numbers).push_to(code),
        14 | 15 => turn(numbers).push_to(code),
        16..=18 => load(numbers, length).push_to(code),
        19 | 20 => store(numbers).push_to(code),
        21..=26 => branch(numbers).push_to(code),
        27 => push_call(code, numbers),
        28 | 29 => push_window(code, numbers),
        30 => push_loop(code, numbers),
        _ => push_entry(code, numbers),
    }
}

/// A program: a start, some parts, and room for the last part's jumps.
pub fn grown(alloc: Global, numbers: &mut Numbers) -> Result<Vec<u8>, AllocError> {
    let mut code = Vec::new(alloc);
    let length = numbers.one_of(&LENGTHS);
    push_start(&mut code, numbers, length)?;
    for _ in 0..numbers.below(24) {
        push_part(&mut code, numbers, length)?;
    }
    for _ in 0..4 {
        operation(numbers).push_to(&mut code)?;
    }
    EXIT.push_to(&mut code)?;
    Ok(code)
}
