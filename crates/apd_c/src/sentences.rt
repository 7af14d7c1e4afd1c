//! What the numbers that calls return mean.

ghost use Rattle.apd_c.specs.Explained.{Explains, IsSentence};

use crate::certificates::copied;

/// What the numbers of malformed code mean.
fn of_code(number: u32) -> &'static str
    ensures { IsSentence number result.now }
{
    match number {
        1 => "the code is cut within a slot",
        2 => "there is no code",
        3 => "the code is too long",
        10 => "no such operation",
        11 => "no such register",
        12 => "a field that is not used is not zero",
        13 => "a field has a value that means nothing",
        14 => "a wide instruction is not whole",
        15 => "a jump leads astray",
        16 => "the code can be left at its end",
        17 => "r10 is written",
        18 => "no such helper",
        19 => "no such map, or no such byte in it",
        _ => "",
    }
}

/// What the numbers of the verifier mean.
fn of_verifier(number: u32) -> &'static str
    ensures { IsSentence number result.now }
{
    match number {
        30 => "something unset is read",
        31 => "the operation does not take such a value",
        32 => "an access may leave its region",
        33 => "the access has another width, or is not aligned",
        34 => "a lookup was not tested",
        35 => "calls go too deep",
        36 => "the verifier gives up",
        37 => "a pointer to the stack is stored elsewhere",
        38 => "the verdict is no number",
        40 => "memory ran out",
        _ => "",
    }
}

/// What the numbers of frames, events and seats mean.
fn of_event(number: u32) -> &'static str
    ensures { IsSentence number result.now }
{
    match number {
        50 => "the frame is too short",
        51 => "the frame has another version",
        52 => "the frame is of a kind that is not handled",
        53 => "a field of the frame has a value that is reserved or not handled",
        54 => "an element is cut",
        55 => "the frame has the wrong length",
        56 => "the frame is not for this access point",
        62 => "all are given out",
        63 => "the station is unknown",
        _ => "",
    }
}

/// What the numbers of certificates and of calls mean.
fn of_call(number: u32) -> &'static str
    ensures { IsSentence number result.now }
{
    match number {
        70 => "the certificate is malformed",
        71 => "the certificate is of another program",
        72 => "the certificate does not show that the program is safe",
        90 => "an argument is out of its limits",
        91 => "a handle holds nothing, or another value than the call asks for",
        92 => "the handle that is to be filled is not empty",
        93 => "the program is for maps of other shapes",
        94 => "a pointer is NULL, or one handle is passed twice",
        95 => "the program is for another hook",
        _ => "",
    }
}

/// What a number means, in a few words; empty if no call returns it.
fn sentence(number: u32) -> &'static str
    ensures { IsSentence number result.now }
{
    match number {
        0..=19 => of_code(number),
        20..=49 => of_verifier(number),
        50..=69 => of_event(number),
        _ => of_call(number),
    }
}

/// Copies as much as fits of what a number means, in a few words, and returns how many bytes that has; 0 if no call
/// returns the number. Only tests show that every other number has its text.
#[unsafe(no_mangle)]
pub extern "C" fn apd_c_explain(number: u32, into: &mut [u8]) -> usize
    ensures { Explains number result into.old into.new }
{
    let text = sentence(number).as_bytes();
    copied(text, into);
    text.len()
}
