//! Words of a line.

ghost use Rattle.std.specs.Prelude.{◌≡◌, ◌≤◌, ◌++◌, OnOk, IfSome, Some, length};
ghost use Rattle.hex.specs.Hex.{encode_lower};
ghost use Rattle.mac_types.specs.Texts.{address_text};
ghost use Rattle.apd_driver.specs.Words.{tid_word, bytes_word, counter_words};

use ap_books::Totals;
use itoa::{Buffer, Integer};
use mac_types::Tid;
use std::alloc::AllocError;
use std::fmt;
use std::io::Write;

/// Appends a word.
pub(crate) fn append(text: &mut Vec<u8>, word: &str) -> Result<(), AllocError>
    ensures ok { OnOk result (text.new.items ≡ text.old.items ++ word.now) }
{
    text.extend_from_slice(word.as_bytes())
}

/// Appends what a value is shown as.
pub(crate) fn append_shown<D: fmt::Display + Drop>(
    text: &mut Vec<u8>,
    shown: D,
) -> Result<(), AllocError>
    ensures ok { OnOk result (IfSome (D.output shown)
        (λ words. text.new.items ≡ text.old.items ++ words)) }
{
    match text.write_fmt(shown) {
        Ok(()) => Ok(()),
        Err(_) => Err(AllocError),
    }
}

/// Appends a number in decimal digits, by a buffer on the stack.
pub(crate) fn append_number<I: Integer>(text: &mut Vec<u8>, number: I) -> Result<(), AllocError>
    ensures ok { OnOk result (text.new.items ≡ text.old.items ++ I.text number) }
{
    append(text, Buffer::new().format(number))
}

/// Appends a TID, or a dash.
pub(crate) fn append_tid(text: &mut Vec<u8>, tid: Option<Tid>) -> Result<(), AllocError>
    ensures ok { OnOk result (text.new.items ≡ text.old.items ++ tid_word tid) }
{
    match tid {
        None => append(text, "-"),
        Some(tid) => append_number(text, tid.number()),
    }
}

/// Appends at most 64 bytes as hex digits, by a buffer on the stack.
fn append_piece(text: &mut Vec<u8>, piece: &[u8]) -> Result<(), AllocError>
    requires short { length piece.now ≤ 64 }
    ensures ok { OnOk result (text.new.items ≡ text.old.items ++ encode_lower piece.now) }
{
    let mut buffer = [0u8; 128];
    let digits = &mut buffer[..2 * piece.len()];
    let Ok(()) = hex::encode_to_slice(piece, digits) else {
        unreachable!()
    };
    text.extend_from_slice(digits)
}

/// Appends bytes as hex digits, which is how an address is written, too. It allocates nothing but the text, since a run
/// prints three such words for each frame passed up.
pub(crate) fn append_digits(text: &mut Vec<u8>, bytes: &[u8]) -> Result<(), AllocError>
    ensures ok { OnOk result (text.new.items ≡ text.old.items ++ encode_lower bytes.now) }
    ensures octets { OnOk result (text.new.items ≡ text.old.items ++ address_text bytes.now) }
{
    let mut rest = bytes;
    while !rest.is_empty() {
        let (piece, later) = rest.split_at(rest.len().min(64));
        append_piece(text, piece)?;
        rest = later;
    }
    Ok(())
}

/// Appends bytes as hex digits, or a dash.
pub(crate) fn append_bytes(text: &mut Vec<u8>, bytes: &[u8]) -> Result<(), AllocError>
    ensures ok { OnOk result (text.new.items ≡ text.old.items ++ bytes_word bytes.now) }
{
    if bytes.is_empty() {
        return append(text, "-");
    }
    append_digits(text, bytes)
}

/// What was counted, in words.
#[derive(Clone, Copy)]
pub(crate) struct CounterWords(pub Totals);

impl fmt::Display for CounterWords {
    ghost output = { λ counters. Some (counter_words counters.0) };

    fn fmt<W: fmt::Write>(&self, f: &mut fmt::Formatter<W>) -> fmt::Result {
        let Totals {
            events,
            sent,
            up,
            dropped,
            notes,
        } = self.0;
        write!(
            f,
            "events {events} sent {sent} up {up} dropped {dropped} notes {notes}"
        )
    }
}
