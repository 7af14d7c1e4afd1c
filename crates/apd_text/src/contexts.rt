//! The context of a traced program: 32 bytes, from words and from the frame itself.
//!
//! Main call: `context_for`. It depends on `hex` and `bpf_regions`. Without words and the frame's fields, a context is
//! 0 except for the hook's number. Only tests show what words and frames spell.

ghost use Rattle.std.specs.Prelude.{◌≡◌, None, false, IsOk, IfOk, slice_index};
ghost use Rattle.bpf_regions.specs.Hooks.{number_of};
ghost use Rattle.apd_text.specs.Trace.{context_of};

use bpf_regions::{Context, Hook};
use hex::FromHex;
use std::fmt;

/// Why there is no context. It is displayed in words; no contract promises anything of them.
#[derive(Clone, Copy)]
pub enum ContextFault<'a> {
    /// A word isn't KEY=VALUE.
    NoPair(&'a str),
    /// The hook's context has no such key.
    UnknownKey {
        key: &'a str,
        hook: Hook,
    },
    NoAddress,
    /// The value of a key isn't a number from `first` to `last`.
    NoNumber {
        key: &'static str,
        first: u16,
        last: u16,
    },
    /// The hook doesn't judge such frames.
    OtherFrame(Hook),
}

/// A number in a context: its key, its index, whether it has two bytes, and its least and greatest value.
#[derive(Clone, Copy)]
struct Field {
    key: &'static str,
    place: usize,
    is_wide: bool,
    first: u16,
    last: u16,
}

static COMMON: [Field; 3] = [
    Field {
        key: "state",
        place: 7,
        is_wide: false,
        first: 1,
        last: 3,
    },
    Field {
        key: "aid",
        place: 8,
        is_wide: true,
        first: 0,
        last: 2007,
    },
    Field {
        key: "tid",
        place: 10,
        is_wide: false,
        first: 0,
        last: 7,
    },
];

static OF_ASSOCIATION: [Field; 3] = [
    Field {
        key: "capability",
        place: 12,
        is_wide: true,
        first: 0,
        last: 65535,
    },
    Field {
        key: "listen_interval",
        place: 14,
        is_wide: true,
        first: 0,
        last: 65535,
    },
    Field {
        key: "is_reassociation",
        place: 16,
        is_wide: true,
        first: 0,
        last: 1,
    },
];

static OF_ADDBA: [Field; 3] = [
    Field {
        key: "size",
        place: 12,
        is_wide: true,
        first: 0,
        last: 1023,
    },
    Field {
        key: "timeout",
        place: 14,
        is_wide: true,
        first: 0,
        last: 65535,
    },
    Field {
        key: "start",
        place: 16,
        is_wide: true,
        first: 0,
        last: 4095,
    },
];

static OF_DATA: [Field; 3] = [
    Field {
        key: "number",
        place: 12,
        is_wide: true,
        first: 0,
        last: 4095,
    },
    Field {
        key: "window_start",
        place: 14,
        is_wide: true,
        first: 0,
        last: 4095,
    },
    Field {
        key: "has_agreement",
        place: 16,
        is_wide: true,
        first: 0,
        last: 1,
    },
];

/// The TID of a frame that has none.
const NO_TID: u8 = 255;

/// The context of a hook for a frame: the values of the words, which are KEY=VALUE separated by commas; otherwise the
/// frame's own fields, if `from_frame` is set; otherwise 0. Its byte 6 is always the hook's number. Without words and
/// `from_frame` it succeeds.
pub fn context_for<'a>(
    hook: Hook,
    frame: &[u8],
    words: Option<&'a str>,
    from_frame: bool,
) -> Result<Context, ContextFault<'a>>
    ensures plain { words.entry ≡ None → from_frame ≡ false → IsOk result }
    ensures zeros { words.entry ≡ None → from_frame ≡ false
        → IfOk result (λ context. context ≡ context_of hook) }
    ensures hook { IfOk result (λ context. slice_index context 6 ≡ number_of hook) }
{
    if from_frame {
        return given(hook, Some(frame), words);
    }
    match words {
        None => Ok(zeros(hook)),
        Some(_) => given(hook, None, words),
    }
}

/// The context of words, and of a frame's own fields.
fn given<'a>(
    hook: Hook,
    frame: Option<&[u8]>,
    words: Option<&'a str>,
) -> Result<Context, ContextFault<'a>>
    ensures hook { IfOk result (λ context. slice_index context 6 ≡ number_of hook) }
{
    let mut bytes = [0; 32];
    if let Some(frame) = frame {
        if read_frame(hook, frame, &mut bytes).is_none() {
            return Err(ContextFault::OtherFrame(hook));
        }
    }
    if let Some(words) = words {
        read_words(hook, words, &mut bytes)?;
    }
    bytes[6] = hook.number();
    Ok(Context::new(bytes))
}

/// A context that is 0 except for the hook's number.
fn zeros(hook: Hook) -> Context
    ensures is { result ≡ context_of hook }
{
    let mut bytes = [0; 32];
    bytes[6] = hook.number();
    Context::new(bytes)
}

fn put(bytes: &mut [u8; 32], place: usize, byte: u8) {
    if let Some(old) = bytes.get_mut(place) {
        *old = byte;
    }
}

/// Writes a number of two bytes, the low one first.
fn put_word(bytes: &mut [u8; 32], place: usize, number: u16) {
    let [low, high] = number.to_le_bytes();
    put(bytes, place, low);
    put(bytes, place.saturating_add(1), high);
}

fn word_at(frame: &[u8], place: usize) -> Option<u16> {
    let low = *frame.get(place)?;
    let high = *frame.get(place.saturating_add(1))?;
    Some(u16::from_le_bytes([low, high]))
}

/// A frame's own fields that the hook's context has; `None` if the hook doesn't judge such frames.
fn read_frame(hook: Hook, frame: &[u8], bytes: &mut [u8; 32]) -> Option<()> {
    let kind = *frame.first()?;
    match (hook, kind) {
        (Hook::Association, 0x00 | 0x20) => read_association(frame, kind == 0x20, bytes)?,
        (Hook::Addba, 0xd0) => read_addba(frame, bytes)?,
        (Hook::Data, 0x08 | 0x88) => read_data(frame, kind == 0x88, bytes)?,
        _ => return None,
    }
    read_station(frame, bytes)
}

/// The sender's address.
fn read_station(frame: &[u8], bytes: &mut [u8; 32]) -> Option<()> {
    let station = frame.get(10..16)?;
    for (place, byte) in station.iter().enumerate() {
        put(bytes, place, *byte);
    }
    Some(())
}

fn read_association(frame: &[u8], is_reassociation: bool, bytes: &mut [u8; 32]) -> Option<()> {
    put_word(bytes, 12, word_at(frame, 24)?);
    put_word(bytes, 14, word_at(frame, 26)?);
    put_word(bytes, 16, u16::from(is_reassociation));
    put(bytes, 10, NO_TID);
    Some(())
}

/// The fields of an ADDBA request: its parameters have the TID in bits 2 to 5 and the size from bit 6 on, and its
/// starting sequence control has the fragment number in the low four bits.
fn read_addba(frame: &[u8], bytes: &mut [u8; 32]) -> Option<()> {
    let parameters = word_at(frame, 27)?;
    let [low, _] = parameters.to_le_bytes();
    if word_at(frame, 24)? != 3 {
        return None;
    }
    put(bytes, 10, (low >> 2) & 15);
    put_word(bytes, 12, parameters >> 6);
    put_word(bytes, 14, word_at(frame, 29)?);
    put_word(bytes, 16, word_at(frame, 31)? >> 4);
    Some(())
}

/// The fields of data, with QoS or without.
fn read_data(frame: &[u8], has_qos: bool, bytes: &mut [u8; 32]) -> Option<()> {
    let tid = if has_qos {
        *frame.get(24)? & 15
    } else {
        NO_TID
    };
    put(bytes, 10, tid);
    put_word(bytes, 12, word_at(frame, 22)? >> 4);
    Some(())
}

/// The values that words give to keys.
fn read_words<'a>(
    hook: Hook,
    words: &'a str,
    bytes: &mut [u8; 32],
) -> Result<(), ContextFault<'a>> {
    for word in words.split(',') {
        match word.split_once('=') {
            Some((key, value)) => read_pair(hook, key, value, bytes)?,
            None => return Err(ContextFault::NoPair(word)),
        }
    }
    Ok(())
}

fn read_pair<'a>(
    hook: Hook,
    key: &'a str,
    value: &'a str,
    bytes: &mut [u8; 32],
) -> Result<(), ContextFault<'a>> {
    if key == "station" {
        return match address_of(value) {
            Some(station) => {
                put_station(bytes, station);
                Ok(())
            }
            None => Err(ContextFault::NoAddress),
        };
    }
    let Some(field) = field_of(hook, key) else {
        return Err(ContextFault::UnknownKey { key, hook });
    };
    match number_in(field, value) {
        Some(number) => {
            put_number(bytes, field, number);
            Ok(())
        }
        None => Err(ContextFault::NoNumber {
            key: field.key,
            first: field.first,
            last: field.last,
        }),
    }
}

fn put_station(bytes: &mut [u8; 32], station: [u8; 6]) {
    for (place, byte) in station.iter().enumerate() {
        put(bytes, place, *byte);
    }
}

/// Writes a number to its field.
fn put_number(bytes: &mut [u8; 32], field: Field, number: u16) {
    let [low, _] = number.to_le_bytes();
    if field.is_wide {
        put_word(bytes, field.place, number);
    } else {
        put(bytes, field.place, low);
    }
}

fn number_in(field: Field, value: &str) -> Option<u16> {
    let number = value.parse::<u16>().ok()?;
    let is_none = field.key == "tid" && number == u16::from(NO_TID);
    if is_none || field.first <= number && number <= field.last {
        Some(number)
    } else {
        None
    }
}

/// Six octets, as 12 hex digits, or with colons.
fn address_of(text: &str) -> Option<[u8; 6]> {
    let mut digits = [0; 12];
    let mut count: usize = 0;
    for byte in text.bytes() {
        if byte != b':' {
            let digit = digits.get_mut(count)?;
            *digit = byte;
            count = count.saturating_add(1);
        }
    }
    if count != 12 || (text.len() != 12 && text.len() != 17) {
        return None;
    }
    <[u8; 6] as FromHex>::from_hex(digits.as_slice()).ok()
}

/// The numbers in the hook's context besides the common ones.
fn fields_of(hook: Hook) -> &'static [Field] {
    match hook {
        Hook::Association => &OF_ASSOCIATION,
        Hook::Addba => &OF_ADDBA,
        Hook::Data => &OF_DATA,
    }
}

fn field_of(hook: Hook, key: &str) -> Option<Field> {
    match field_in(&COMMON, key) {
        Some(field) => Some(field),
        None => field_in(fields_of(hook), key),
    }
}

fn field_in(fields: &[Field], key: &str) -> Option<Field> {
    for field in fields {
        if field.key == key {
            return Some(*field);
        }
    }
    None
}

/// The keys of a hook's context besides the common ones.
#[derive(Clone, Copy)]
struct Keys(Hook);

impl fmt::Display for Keys {
    fn fmt<W: fmt::Write>(&self, f: &mut fmt::Formatter<W>) -> fmt::Result {
        for field in fields_of(self.0) {
            write!(f, ", {}", field.key)?;
        }
        Ok(())
    }
}

/// What is said of a frame that the hook doesn't judge.
fn other_frame(hook: Hook) -> &'static str {
    match hook {
        Hook::Association => "the frame is no association request",
        Hook::Addba => "the frame is no request for an agreement (ADDBA)",
        Hook::Data => "the frame is no data",
    }
}

impl fmt::Display for ContextFault<'_> {
    fn fmt<W: fmt::Write>(&self, f: &mut fmt::Formatter<W>) -> fmt::Result {
        match *self {
            ContextFault::NoPair(word) => write!(f, "`{word}` is no KEY=VALUE"),
            ContextFault::UnknownKey { key, hook } => write!(
                f,
                "unknown key `{key}`; there are station, state, aid, tid{}",
                Keys(hook)
            ),
            ContextFault::NoAddress => f.write_str("`station` is an address as 02:00:00:00:00:0a"),
            ContextFault::NoNumber { key: "tid", .. } => {
                f.write_str("`tid` is 0 to 7, or 255 where there is none")
            }
            ContextFault::NoNumber { key, first, last } => {
                write!(f, "`{key}` is {first} to {last}")
            }
            ContextFault::OtherFrame(hook) => f.write_str(other_frame(hook)),
        }
    }
}
