//! The place of a configuration's fault, in words for people.

use crate::fault::ConfigFault;
use crate::keys::Key;
use std::alloc::{AllocError, Global};
use std::str;

/// Which table the lines of a configuration are in.
#[derive(Clone, Copy, PartialEq, Eq)]
enum Section {
    Top,
    /// The map with this number, counted from 0.
    Map(usize),
    Other,
}

/// What is sought: a key of a section, or the section's first line.
#[derive(Clone, Copy)]
struct Sought<'a> {
    section: Section,
    key: Option<&'a str>,
}

/// The fault of a text that isn't a configuration, in words, with its line if one is found. No contract promises
/// anything of the words.
pub fn fault_text(alloc: Global, text: &[u8], fault: &ConfigFault) -> Result<String, AllocError> {
    let more = advice(text, fault);
    match line_of(text, fault) {
        Some(line) => format!(in alloc; "line {line}: {fault}{more}"),
        None => format!(in alloc; "{fault}{more}"),
    }
}

/// The line of a fault, counted from 1; `None` if the fault's own text has it, or there is none.
fn line_of(text: &[u8], fault: &ConfigFault) -> Option<u64> {
    let Ok(text) = str::from_utf8(text) else {
        return line_of_encoding(text);
    };
    line_in(text, sought_by(fault)?)
}

/// The line of the first byte that isn't UTF-8.
fn line_of_encoding(text: &[u8]) -> Option<u64> {
    let error = str::from_utf8(text).err()?;
    let front = text.get(..error.valid_up_to())?;
    let feeds = front.iter().filter(|byte| **byte == b'\n').count() as u64;
    feeds.checked_add(1)
}

/// What to seek for a fault.
fn sought_by(fault: &ConfigFault) -> Option<Sought<'_>> {
    match fault {
        ConfigFault::UnknownKey(key) => Some(Sought {
            section: Section::Top,
            key: Some(key.as_str()),
        }),
        ConfigFault::Value(key) => Some(Sought {
            section: Section::Top,
            key: Some(key.as_str()),
        }),
        ConfigFault::UnknownMapKey { map, key } => Some(Sought {
            section: Section::Map(*map),
            key: Some(key.as_str()),
        }),
        ConfigFault::ValueInMap { map, key } => Some(Sought {
            section: Section::Map(*map),
            key: Some(key.as_str()),
        }),
        ConfigFault::MissingInMap { map, .. } => Some(Sought {
            section: Section::Map(*map),
            key: None,
        }),
        _ => None,
    }
}

/// The first line with what is sought.
fn line_in(text: &str, sought: Sought<'_>) -> Option<u64> {
    let mut section = Section::Top;
    let mut number: u64 = 0;
    for line in text.lines() {
        number = number.saturating_add(1);
        if let Some(header) = header_in(line) {
            section = section_after(section, header);
            if section == sought.section && sought.key.is_none() {
                return Some(number);
            }
            if sought.section == Section::Top && sought.key == Some(header) {
                return Some(number);
            }
        }
        if section == sought.section && has_key(line, sought.key) {
            return Some(number);
        }
    }
    None
}

/// The name of the table that a line begins.
fn header_in(line: &str) -> Option<&str> {
    let rest = line.trim().strip_prefix('[')?;
    let rest = rest.strip_prefix('[').unwrap_or(rest);
    let (name, _) = rest.split_once(']')?;
    Some(name.trim())
}

fn section_after(section: Section, header: &str) -> Section {
    if header != Key::Map.as_str() {
        return Section::Other;
    }
    match section {
        Section::Map(number) => Section::Map(number.saturating_add(1)),
        Section::Top | Section::Other => Section::Map(0),
    }
}

/// Whether a line gives a key its value.
fn has_key(line: &str, key: Option<&str>) -> bool {
    match line.split_once('=') {
        Some((name, _)) => key == Some(name.trim().trim_matches('"')),
        None => false,
    }
}

/// Advice on a value.
fn advice(text: &[u8], fault: &ConfigFault) -> &'static str {
    match fault {
        ConfigFault::Value(Key::Bssid) if has_colons(text) => ", without colons",
        _ => "",
    }
}

/// Whether the line of the address has colons.
fn has_colons(text: &[u8]) -> bool {
    let Ok(text) = str::from_utf8(text) else {
        return false;
    };
    for line in text.lines() {
        if has_key(line, Some(Key::Bssid.as_str())) {
            return line.contains(':');
        }
    }
    false
}
