//! Reads certificates. Entries are kept as values as long as these take little memory; the others are read on each use.
//! So a certificate takes a few times the memory of its bytes.

ghost use Rattle.std.specs.Prelude.{◌≡◌, ◌≤◌, IfOk, length};
ghost use Rattle.bpf_cert_format.specs.Answers.{Gives, Spells, Reads};
ghost use Rattle.bpf_cert_format.specs.Reading.{many, magic_at as reads_magic, hook_named as names_hook, hook_at as reads_hook, code_at as reads_code, entry_at as reads_entry, entries_at as reads_entries, all_of};
ghost use Rattle.bpf_cert_format.specs.Unread.{entry_from};
ghost use Rattle.bpf_cert_format.specs.Views.{CertificateView};

use crate::certificate::Certificate;
use crate::entry::Entry;
use crate::fault::ReadFault;
use crate::fields::{byte_at, bytes_at, u16_at, u32_at};
use crate::leaf::Leaf;
use crate::parts::entry_at;
use crate::unread::{Text, Unread};
use bpf_regions::{Hook, Shapes};
use std::alloc::{AllocError, Global};
use std::rc::Rc;

/// The first four bytes, 41 50 43 32, as a little-endian number.
const MAGIC: u32 = 843272257;

/// How many bytes of memory the values of entries may take.
const ROOM: usize = 1 << 23;

/// The first four bytes.
#[tactic(auto, unfolding(crate::specs::Reading::magic_at))]
fn magic_at(bytes: &[u8]) -> Result<(u32, &[u8]), ReadFault>
    ensures is { Gives (λ x. (x.0, x.1.now)) result (reads_magic bytes.now) }
{
    let (magic, rest) = u32_at(bytes)?;
    if magic != MAGIC {
        return Err(ReadFault::Malformed);
    }
    Ok((magic, rest))
}

/// The hook of that number.
fn hook_named(number: u8) -> Option<Hook>
    ensures is { result ≡ names_hook number }
{
    match number {
        1 => Some(Hook::Association),
        2 => Some(Hook::Addba),
        3 => Some(Hook::Data),
        _ => None,
    }
}

#[tactic(auto, unfolding(crate::specs::Reading::hook_at))]
fn hook_at(bytes: &[u8]) -> Result<(Hook, &[u8]), ReadFault>
    ensures is { Gives (λ x. (x.0, x.1.now)) result (reads_hook bytes.now) }
{
    let (number, rest) = byte_at(bytes)?;
    match hook_named(number) {
        None => Err(ReadFault::Malformed),
        Some(hook) => Ok((hook, rest)),
    }
}

#[tactic(auto, unfolding(crate::specs::Reading::code_at))]
fn code_at(bytes: &[u8]) -> Result<(&[u8], &[u8]), ReadFault>
    ensures is { Gives (λ x. (x.0.now, x.1.now)) result (reads_code bytes.now) }
{
    let (slots, rest) = u16_at(bytes)?;
    let (code, rest) = bytes_at(8 * slots as usize, rest)?;
    Ok((code, rest))
}

/// What is kept of an entry that was read at a position: its value, or the position.
fn leaf(text: &Rc<Text>, place: usize, entry: Entry, is_kept: bool) -> Result<Leaf, AllocError>
    requires there { entry ≡ entry_from (record { text = text.now.value; place = place }) }
    ensures is { IfOk result (λ leaf. leaf ≡ entry) }
{
    if is_kept {
        return Ok(Leaf::read(entry));
    }
    let unread = Unread::new(text, place)?;
    Ok(Leaf::unread(unread))
}

/// `count` entries. The first are kept as values.
fn leaf_list_at(
    alloc: Global,
    maps: usize,
    count: u32,
    bytes: &[u8],
) -> Result<(Vec<Leaf>, &[u8]), ReadFault>
    requires few_maps { maps ≤ 16 }
    ensures is { Gives (λ x. (x.0.items, x.1.now)) result
        (many (reads_entry maps) count bytes.now) }
{
    let text = Text::shared(alloc, maps, bytes)?;
    let mut list = Vec::new(alloc);
    let mut rest = bytes;
    let mut room = ROOM;
    for _ in 0..count {
        let place = bytes.len() - rest.len();
        match entry_at(alloc, maps, rest) {
            Err(fault) => return Err(fault),
            Ok((entry, after)) => {
                let weight = entry.weight();
                let one = leaf(&text, place, entry, weight <= room)?;
                list.push(one)?;
                room = room.saturating_sub(weight);
                rest = after;
            }
        }
    }
    Ok((list, rest))
}

#[tactic(auto, unfolding(crate::specs::Reading::entries_at))]
fn entries_at(alloc: Global, maps: usize, bytes: &[u8]) -> Result<(Vec<Leaf>, &[u8]), ReadFault>
    requires few_maps { maps ≤ 16 }
    ensures is { Gives (λ x. (x.0.items, x.1.now)) result (reads_entries maps bytes.now) }
{
    let (count, rest) = u32_at(bytes)?;
    leaf_list_at(alloc, maps, count, rest)
}

/// The certificate that the bytes spell as a whole, for that many maps.
#[tactic(auto, unfolding(crate::specs::Reading::all_of, crate::specs::Reading::certificate_at))]
fn all(alloc: Global, maps: usize, bytes: &[u8]) -> Result<Certificate, ReadFault>
    requires few_maps { maps ≤ 16 }
    ensures is { Gives (λ c. c) result (all_of maps bytes.now) }
{
    let (_magic, rest) = magic_at(bytes)?;
    let (hook, rest) = hook_at(rest)?;
    let (code, rest) = code_at(rest)?;
    match entries_at(alloc, maps, rest) {
        Err(fault) => Err(fault),
        Ok((entries, rest)) => {
            if !rest.is_empty() {
                return Err(ReadFault::Malformed);
            }
            let code = Vec::from_slice(alloc, code)?;
            Ok(Certificate::new(hook, code, entries))
        }
    }
}

/// Reads the certificate that all of the bytes spell, for maps of these shapes.
///
/// `Malformed`: they spell none. `Memory`: an allocation failed.
pub fn read(alloc: Global, shapes: &Shapes, bytes: &[u8]) -> Result<Certificate, ReadFault>
    // A certificate that is read has these bytes as its spelling.
    ensures found { IfOk result (Spells shapes.now bytes.now) }
    // A certificate with this spelling is read, or memory is lacking.
    ensures only { (c : CertificateView) → Spells shapes.now bytes.now c → Reads result c }
{
    shapes.whole();
    all(alloc, shapes.len(), bytes)
}
