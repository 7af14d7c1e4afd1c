//! The packets of a capture file, one after another, without a list of them.

ghost use Rattle.std.specs.Prelude.{◌≡◌, ◌⊎◌, [], IfOk, IfErr, OnErr};
ghost use Rattle.std.specs.Option.{option_map};
ghost use Rattle.capture.specs.Packets.{seen_of};
ghost use Rattle.capture.specs.Captures.{has_sections, Refuses};
ghost use Rattle.capture.specs.Walks.{packets_as, packets_in, records_of, IsNext};
ghost use Rattle.capture.specs.Counting.{ArePackets};

use crate::block_walk::{BlockWalk, count_in_blocks};
use crate::fault::CaptureFault;
use crate::form::read_form;
use crate::packet::Packet;
use crate::record_walk::{RecordWalk, count_records};
use std::alloc::{AllocError, Global};
use std::marker::Model;

/// What is still to come of a file.
#[derive(Debug, Drop)]
pub(crate) enum Way<'a> {
    /// Nothing, since it isn't a capture.
    Nothing,
    Records(RecordWalk<'a>),
    Blocks(BlockWalk<'a>),
}

/// The packets of a capture file that are still to come. Contracts see it as the list of them.
#[derive(Debug, Drop)]
pub struct Walk<'a> {
    way: Way<'a>,
}

impl<'a> Model for Walk<'a> {
    ghost use Rattle.std.specs.Prelude.{List};
    ghost use Rattle.capture.specs.Packets.{Seen};
    ghost use Rattle.capture.specs.Ways.{left_of, IsWay};

    ghost Value = { List Seen };

    ghost view = { λ w. left_of w.way };

    ghost invariant = { λ w. IsWay w.way };
}

impl<'a> Walk<'a> {
    /// All packets of a file, up to its end or its first fault.
    pub fn new(alloc: Global, file: &'a [u8]) -> Walk<'a>
        ensures packets { result ≡ packets_in file.entry.now }
    {
        if has_sections(file) {
            let blocks = BlockWalk::new(alloc, file);
            return Walk {
                way: Way::Blocks(blocks),
            };
        }
        match read_form(file) {
            Ok(form) => Walk {
                way: Way::Records(RecordWalk::new(form, file)),
            },
            Err(_) => Walk { way: Way::Nothing },
        }
    }

    /// The next packet, if there is one. An error is lack of memory, and ends the walk.
    pub fn next(&mut self) -> Result<Option<Packet<'a>>, AllocError>
        ensures next { IfOk result
            (λ next. IsNext self.old (option_map seen_of next) self.new) }
        ensures over { OnErr result (self.new ≡ []) }
    {
        match &mut self.way {
            Way::Nothing => return Ok(None),
            Way::Records(records) => {
                let packet = records.next();
                return Ok(packet);
            }
            Way::Blocks(blocks) => {
                let packet = blocks.next();
                return packet;
            }
        }
    }
}

/// Whether a file has sections.
pub(crate) fn has_sections(file: &[u8]) -> bool
    ensures is { result ≡ has_sections file.now }
{
    match file {
        [0x0a, 0x0d, 0x0d, 0x0a, ..] => true,
        _ => false,
    }
}

/// How many packets a capture file has. An error is `NoMemory`, or the file's first fault: in its header, a record or a
/// block.
pub fn count_packets(alloc: Global, file: &[u8]) -> Result<usize, CaptureFault>
    ensures packets { IfOk result (ArePackets file.now) }
    ensures fault { IfErr result (Refuses file.now) }
{
    if has_sections(file) {
        return count_in_blocks(alloc, file);
    }
    count_records(file)
}
