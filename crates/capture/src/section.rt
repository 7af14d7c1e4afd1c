//! The sections of a pcapng file.

ghost use Rattle.std.specs.Prelude.{◌≡◌, ◌⊎◌, Ok, Err, IfOk, IfErr};
ghost use Rattle.capture.specs.Blocks.{framed_of};
ghost use Rattle.capture.specs.Sections.{opening, begun, is_section_version, after_block};
ghost use Rattle.capture.specs.Walking.{section_of, with_seen};

use crate::block::{Block, SECTION};
use crate::block_packets::{enhanced, simple};
use crate::fault::CaptureFault;
use crate::fields::{Endian, u16_at};
use crate::interface::{Interface, interface_in};
use crate::packet::Packet;
use std::alloc::Global;

/// What is known so far of a section: its byte order and its interfaces.
#[derive(Debug, Drop)]
pub(crate) struct Section {
    pub(crate) endian: Endian,
    interfaces: Vec<Interface>,
}

fn is_section_version(major: u16, minor: u16) -> bool
    ensures is { result ≡ is_section_version major minor }
{
    major == 1 && (minor == 0 || minor == 2)
}

impl Section {
    /// Before the first section.
    pub(crate) fn new(alloc: Global) -> Section
        ensures is { section_of result ≡ opening }
    {
        Section {
            endian: Endian::Little,
            interfaces: Vec::new(alloc),
        }
    }

    fn begin(&mut self, place: u64, block: Block<'_>) -> Result<(), CaptureFault>
        ensures ok { IfOk result
            (λ _. begun place (section_of self.old) (framed_of block.entry)
            ≡ Ok (section_of self.new)) }
        ensures fault { IfErr result
            (λ e. begun place (section_of self.old) (framed_of block.entry) ≡ Err e) }
    {
        if block.body.len() < 16 {
            return Err(CaptureFault::BadBlock(place));
        }
        let major = u16_at(block.endian, block.body, 4);
        let minor = u16_at(block.endian, block.body, 6);
        if !is_section_version(major, minor) {
            return Err(CaptureFault::Version { major, minor });
        }
        self.endian = block.endian;
        self.interfaces.clear();
        Ok(())
    }

    /// Processes a block at a position in the file, and returns its packet, if it has one.
    pub(crate) fn pass<'a>(
        &mut self,
        place: u64,
        block: Block<'a>,
    ) -> Result<Option<Packet<'a>>, CaptureFault>
        ensures ok { IfOk result (λ packet. after_block place (section_of self.old)
            (framed_of block.entry) ≡ Ok (with_seen self.new packet)) }
        ensures fault { IfErr result (λ e. (e ≡ CaptureFault.NoMemory)
            ⊎ (after_block place (section_of self.old) (framed_of block.entry) ≡ Err e)) }
    {
        match block.kind {
            SECTION => {
                self.begin(place, block)?;
                return Ok(None);
            }
            1 => {
                let interface = interface_in(place, block)?;
                self.interfaces.push(interface)?;
                return Ok(None);
            }
            3 => {
                let packet = simple(place, self.interfaces.as_slice(), block)?;
                return Ok(Some(packet));
            }
            6 => {
                let packet = enhanced(place, self.interfaces.as_slice(), block)?;
                return Ok(Some(packet));
            }
            _ => return Ok(None),
        }
    }
}
