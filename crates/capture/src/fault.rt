//! Why a file isn't a capture, and why a packet isn't a frame.

ghost use Rattle.std.specs.Prelude.{◌≡◌};
ghost use Rattle.capture.specs.declared.fault.CaptureFault.TheVariants.{NoMemory};

use std::alloc::{AllocError, AllocFailed};
use thiserror::Error;

/// Why a file isn't a capture.
#[derive(Clone, Copy, Debug, PartialEq, Eq, Error)]
pub enum CaptureFault {
    /// The first four bytes aren't a capture file's magic number.
    #[error("not a capture file")]
    NoCapture,
    #[error("the header is cut")]
    CutHeader,
    /// Not version 2.4, the only one of pcap in use, or, in pcapng, neither 1.0 nor 1.2.
    #[error("unknown version {major}.{minor}")]
    Version { major: u16, minor: u16 },
    /// In pcap neither 105, IEEE 802.11, nor 127, IEEE 802.11 after a radiotap header.
    #[error("link type {0} is neither 105 (802.11) nor 127 (802.11 with radiotap)")]
    LinkType(u32),
    /// The record after this many whole records is cut.
    #[error("the file is cut after {0} records")]
    CutRecord(u64),
    /// A second has more units of time than 64 bits can count (pcapng 4.2, `if_tsresol`).
    #[error("unknown time resolution {0}")]
    Resolution(u8),
    /// The file ends within the block that begins at this byte.
    #[error("the file is cut in the block at byte {0}")]
    CutBlock(u64),
    /// The block that begins at this byte has lengths that don't fit, or names an interface that its section hasn't
    /// described.
    #[error("the block at byte {0} is damaged")]
    BadBlock(u64),
    #[error("out of memory")]
    NoMemory,
}

impl<T: Drop> From<AllocFailed<T>> for CaptureFault {
    ghost from_gives = { λ _ fault. fault ≡ NoMemory };

    fn from(_error: AllocFailed<T>) -> CaptureFault {
        CaptureFault::NoMemory
    }
}

impl From<AllocError> for CaptureFault {
    ghost from_gives = { λ _ fault. fault ≡ NoMemory };

    fn from(_error: AllocError) -> CaptureFault {
        CaptureFault::NoMemory
    }
}

/// Why a packet is left out.
#[derive(Clone, Copy, Debug, PartialEq, Eq, Error)]
pub enum LeftOut {
    /// The frame had more bytes than were captured.
    #[error("the frame was cut when it was captured")]
    Cut,
    /// The radiotap header is damaged, or of a version other than 0.
    #[error("the radiotap header is damaged")]
    Radiotap,
    /// There are fewer bytes than a frame check sequence takes.
    #[error("the frame check sequence is cut")]
    CheckSequence,
    /// The radiotap header says that the frame check sequence is wrong: the frame was received damaged.
    #[error("the frame check sequence is wrong")]
    WrongCheckSequence,
    /// It comes from an interface of another link type than 105 and 127.
    #[error("link type {0} is neither 105 (802.11) nor 127 (802.11 with radiotap)")]
    LinkType(u32),
}
