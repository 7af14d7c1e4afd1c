//! Why bytes aren't a frame.

ghost use Rattle.std.specs.Prelude.{◌≡◌, Some};
ghost use Rattle.mac_frame.specs.Faults.{number_of_fault};
ghost use Rattle.mac_frame.specs.declared.fault.FrameFault.TheVariants.{Memory};

use std::alloc::AllocError;
use std::error::Error;
use std::fmt;

/// What is wrong with the bytes: the first fault.
#[derive(Clone, Copy, Debug, PartialEq, Eq)]
pub enum Fault {
    /// 50: the bytes end within the header.
    TooShort,
    /// 51: the protocol version is not 0.
    WrongVersion,
    /// 52: the link has no such type, subtype, category or action.
    Unsupported,
    /// 53: a field holds a reserved value.
    ReservedUse,
    /// 54: an element extends past the frame.
    ElementCut,
    /// 55: the body is longer or shorter than its kind allows, or the frame is longer than 2400 bytes.
    BodyLength,
}

impl Fault {
    /// The number printed for it.
    pub fn number(self) -> u8
        ensures { result ≡ number_of_fault self }
    {
        match self {
            Fault::TooShort => 50,
            Fault::WrongVersion => 51,
            Fault::Unsupported => 52,
            Fault::ReservedUse => 53,
            Fault::ElementCut => 54,
            Fault::BodyLength => 55,
        }
    }
}

impl fmt::Display for Fault {
    ghost use Rattle.mac_frame.specs.Texts.{fault_text};

    ghost output = { λ f. Some (fault_text f) };

    fn fmt<W: fmt::Write>(&self, f: &mut fmt::Formatter<W>) -> fmt::Result {
        f.write_str(match self {
            Fault::TooShort => "50: the frame ends within its header",
            Fault::WrongVersion => "51: the protocol version is not 0",
            Fault::Unsupported => "52: the type, subtype, category or action is not supported",
            Fault::ReservedUse => "53: a field holds a reserved value",
            Fault::ElementCut => "54: an element is cut",
            Fault::BodyLength => "55: the body has the wrong length",
        })
    }
}

impl Error for Fault {}

/// Why there is no frame.
#[derive(Clone, Copy, Debug, PartialEq, Eq)]
pub enum FrameFault {
    /// There was no memory for the frame. This says nothing about the bytes.
    Memory,
    /// The bytes aren't a frame.
    Fault(Fault),
}

impl fmt::Display for FrameFault {
    ghost use Rattle.mac_frame.specs.Texts.{frame_fault_text};

    ghost output = { λ f. Some (frame_fault_text f) };

    fn fmt<W: fmt::Write>(&self, f: &mut fmt::Formatter<W>) -> fmt::Result {
        match self {
            FrameFault::Memory => f.write_str("out of memory"),
            FrameFault::Fault(fault) => write!(f, "{fault}"),
        }
    }
}

impl Error for FrameFault {}

impl From<AllocError> for FrameFault {
    ghost from_gives = { λ _ e. e ≡ Memory };

    fn from(_e: AllocError) -> FrameFault {
        FrameFault::Memory
    }
}
