//! Why a program wasn't published, or no reader given out.

ghost use Rattle.std.specs.Prelude.{◌≡◌};
ghost use Rattle.versions.specs.Faults.{number_of};
ghost use Rattle.versions.specs.declared.fault.PublishFault.TheVariants.{NoMemory};

use std::alloc::AllocError;
use std::fmt;

#[derive(Clone, Copy, Debug, PartialEq, Eq)]
pub enum PublishFault {
    /// The program was accepted for maps of other shapes.
    OtherShapes,
    /// A program can't have one more owner, or the list of loads can't take one more load.
    NoMemory,
}

impl PublishFault {
    /// 60 for other shapes, 40 for lack of memory.
    pub fn number(self) -> u8
        ensures is { result ≡ number_of self }
    {
        match self {
            PublishFault::OtherShapes => 60,
            PublishFault::NoMemory => 40,
        }
    }
}

impl fmt::Display for PublishFault {
    fn fmt<W: fmt::Write>(&self, f: &mut fmt::Formatter<W>) -> fmt::Result {
        f.write_str(match self {
            PublishFault::OtherShapes => "the program was verified for other map shapes",
            PublishFault::NoMemory => "no memory to publish a program",
        })
    }
}

impl From<AllocError> for PublishFault {
    ghost from_gives = { λ _ fault. fault ≡ NoMemory };

    fn from(_: AllocError) -> PublishFault {
        PublishFault::NoMemory
    }
}

/// No reader is left.
#[derive(Clone, Copy, Debug, PartialEq, Eq)]
pub struct NoReader;

impl NoReader {
    /// 62.
    pub fn number(self) -> u8
        ensures is { result ≡ 62 }
    {
        62
    }
}

impl fmt::Display for NoReader {
    fn fmt<W: fmt::Write>(&self, f: &mut fmt::Formatter<W>) -> fmt::Result {
        f.write_str("all readers of the program sets are given out")
    }
}
