//! Why bytes can't be read, or a certificate can't be written.

ghost use Rattle.std.specs.Prelude.{◌≡◌};
ghost use Rattle.bpf_cert_format.specs.declared.fault.ReadFault.TheVariants as reading;
ghost use Rattle.bpf_cert_format.specs.declared.fault.WriteFault.TheVariants as writing;

use std::alloc::{AllocError, AllocFailed};

/// Why bytes can't be read.
#[derive(Clone, Copy, Debug, PartialEq, Eq)]
pub enum ReadFault {
    /// An allocation failed, which says nothing about the bytes.
    Memory,
    /// The bytes spell no certificate.
    Malformed,
}

impl From<AllocError> for ReadFault {
    ghost from_gives = { λ _ e. e ≡ reading.Memory };

    fn from(_error: AllocError) -> ReadFault {
        ReadFault::Memory
    }
}

impl<T: Drop> From<AllocFailed<T>> for ReadFault {
    ghost from_gives = { λ _ e. e ≡ reading.Memory };

    fn from(_error: AllocFailed<T>) -> ReadFault {
        ReadFault::Memory
    }
}

/// Why a certificate can't be written.
#[derive(Clone, Copy, Debug, PartialEq, Eq)]
pub enum WriteFault {
    /// An allocation failed, which says nothing about the certificate.
    Memory,
    /// A number is too large for its field.
    TooLarge,
}

impl From<AllocError> for WriteFault {
    ghost from_gives = { λ _ e. e ≡ writing.Memory };

    fn from(_error: AllocError) -> WriteFault {
        WriteFault::Memory
    }
}

impl<T: Drop> From<AllocFailed<T>> for WriteFault {
    ghost from_gives = { λ _ e. e ≡ writing.Memory };

    fn from(_error: AllocFailed<T>) -> WriteFault {
        WriteFault::Memory
    }
}
