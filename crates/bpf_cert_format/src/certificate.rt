//! Whole certificates.

ghost use Rattle.std.specs.Prelude.{◌≡◌};

use crate::leaf::Leaf;
use bpf_regions::Hook;
use std::marker::Model;

/// A hook, the bytes of a code, and entries which are meant to show that the code is safe.
#[derive(Drop)]
pub struct Certificate {
    hook: Hook,
    code: Vec<u8>,
    entries: Vec<Leaf>,
}

impl Model for Certificate {
    ghost use Rattle.bpf_cert_format.specs.Views.{CertificateView};

    ghost Value = { CertificateView };

    ghost view = { λ c. record { hook = c.hook; code = c.code.items; entries = c.entries.items } };
}

impl Certificate {
    /// A certificate from its parts.
    pub fn new(hook: Hook, code: Vec<u8>, entries: Vec<Leaf>) -> Certificate
        ensures is { result ≡ record { hook = hook; code = code.items; entries = entries.items } }
    {
        Certificate {
            hook,
            code,
            entries,
        }
    }

    /// The certificate's hook.
    pub fn hook(&self) -> Hook
        ensures is { result ≡ self.now.hook }
    {
        self.hook
    }

    /// The bytes of the certificate's code.
    pub fn code(&self) -> &[u8]
        ensures is { result.now ≡ self.now.code }
    {
        self.code.as_slice()
    }

    /// The certificate's entries.
    pub fn entries(&self) -> &[Leaf]
        ensures is { result.now ≡ self.now.entries }
    {
        self.entries.as_slice()
    }
}
