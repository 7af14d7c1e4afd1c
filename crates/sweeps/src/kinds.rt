//! Kinds of input: how each is made and tested.

use crate::changes::{mutated, random_bytes};
use crate::codes::code;
use crate::files::samples;
use crate::numbers::Numbers;
use crate::tally::Judged;
use crate::{admission, assembly, captures, certificate_bytes, configurations, frames, scripts};
use std::alloc::{AllocError, Global};
use std::io;
use std::rt::Files;

/// What an input is.
#[derive(Clone, Copy)]
pub enum Of {
    /// Code for the verifier and for both machines.
    Code,
    /// A frame with changes.
    Frame,
    /// A frame cut at a length, or with a byte set to a value.
    Octet,
    /// Assembler text.
    Text,
    Configuration,
    Script,
    /// A certificate for the code that it names.
    Certificate,
    Capture,
}

/// A kind of input.
#[derive(Clone, Copy)]
pub struct Kind {
    pub name: &'static str,
    pub of: Of,
    /// The list of the samples from which its inputs are made.
    samples: &'static str,
    /// How many inputs a short sweep has.
    pub few: u64,
    /// What may appear in an input.
    words: &'static [&'static str],
}

/// All of them.
pub static KINDS: [Kind; 8] = [
    Kind {
        name: "code",
        of: Of::Code,
        samples: "samples/code",
        few: 5000,
        words: &[],
    },
    Kind {
        name: "frames",
        of: Of::Frame,
        samples: "samples/frames",
        few: 200000,
        words: &[],
    },
    Kind {
        name: "octets",
        of: Of::Octet,
        samples: "samples/frames",
        few: 120000,
        words: &[],
    },
    Kind {
        name: "texts",
        of: Of::Text,
        samples: "samples/code",
        few: 50000,
        words: &[
            "r0",
            "r1",
            "r10",
            "r11",
            "mov",
            "add32",
            "lddw",
            "ldxdw",
            "ldsxb",
            "stxw",
            "stdw",
            "jne",
            "jsgt32",
            "ja",
            "call",
            "local",
            "exit",
            "map",
            "value",
            "cmpxchg",
            "fetch_or",
            "movsx16_32",
            "swap32",
            "neg",
            "[r10-8]",
            "[r1+0]",
            "+1",
            "-32768",
            "+32768",
            "0x",
            "0xffffffff",
            "-2147483648",
            "18446744073709551616",
            ", ",
            "\n",
            "#",
            " ",
            "32",
            "le64",
            "atomic_xor",
        ],
    },
    Kind {
        name: "configurations",
        of: Of::Configuration,
        samples: "samples/configurations",
        few: 20000,
        words: &[
            "bssid",
            "ssid",
            "rates",
            "draw",
            "[[map]]",
            "[map]",
            "entries",
            "words",
            "width",
            "scope",
            "shared",
            "worker",
            "=",
            "\"",
            "'",
            "\"\"\"",
            "\n",
            "0x",
            "-1",
            "4096",
            "4097",
            "{",
            "}",
            "[",
            "]",
            "\\u00e9",
            "1e400",
            "1979-05-27T07:32:00Z",
        ],
    },
    Kind {
        name: "scripts",
        of: Of::Script,
        samples: "samples/scripts",
        few: 100000,
        words: &[
            "frame",
            "tick",
            "kick",
            "close",
            "load",
            "unload",
            "adopt",
            "store",
            "read",
            "sum",
            "wait",
            "assoc",
            "addba",
            "data",
            " ",
            "\n",
            "#",
            "\t",
            "\r",
            "0",
            "65536",
            "4294967296",
            "00",
            "a/b",
        ],
    },
    Kind {
        name: "certificates",
        of: Of::Certificate,
        samples: "samples/code",
        few: 10000,
        words: &[],
    },
    Kind {
        name: "captures",
        of: Of::Capture,
        samples: "samples/captures",
        few: 100000,
        words: &[],
    },
];

impl Kind {
    /// The kind with a name.
    pub fn named(word: &str) -> Option<&'static Kind> {
        for kind in &KINDS {
            if kind.name == word {
                return Some(kind);
            }
        }
        None
    }

    /// A sample as an input: code as it is, its text or its certificate.
    fn turned(&self, alloc: Global, sample: Vec<u8>) -> Result<Vec<u8>, AllocError> {
        match self.of {
            Of::Text => assembly::text_of(alloc, &sample),
            Of::Certificate => certificate_bytes::certificate_of(alloc, &sample),
            _ => Ok(sample),
        }
    }

    /// The samples from which its inputs are made.
    pub fn samples<R: Files + AllocGlobal>(&self, rt: &R) -> io::Result<Vec<Vec<u8>>> {
        let alloc = rt.alloc();
        let mut turned = Vec::new(alloc);
        for sample in samples(rt, self.samples)? {
            turned.push(self.turned(alloc, sample)?)?;
        }
        Ok(turned)
    }

    /// An input from a sample.
    pub fn input(
        &self,
        alloc: Global,
        numbers: &mut Numbers,
        sample: &[u8],
    ) -> Result<Vec<u8>, AllocError> {
        if numbers.is_one_in(64) {
            return random_bytes(alloc, numbers, 65);
        }
        match self.of {
            Of::Code => code(alloc, numbers, sample),
            _ => mutated(alloc, numbers, sample, self.words),
        }
    }

    /// Tests an input.
    pub fn judged(
        &self,
        alloc: Global,
        numbers: &mut Numbers,
        input: &[u8],
    ) -> Result<Judged, AllocError> {
        match self.of {
            Of::Code => admission::judged(alloc, numbers, input),
            Of::Frame | Of::Octet => frames::judged(alloc, input),
            Of::Text => assembly::judged(alloc, input),
            Of::Configuration => configurations::judged(alloc, input),
            Of::Script => scripts::judged(alloc, input),
            Of::Certificate => certificate_bytes::judged(alloc, numbers, input),
            Of::Capture => captures::judged(alloc, input),
        }
    }
}
