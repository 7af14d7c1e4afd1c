//! Reading code from files.

ghost use Rattle.std.specs.Prelude.{◌≡◌, ◌≤◌, ◌^◌, IfOk, IfErr};
ghost use Rattle.apd_files.specs.Held.{HoldsCode, HoldsKept};
ghost use Rattle.apd_files.specs.Reading.{IsWithin, HasCollected, HasDecoded, IsShort};
ghost use Rattle.apd_files.specs.Faults.{IsFaultOf, IsTold, Tells};

use crate::inputs::digits::{BlockFault, add_block};
use crate::inputs::files::{FileFault, FileKind, Files};
use std::alloc::Global;
use std::fmt;
use thiserror::Error;

/// Why a text isn't pairs of hex digits. It is displayed in words.
#[derive(Clone, Copy, Debug, PartialEq, Eq)]
pub enum DigitFault {
    /// The first byte that is neither a hex digit nor white space, and its line.
    Foreign { line: u64, byte: u8 },
    /// An odd number of hex digits.
    Odd,
}

impl fmt::Display for DigitFault {
    fn fmt<W: fmt::Write>(&self, f: &mut fmt::Formatter<W>) -> fmt::Result {
        match *self {
            DigitFault::Foreign { line, byte } if byte.is_ascii_graphic() => {
                let found = char::from(byte);
                write!(f, "line {line}: `{found}` is no hex digit")
            }
            DigitFault::Foreign { line, byte } => {
                write!(f, "line {line}: `\\x{byte:02x}` is no hex digit")
            }
            DigitFault::Odd => f.write_str("an odd number of hex digits"),
        }
    }
}

/// Why no code was read from a file. Its text explains it to people.
#[derive(Clone, Copy, Debug, PartialEq, Eq, Error)]
pub enum CodeFault {
    /// There is no such file, or it can't be read, or it is longer than its kind may be.
    #[error("{0}")]
    Unreadable(FileFault),
    /// Without white space it isn't pairs of hex digits.
    #[error("{0}")]
    Digits(DigitFault),
    #[error("out of memory")]
    NoMemory,
}

/// The bytes of the longest code: 16384 slots of 8.
const CODE: usize = 1 << 17;

/// The most bytes that a certificate's file spells.
const CERTIFICATE: usize = 1 << 27;

fn line_feeds(text: &[u8]) -> u64 {
    text.iter().filter(|byte| **byte == b'\n').count() as u64
}

/// The fault of a file, by that of its block, which begins at this line.
fn fault_in(block: &[u8], line: u64, fault: BlockFault) -> CodeFault
    requires within { IsWithin block.now fault }
    ensures is { Tells block.now fault result }
{
    match fault {
        BlockFault::NoMemory => CodeFault::NoMemory,
        BlockFault::Foreign(at) => CodeFault::Digits(DigitFault::Foreign {
            line: line.saturating_add(line_feeds(&block[..at])),
            byte: block[at],
        }),
    }
}

/// The fault of a file that can't be read.
fn unreadable(why: FileFault) -> CodeFault
    ensures is { IsTold why result }
{
    match why {
        FileFault::NoMemory => CodeFault::NoMemory,
        why => CodeFault::Unreadable(why),
    }
}

/// The digits that are kept of a file of this kind.
fn digits<F: Files>(
    alloc: Global,
    path: &str,
    kind: FileKind,
    most: usize,
    files: &mut F,
) -> Result<Vec<u8>, CodeFault>
    requires few { most ≤ 2 ^ 32 }
    ensures digits { IfOk result
        (λ digits. HasCollected kind most (F.held files.old) path.now digits.items) }
    ensures fault { IfErr result (IsFaultOf kind (F.held files.old) path.now) }
    ensures same { F.held files.new ≡ F.held files.old }
{
    if let Err(why) = files.open(path) {
        return Err(unreadable(why));
    }
    let longest = kind.most();
    let mut digits = Vec::new(alloc);
    let mut seen: u64 = 0;
    let mut line: u64 = 1;
    while seen <= longest {
        let block = match files.next_block() {
            Ok(block) => block,
            Err(why) => return Err(unreadable(why)),
        };
        if block.is_empty() {
            return Ok(digits);
        }
        if let Err(fault) = add_block(&mut digits, block.as_slice(), most) {
            return Err(fault_in(block.as_slice(), line, fault));
        }
        seen += block.len() as u64;
        line = line.saturating_add(line_feeds(block.as_slice()));
    }
    Err(CodeFault::Unreadable(FileFault::TooLong(longest)))
}

/// The bytes that the kept digits of a file of this kind spell: up to `most` all are kept.
fn bytes<F: Files>(
    alloc: Global,
    path: &str,
    kind: FileKind,
    most: usize,
    files: &mut F,
) -> Result<Vec<u8>, CodeFault>
    requires few { most ≤ 2 ^ 31 }
    ensures bytes { IfOk result
        (λ bytes. HasDecoded kind most (F.held files.old) path.now bytes.items) }
    ensures fault { IfErr result (IsFaultOf kind (F.held files.old) path.now) }
    ensures same { F.held files.new ≡ F.held files.old }
{
    let digits = digits(alloc, path, kind, 2 * most, files)?;
    if digits.len() % 2 != 0 {
        return Err(CodeFault::Digits(DigitFault::Odd));
    }
    match hex::decode(alloc, digits) {
        Ok(bytes) => Ok(bytes),
        Err(_) => Err(CodeFault::NoMemory),
    }
}

/// The code that a file spells in hex digits of either case, with white space between any two. Of code with more than
/// 131072 bytes (16384 slots of 8), the contract says only that the result also has more, and as many mod 8. A text
/// that is longer than its kind may be is a fault. Reading stops at the block of the first byte that is neither digit
/// nor white space, or in which the text becomes too long.
pub fn read_code<F: Files>(alloc: Global, path: &str, files: &mut F) -> Result<Vec<u8>, CodeFault>
    ensures code { IfOk result
        (λ code. HoldsKept (2 ^ 17) (F.held files.old) path.now code.items) }
    ensures short { IfOk result (λ _. IsShort FileKind.Code (F.held files.old) path.now) }
    ensures fault { IfErr result (IsFaultOf FileKind.Code (F.held files.old) path.now) }
    ensures same { F.held files.new ≡ F.held files.old }
{
    bytes(alloc, path, FileKind::Code, CODE, files)
}

/// The certificate that a file spells in hex digits of either case, with white space between any two. Reading stops at
/// the block of the first byte that is neither digit nor white space.
pub fn read_certificate<F: Files>(
    alloc: Global,
    path: &str,
    files: &mut F,
) -> Result<Vec<u8>, CodeFault>
    ensures certificate { IfOk result
        (λ bytes. HoldsCode (F.held files.old) path.now bytes.items) }
    ensures fault { IfErr result (IsFaultOf FileKind.Certificate (F.held files.old) path.now) }
    ensures same { F.held files.new ≡ F.held files.old }
{
    bytes(alloc, path, FileKind::Certificate, CERTIFICATE, files)
}
