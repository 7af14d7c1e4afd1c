//! Collecting hex digits block by block.

ghost use Rattle.std.specs.Prelude.{◌≡◌, ◌≤◌, ◌^◌, ◌↔◌, ◌++◌, ◌∷◌, [], ℕ, List, IfErr, OnOk, IsTrue, true};
ghost use Rattle.std.specs.List.{AllPass};
ghost use Rattle.hex.specs.Hex.{is_hex_digit};
ghost use Rattle.apd_files.specs.Held.{Keeps};
ghost use Rattle.apd_files.specs.Reading.{Adds, IsForeign, StopsAt};

/// Why collecting stopped.
#[derive(Clone, Copy, Debug, PartialEq, Eq)]
pub(crate) enum BlockFault {
    /// The byte at this index of the block is neither a hex digit nor white space.
    Foreign(usize),
    NoMemory,
}

/// Appends a digit to those that are kept. Beyond `most + 16`, the last 16 are dropped.
fn keep(digits: &mut Vec<u8>, digit: u8, most: usize) -> Result<(), BlockFault>
    requires few { most ≤ 2 ^ 32 }
    requires digit { is_hex_digit digit ≡ true }
    ensures keeps { (whole : List ℕ) → Keeps most 16 whole digits.old.items →
        OnOk result (Keeps most 16 (whole ++ digit ∷ []) digits.new.items) }
    ensures all { AllPass is_hex_digit digits.old.items →
        OnOk result (AllPass is_hex_digit digits.new.items) }
    ensures memory { IfErr result (λ e. e ≡ BlockFault.NoMemory) }
{
    if digits.push(digit).is_err() {
        return Err(BlockFault::NoMemory);
    }
    if digits.len() > most + 16 {
        let fewer = digits.len() - 16;
        digits.truncate(fewer);
    }
    Ok(())
}

/// Whether a byte is neither a hex digit nor white space.
fn is_foreign(byte: u8) -> bool
    ensures is { IsTrue result ↔ IsForeign byte }
{
    !byte.is_ascii_whitespace() && !byte.is_ascii_hexdigit()
}

/// Collects a byte that is a hex digit or white space.
fn add_byte(digits: &mut Vec<u8>, byte: u8, most: usize) -> Result<(), BlockFault>
    requires few { most ≤ 2 ^ 32 }
    requires known { IsForeign byte → ⊥ }
    ensures adds { OnOk result (Adds most (byte ∷ []) digits.old.items digits.new.items) }
    ensures memory { IfErr result (λ e. e ≡ BlockFault.NoMemory) }
{
    if byte.is_ascii_whitespace() {
        return Ok(());
    }
    keep(digits, byte, most)
}

/// Collects the digits of a block, up to a byte that is neither a hex digit nor white space.
pub(crate) fn add_block(digits: &mut Vec<u8>, block: &[u8], most: usize) -> Result<(), BlockFault>
    requires few { most ≤ 2 ^ 32 }
    ensures adds { OnOk result (Adds most block.now digits.old.items digits.new.items) }
    ensures stops { IfErr result (StopsAt most digits.old.items block.now) }
{
    for at in 0..block.len() {
        if is_foreign(block[at]) {
            return Err(BlockFault::Foreign(at));
        }
        if add_byte(digits, block[at], most).is_err() {
            return Err(BlockFault::NoMemory);
        }
    }
    Ok(())
}
