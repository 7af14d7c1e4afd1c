//! Files: bytes as hex digits, and lists of samples.

use std::rt::Files;
use std::{fs, io};

/// The bytes of hex digits, which white space may separate. None of them if the digits are wrong.
pub fn bytes_of<R: AllocGlobal>(rt: &R, digits: &str) -> io::Result<Vec<u8>> {
    let alloc = rt.alloc();
    let mut digits = Vec::from_slice(alloc, digits.as_bytes())?;
    digits.retain(|byte| !byte.is_ascii_whitespace());
    Ok(hex::decode(alloc, digits).unwrap_or(Vec::new(alloc)))
}

/// The bytes that a word stands for: those of a file, those of the digits in a file `.hex`, or those of digits.
pub fn sample<R: Files + AllocGlobal>(rt: &R, word: &str) -> io::Result<Vec<u8>> {
    if word.ends_with(".hex") {
        let digits = fs::read_to_string(rt, word)?;
        return bytes_of(rt, digits.as_str());
    }
    if word.contains('.') {
        return fs::read(rt, word);
    }
    bytes_of(rt, word)
}

/// The samples of a list, one in each line that begins with no `#`.
pub fn samples<R: Files + AllocGlobal>(rt: &R, path: &str) -> io::Result<Vec<Vec<u8>>> {
    let list = fs::read_to_string(rt, path)?;
    let mut found = Vec::new(rt.alloc());
    for line in list.lines() {
        if !line.starts_with('#') {
            found.push(sample(rt, line)?)?;
        }
    }
    Ok(found)
}
