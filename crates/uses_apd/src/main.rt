//! Whole sessions of `apd`: each line of standard input is a command line, and its answer follows it.
//!
//! A line is words with spaces between them; `""` is an empty word, and an empty line has no words. If ` << TEXT`
//! stands behind them, the text makes the file `text` first; escapes in it are those of Rust's byte strings. `live`
//! reads this text, or with ` < FILE` that file, a few bytes at a time. What is written to standard error follows the
//! answer, with `! ` before each line, and then the status, if it isn't 0.
//!
//! A line that begins with `#` is only printed, and of a line `< FILE` the file follows. What is no text is printed in
//! hex digits.
#![tactic(auto)]

use apd_entry::{Messages, Streams};
use apd_files::RealFiles;
use bstr::ByteVec;
use std::alloc::{AllocError, Global};
use std::io::{Input, Read, Write};
use std::rt::Files;
use std::sync::Wait;
use std::thread::Threads;
use std::time::Clock;
use std::{fs, io};

fn main(rt: HostRuntime) -> io::Result<()> {
    for line in rt.lines(rt.alloc()) {
        follow(&rt, line?.as_str())?;
    }
    Ok(())
}

/// Prints a line, and does what it asks for.
fn follow<R>(rt: &R, line: &str) -> io::Result<()>
where
    R: Threads + Wait + Clock + Input + Print + Eprint + Files + AllocGlobal,
    R: Copy + Send + Sync + 'static,
{
    if line.starts_with('#') {
        return println!(rt; "{line}");
    }
    if let Some(path) = line.strip_prefix("< ") {
        println!(rt; "{line}")?;
        return show(rt, fs::read(rt, path)?.as_slice());
    }
    println!(rt; "$ apd {line}")?;
    answer(rt, rt.alloc(), line)
}

/// Prints bytes as they are, or, if they are no text, in hex digits.
fn show(rt: &impl Print, bytes: &[u8]) -> io::Result<()> {
    if let Ok(text) = str::from_utf8(bytes) {
        return print!(rt; "{text}");
    }
    for byte in bytes {
        print!(rt; "{byte:02x}")?;
    }
    println!(rt)
}

/// A text that is read at most seven bytes at a time.
#[derive(Drop)]
struct Sips {
    text: Vec<u8>,
    taken: usize,
}

impl Read for Sips {
    fn read(&mut self, buf: &mut [u8]) -> io::Result<usize> {
        let left = self.text.get(self.taken..).unwrap_or(b"");
        let count = left.len().min(buf.len()).min(7);
        buf[..count].copy_from_slice(&left[..count]);
        self.taken = self.taken.saturating_add(count);
        Ok(count)
    }
}

/// The words of a line, and what `live` reads. Makes the file `text` if there is a text.
fn asked<'a, R>(rt: &R, alloc: Global, line: &'a str) -> io::Result<(&'a str, Vec<u8>)>
where
    R: Files + AllocGlobal,
{
    if let Some((words, text)) = line.split_once(" << ") {
        let text = Vec::unescape_bytes(alloc, text)?;
        fs::write(rt, "text", text.as_slice())?;
        return Ok((words, text));
    }
    if let Some((words, path)) = line.split_once(" < ") {
        return Ok((words, fs::read(rt, path)?));
    }
    Ok((line, Vec::new(alloc)))
}

/// Runs a line, and prints the answer, the messages and the status.
fn answer<R>(rt: &R, alloc: Global, line: &str) -> io::Result<()>
where
    R: Threads + Wait + Clock + Input + Print + Eprint + Files + AllocGlobal,
    R: Copy + Send + Sync + 'static,
{
    let (words, text) = asked(rt, alloc, line)?;
    let mut told = Vec::new(alloc);
    let messages = Messages {
        err: &mut told,
        watched: false,
    };
    let (out, status) = perform(rt, alloc, words, Sips { text, taken: 0 }, messages)?;
    show(rt, out.as_slice())?;
    for text in String::from_utf8_lossy(alloc, told.as_slice())?.lines() {
        println!(rt; "! {text}")?;
    }
    if status != 0 {
        println!(rt; "status {status}")?;
    }
    Ok(())
}

/// Runs `apd` on the words of a line, and returns its answer and its status.
fn perform<R, I, E>(
    rt: &R,
    alloc: Global,
    line: &str,
    input: I,
    messages: Messages<'_, E>,
) -> io::Result<(Vec<u8>, u8)>
where
    R: Threads + Wait + Clock + Input + Eprint + Files + AllocGlobal,
    R: Copy + Send + Sync + 'static,
    I: Read + Drop + Send + 'static,
    E: Write,
{
    let words = words_of(alloc, line)?;
    let mut files = RealFiles::new(rt);
    let streams = Streams {
        input,
        out: Vec::new(alloc),
        typed: false,
        shown: false,
    };
    Ok(apd_entry::perform(rt, words.as_slice(), &mut files, streams, messages))
}

/// The program's name and the words of a line.
fn words_of<'a>(alloc: Global, line: &'a str) -> Result<Vec<&'a str>, AllocError> {
    let mut words = Vec::new(alloc);
    words.push("apd").map_err(AllocError::from)?;
    for word in line.split(' ') {
        if !word.is_empty() {
            let word = if word == "\"\"" { "" } else { word };
            words.push(word).map_err(AllocError::from)?;
        }
    }
    Ok(words)
}
