//! Files in memory, and what `apd` answers with them.

use crate::tests::lab::{ANSWERS, NO_EVENTS};
use crate::tests::same::same;
use apd_files::{FileFault, Files, Unwritten};
use apd_program::apd_main;
use std::alloc::Global;
use std::io::ErrorKind;
use std::process::Abort;

/// A file's path and its bytes.
pub type File<'a> = (&'a str, &'a [u8]);

/// Files in memory of which no contract knows the contents: a list, and one beside it. The unread part of the open one
/// is read in blocks of at most `step` bytes. Nothing may be written.
#[derive(Drop)]
pub struct Folder<'a> {
    alloc: Global,
    files: &'a [File<'a>],
    file: File<'a>,
    step: usize,
    left: &'a [u8],
}

/// Files in memory; none is open.
pub fn folder_of<'a>(
    alloc: Global,
    files: &'a [File<'a>],
    file: File<'a>,
    step: usize,
) -> Folder<'a> {
    Folder {
        alloc,
        files,
        file,
        step,
        left: b"",
    }
}

/// The bytes of a file, if it exists.
fn bytes_of<'a>(files: &'a [File<'a>], path: &str) -> Option<&'a [u8]> {
    for (name, bytes) in files {
        if *name == path {
            return Some(*bytes);
        }
    }
    None
}

impl Files for Folder<'_> {
    fn open(&mut self, path: &str) -> Result<(), FileFault> {
        let (name, bytes) = self.file;
        if name == path {
            self.left = bytes;
            return Ok(());
        }
        match bytes_of(self.files, path) {
            Some(bytes) => {
                self.left = bytes;
                return Ok(());
            }
            None => return Err(FileFault::Missing),
        }
    }

    fn next_block(&mut self) -> Result<Vec<u8>, FileFault> {
        let count = self.left.len().min(self.step);
        let (block, left) = self.left.split_at(count);
        self.left = left;
        match Vec::from_slice(self.alloc, block) {
            Ok(bytes) => return Ok(bytes),
            Err(_) => return Err(FileFault::NoMemory),
        }
    }

    fn save(&mut self, _path: &str, _bytes: &[u8]) -> Result<(), Unwritten> {
        Err(Unwritten(ErrorKind::PermissionDenied))
    }
}

/// What a command or a run tells: its status, and what it writes to standard output and to standard error.
#[derive(Drop)]
pub struct Told {
    pub status: u8,
    pub out: Vec<u8>,
    pub err: Vec<u8>,
}

/// What is wanted of a text: that this is all of it, its beginning or its end; that it comes after the answers to an
/// authentication and an association; or that the totals of a run without events come after it.
#[derive(Clone, Copy)]
pub enum Text<'a> {
    All(&'a [u8]),
    Start(&'a [u8]),
    End(&'a [u8]),
    Answered(&'a [u8]),
    Idle(&'a [u8]),
}

/// Any text.
pub const ANY: Text<'static> = Text::End(b"");

/// What is wanted of a command or a run: its status, its output and its error.
pub type Wanted<'a, 'b> = (u8, Text<'a>, Text<'b>);

/// The part of a text that is compared with what is wanted, which follows. None if the text hasn't that part.
fn part_of<'a>(found: &'a [u8], wanted: Text<'a>) -> (Option<&'a [u8]>, &'a [u8]) {
    match wanted {
        Text::All(text) => (Some(found), text),
        Text::Start(text) => (found.get(..text.len()), text),
        Text::End(text) => {
            let before = found.len().saturating_sub(text.len());
            (found.get(before..), text)
        }
        Text::Answered(text) => (found.strip_prefix(ANSWERS), text),
        Text::Idle(text) => (found.strip_suffix(NO_EVENTS), text),
    }
}

/// Fails if a text isn't as it is wanted.
fn shows(rt: &impl Abort, found: &[u8], wanted: Text<'_>, what: (&str, &str)) {
    let (kind, name) = what;
    let (part, text) = part_of(found, wanted);
    same(rt, (kind, part), (kind, Some(text)), name);
}

/// Fails if the status, the output or the error isn't as it is wanted.
pub fn tells(rt: &impl Abort, told: &Told, wanted: Wanted<'_, '_>, what: &str) {
    let (status, out, err) = wanted;
    same(rt, ("status", told.status), ("status", status), what);
    shows(rt, told.out.as_slice(), out, ("output", what));
    shows(rt, told.err.as_slice(), err, ("error", what));
}

/// Fails if a command with these files does anything else.
pub fn does<F: Files>(
    rt: &impl Abort,
    alloc: Global,
    files: &mut F,
    words: &[&str],
    wanted: Wanted<'_, '_>,
) {
    let mut out = Vec::new(alloc);
    let mut err = Vec::new(alloc);
    let status = apd_main(alloc, words, files, &mut out, &mut err);
    let told = Told { status, out, err };
    tells(
        rt,
        &told,
        wanted,
        words.last().copied().unwrap_or("no words"),
    );
    drop(told);
}

/// Concatenates parts of a text.
pub fn joined(rt: &impl Abort, alloc: Global, parts: &[&[u8]]) -> Vec<u8> {
    let mut text = Vec::new(alloc);
    for part in parts {
        text.extend_from_slice(part).expect(rt, "memory");
    }
    text
}
