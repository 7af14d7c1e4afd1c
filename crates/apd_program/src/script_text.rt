//! The script of a capture as an answer, which is made piece by piece when it is printed.

ghost use Rattle.std.specs.Prelude.{◌≡◌, false, IfOk, IfErr, OnOk, string_bytes, take};
ghost use Rattle.std.specs.Io.KnownBytes.{Appends, Keeps};
ghost use Rattle.capture.specs.Walks.{packets_in};
ghost use Rattle.apd_files.specs.Beginning.{AppendsBeginning};
ghost use Rattle.apd_policies.specs.Script.{script_of};
ghost use Rattle.apd_program.specs.Spans.{IsSpan};

use crate::output::Undelivered;
use crate::span::{Span, recording_in};
use apd_files::{Unwritten, write_whole};
use apd_policies::{Manner, ScriptRest, script_text};
use std::alloc::{AllocError, Global};
use std::io::{ErrorKind, Write};
use std::marker::Model;

/// The script of a capture's packets, or of those before a cut. Contracts see it as its text, of which only the capture's
/// bytes are in memory.
#[derive(Drop)]
pub struct ScriptText {
    file: Vec<u8>,
    span: Span,
    manner: Manner,
}

impl Model for ScriptText {
    ghost use Rattle.std.specs.Prelude.{ℕ, List, take};
    ghost use Rattle.capture.specs.Walks.{packets_in};
    ghost use Rattle.apd_policies.specs.Script.{script_of};
    ghost use Rattle.apd_program.specs.Spans.{IsSpan};

    ghost Value = { List ℕ };

    ghost view = { λ s. script_of s.manner.ticks s.manner.bssid (packets_in (take s.span.end s.file.items)) };

    ghost invariant = { λ s. IsSpan s.file.items s.span };
}

impl ScriptText {
    /// The script of this much of a file.
    pub(crate) fn new(file: Vec<u8>, span: Span, manner: Manner) -> ScriptText
        requires span { IsSpan file.items span }
        ensures text { result ≡ script_of manner.ticks manner.bssid
            (packets_in (take span.end file.items)) }
    {
        ScriptText { file, span, manner }
    }

    /// The whole text.
    pub fn whole(&self, alloc: Global) -> Result<String, AllocError>
        ensures is { IfOk result (λ text. string_bytes text ≡ self.now) }
    {
        let recording = recording_in(self.file.as_slice(), self.span);
        script_text(alloc, recording, self.manner)
    }

    /// Writes the text in pieces. Lack of memory after the first piece is a failed write.
    pub(crate) fn write<W: Write>(&self, alloc: Global, out: &mut W) -> Result<(), Undelivered>
        ensures whole { OnOk result (Appends (W.contents out.old) (W.contents out.new) self.now) }
        ensures beginning { AppendsBeginning (W.contents out.old) (W.contents out.new) self.now }
        ensures memory { IfErr result
            (λ e. e ≡ Undelivered.NoMemory → Keeps (W.contents out.old) (W.contents out.new)) }
    {
        let recording = recording_in(self.file.as_slice(), self.span);
        match ScriptRest::new(alloc, recording, self.manner) {
            Ok(rest) => write_rest(alloc, rest, out),
            Err(_) => Err(Undelivered::NoMemory),
        }
    }
}

/// What lack of memory is, once something was written or not.
fn lacking(begun: bool) -> Undelivered
    ensures unbegun { result ≡ Undelivered.NoMemory → begun ≡ false }
{
    if begun {
        return Undelivered::Unwritten(ErrorKind::OutOfMemory);
    }
    Undelivered::NoMemory
}

/// Writes the rest of a script, piece by piece.
fn write_rest<W: Write>(
    alloc: Global,
    script: ScriptRest<'_>,
    out: &mut W,
) -> Result<(), Undelivered>
    ensures whole { OnOk result
        (Appends (W.contents out.old) (W.contents out.new) script.entry.bytes) }
    ensures beginning { AppendsBeginning (W.contents out.old) (W.contents out.new)
        script.entry.bytes }
    ensures memory { IfErr result
        (λ e. e ≡ Undelivered.NoMemory → Keeps (W.contents out.old) (W.contents out.new)) }
{
    let mut rest = script;
    let mut text = String::new(alloc);
    let mut begun = false;
    loop {
        text.clear();
        let Ok(more) = rest.append_piece(alloc, &mut text) else {
            return Err(lacking(begun));
        };
        match write_whole(out, text.as_bytes()) {
            Ok(()) => {}
            Err(Unwritten(why)) => return Err(Undelivered::Unwritten(why)),
        }
        if !more {
            return Ok(());
        }
        begun = true;
    }
}
