//! Reading a script from its text.

ghost use Rattle.std.specs.Prelude.{◌≡◌, ◌<◌, ◌≤◌, ◌+◌, IfOk, IfErr, OnOk, OnErr, vec_len, vec_capacity};
ghost use Rattle.apd_script.specs.Asked.{commands_of, NameWords, NamesMore};
ghost use Rattle.apd_script.specs.Faults.{Refuses};
ghost use Rattle.apd_script.specs.Lines.{IsWellFormed};
ghost use Rattle.apd_script.specs.Script.{IsScript, line_count, AddsLine, Cuts};

use crate::command::Numbered;
use crate::fault::ScriptFault;
use crate::line::read_line;
use bpf_regions::Shapes;
use memchr::{memchr, memchr_iter};
use std::alloc::Global;

fn count_lines(text: &[u8]) -> usize
    ensures is { result ≡ line_count text.now }
{
    memchr_iter(b'\n', text).count() + 1
}

/// The first line of a text, and the text after its line feed.
pub fn first_line(text: &[u8]) -> (&[u8], Option<&[u8]>)
    ensures cut { Cuts text.now result.0.now result.1 }
{
    match memchr(b'\n', text) {
        Some(end) => (&text[..end], Some(&text[end + 1..])),
        None => (text, None),
    }
}

/// Appends what the line with this number asks for.
fn add_line<'a>(
    commands: &mut Vec<Numbered<'a>>,
    shapes: &Shapes,
    line: &'a [u8],
    number: u64,
) -> Result<(), ScriptFault>
    requires { vec_len commands.old < vec_capacity commands.old }
    ensures well_formed { OnOk result (IsWellFormed shapes.now line.entry.now) }
    ensures asked { OnOk result
        (AddsLine shapes.now number line.entry.now commands.old.items commands.new.items) }
    ensures within { NamesMore shapes.now commands.old.items commands.new.items }
    ensures few { vec_len commands.new ≤ vec_len commands.old + 1 }
    ensures room { vec_capacity commands.new ≡ vec_capacity commands.old }
    ensures malformed { OnErr result (IsWellFormed shapes.now line.entry.now → ⊥) }
    ensures fault { IfErr result (λ fault. fault ≡ ScriptFault.Line number) }
{
    match read_line(shapes, line) {
        Ok(Some(command)) => {
            commands.push_reserved(Numbered {
                line: number,
                command,
            });
            Ok(())
        }
        Ok(None) => Ok(()),
        Err(_) => Err(ScriptFault::Line(number)),
    }
}

/// The commands of a script with their line numbers, or the number of the first malformed line. `shapes` are the shapes
/// of the configured maps, which have each word that a command names. One allocation reserves room for a command a
/// line; paths and frames are slices of the text.
pub fn read_script<'a>(
    alloc: Global,
    text: &'a [u8],
    shapes: &Shapes,
) -> Result<Vec<Numbered<'a>>, ScriptFault>
    ensures script { IfOk result (λ c. IsScript shapes.now text.entry.now (commands_of c.items)) }
    ensures within { IfOk result (λ c. NameWords shapes.now c.items) }
    ensures room { IfOk result (λ c. vec_capacity c ≡ line_count text.entry.now) }
    ensures malformed { IfErr result (Refuses shapes.now text.entry.now) }
{
    let mut commands = Vec::with_capacity(alloc, count_lines(text))?;
    let mut before = 0;
    let mut rest = text;
    loop {
        let (line, next) = first_line(rest);
        add_line(&mut commands, shapes, line, before + 1)?;
        match next {
            None => return Ok(commands),
            Some(next) => {
                rest = next;
                before += 1;
            }
        }
    }
}
