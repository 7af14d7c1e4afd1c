//! Scripts.

use crate::assembly::count_lines;
use crate::maps::shapes;
use crate::tally::Judged;
use apd_script::{Numbered, ScriptFault, read_script};
use std::alloc::{AllocError, Global};

/// Whether commands are at lines of the text, in order.
fn are_in_order(commands: &[Numbered<'_>], lines: u64) -> bool {
    let mut before = 0u64;
    for command in commands {
        if command.line <= before || lines < command.line {
            return false;
        }
        before = command.line;
    }
    true
}

fn are_same(one: &[Numbered<'_>], other: &[Numbered<'_>]) -> bool {
    if one.len() != other.len() {
        return false;
    }
    for (command, again) in one.iter().zip(other) {
        if command.line != again.line || command.command != again.command {
            return false;
        }
    }
    true
}

/// The result for commands that were read twice.
fn judged_commands(one: &[Numbered<'_>], other: &[Numbered<'_>], lines: u64) -> Judged {
    if !are_same(one, other) {
        return Judged::Wrong("read twice it is not the same");
    }
    if !are_in_order(one, lines) {
        return Judged::Wrong("its lines are not in order");
    }
    Judged::Admitted { runs: 0 }
}

/// The result for two refusals of a script.
fn unread(one: ScriptFault, other: ScriptFault, lines: u64) -> Judged {
    match one {
        ScriptFault::Line(line) if one == other && 1 <= line && line <= lines => Judged::Refused,
        _ => Judged::Wrong("an unknown fault of a script"),
    }
}

/// Reads a script twice, which must give the same result, for lines that it has.
pub fn judged(alloc: Global, bytes: &[u8]) -> Result<Judged, AllocError> {
    let shapes = shapes(alloc)?;
    let lines = count_lines(bytes);
    let first = read_script(alloc, bytes, &shapes);
    let second = read_script(alloc, bytes, &shapes);
    match (&first, &second) {
        (Ok(one), Ok(other)) => Ok(judged_commands(one, other, lines)),
        (Err(one), Err(other)) => Ok(unread(*one, *other, lines)),
        _ => Ok(Judged::Wrong("read twice it is not the same")),
    }
}
