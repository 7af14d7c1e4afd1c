//! Reading lines as they come, malformed ones beside commands.

ghost use Rattle.std.specs.Prelude.{◌≡◌, ◌≤◌, ◌^◌, ◌↔◌, [], Some, IsTrue, IfOk, OnErr, IfSome, IfNone, ◌⊎◌};
ghost use Rattle.apd_script.specs.Asked.{commands_of};
ghost use Rattle.apd_script.specs.Batches.{numbers_of, questions_of, own_questions, IsMalformed, IsQuit, BeginsWithQuit, HasNoLine, Says, Adds, Leaves, Takes, Earlier, Continues, Stops, after_wait};
ghost use Rattle.apd_script.specs.Script.{Cuts};

use crate::command::{Command, Numbered};
use crate::line::{next_word, read_line};
use crate::question::{NumberedQuestion, Question, read_question};
use crate::read::first_line;
use crate::why::{LineFault, live_fault};
use bpf_regions::Shapes;
use std::alloc::{AllocError, Global};
use std::str;

/// The most bytes of a line that is read as it comes.
pub const MOST_BYTES: usize = 8192;

/// The most lines of a batch.
const MOST_LINES: u64 = 4096;

/// A malformed line: its number, and why it is malformed.
#[derive(Clone, Copy, Debug)]
pub struct MalformedLine<'a> {
    pub line: u64,
    pub fault: LineFault<'a>,
}

/// Whole lines at the beginning of a text: their commands, the malformed ones, the question that the last one asks, if it
/// does, how many they are, and the text behind them.
#[derive(Drop)]
pub struct Batch<'a> {
    pub commands: Vec<Numbered<'a>>,
    pub malformed: Vec<MalformedLine<'a>>,
    pub question: Option<NumberedQuestion>,
    pub lines: u64,
    pub rest: &'a [u8],
}

/// What a line says that is read as it comes.
#[derive(Clone, Copy)]
enum Said<'a> {
    Nothing,
    Command(Command<'a>),
    Question(Question),
}

/// What a line that was added means for a batch.
#[derive(Clone, Copy)]
enum Added {
    GoesOn,
    /// The line is a `wait`.
    Waits,
    Asks(Question),
}

/// Whether a line is `quit`.
fn is_quit(line: &[u8]) -> bool
    ensures is { IsTrue result ↔ IsQuit line.now }
{
    let Ok(text) = str::from_utf8(line) else {
        return false;
    };
    match next_word(text) {
        Some((word, rest)) => word == "quit" && next_word(rest).is_none(),
        None => false,
    }
}

/// What a line says, or why it is malformed.
fn take_line<'a>(shapes: &Shapes, line: &'a [u8]) -> Result<Said<'a>, LineFault<'a>>
    ensures says { IfOk result (Says shapes.now line.entry.now) }
    ensures malformed { OnErr result (IsMalformed shapes.now line.entry.now) }
{
    if line.len() > MOST_BYTES {
        return Err(LineFault::TooLong);
    }
    match read_line(shapes, line) {
        Ok(Some(command)) => return Ok(Said::Command(command)),
        Ok(None) => return Ok(Said::Nothing),
        Err(_) => match read_question(shapes, line) {
            Some(question) => return Ok(Said::Question(question)),
            None => return Err(fault_of(shapes, line)),
        },
    }
}

/// Why a malformed line is malformed.
fn fault_of<'a>(shapes: &Shapes, line: &'a [u8]) -> LineFault<'a> {
    match live_fault(line, shapes) {
        Some(fault) => fault,
        None => LineFault::Other,
    }
}

/// Adds the line with this number to the commands or to the malformed lines, unless it is a question.
fn add_line<'a>(
    commands: &mut Vec<Numbered<'a>>,
    malformed: &mut Vec<MalformedLine<'a>>,
    shapes: &Shapes,
    line: &'a [u8],
    number: u64,
) -> Result<Added, AllocError>
    ensures adds { IfOk result (λ added. Adds shapes.now number line.entry.now
        (commands_of commands.old.items) (numbers_of malformed.old.items)
        (commands_of commands.new.items) (numbers_of malformed.new.items)
        (own_questions number added)) }
    ensures leaves { IfOk result (λ added. Leaves added commands.old.items commands.new.items) }
{
    match take_line(shapes, line) {
        Ok(Said::Command(command)) => {
            let waits = matches!(&command, Command::Wait);
            commands.reserve(1)?;
            commands.push_reserved(Numbered {
                line: number,
                command,
            });
            if waits {
                return Ok(Added::Waits);
            }
            return Ok(Added::GoesOn);
        }
        Ok(Said::Nothing) => return Ok(Added::GoesOn),
        Ok(Said::Question(question)) => return Ok(Added::Asks(question)),
        Err(fault) => {
            malformed.reserve(1)?;
            malformed.push_reserved(MalformedLine {
                line: number,
                fault,
            });
            return Ok(Added::GoesOn);
        }
    }
}

/// The first line of a text and the text behind its line feed, unless the line is `quit`, or the text has no line feed.
fn next_line(text: &[u8]) -> Option<(&[u8], &[u8])>
    ensures cut { IfSome result (λ x. Cuts text.now x.0.now (Some x.1)) }
    ensures goes_on { IfSome result (λ x. IsQuit x.0.now → ⊥) }
    ensures none { IfNone result (BeginsWithQuit text.now ⊎ HasNoLine text.now) }
{
    let (line, next) = first_line(text);
    let next = next?;
    if is_quit(line) {
        return None;
    }
    Some((line, next))
}

/// Whether the first line of a text is `quit`, and the text has a line feed.
pub fn begins_with_quit(text: &[u8]) -> bool
    ensures is { IsTrue result ↔ BeginsWithQuit text.now }
{
    match first_line(text) {
        (line, Some(_)) => is_quit(line),
        (_, None) => false,
    }
}

/// Takes whole lines from the beginning of a text, the first of which has this number: up to and including the first
/// `wait` or question, up to a line `quit`, or 4096 lines. A malformed line, or one of more than 8192 bytes, asks for
/// nothing and is listed beside the commands. `shapes` are the shapes of the configured maps. If the text is what earlier
/// lines left, and what came later, then all lines together are those of the whole text: lines don't depend on how a text
/// is divided.
pub fn read_batch<'a>(
    alloc: Global,
    text: &'a [u8],
    shapes: &Shapes,
    first: u64,
) -> Result<Batch<'a>, AllocError>
    requires countable { first ≤ 2 ^ 63 }
    ensures takes { IfOk result (λ batch. Takes shapes.now first text.entry.now
        (commands_of batch.commands.items) (numbers_of batch.malformed.items)
        (questions_of batch.question) batch.lines batch.rest.now) }
    ensures continues { IfOk result (λ batch. (e : Earlier shapes.now first text.entry.now)
        → Continues e (commands_of batch.commands.items) (numbers_of batch.malformed.items)
        (questions_of batch.question) batch.lines batch.rest.now) }
    ensures few { IfOk result (λ batch. batch.lines ≤ 4096) }
    ensures waits { IfOk result (λ batch. after_wait batch.commands.items ≡ []) }
    ensures stops { IfOk result (λ batch.
        Stops batch.commands.items batch.question batch.lines batch.rest.now) }
{
    let mut commands = Vec::new(alloc);
    let mut malformed = Vec::new(alloc);
    let mut lines = 0u64;
    let mut rest = text;
    'lines: while let Some((line, next)) = next_line(rest) {
        let number = first + lines;
        let added = add_line(&mut commands, &mut malformed, shapes, line, number)?;
        rest = next;
        lines += 1;
        let question = match added {
            Added::GoesOn if lines < MOST_LINES => continue,
            Added::GoesOn | Added::Waits => None,
            Added::Asks(question) => Some(NumberedQuestion {
                line: number,
                question,
            }),
        };
        return Ok(Batch {
            commands,
            malformed,
            question,
            lines,
            rest,
        });
    }
    Ok(Batch {
        commands,
        malformed,
        question: None,
        lines,
        rest,
    })
}
