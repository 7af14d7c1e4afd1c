//! The program as a function of its words and files.

ghost use Rattle.std.specs.Prelude.{◌≡◌, ◌≤◌, IfOk, IfErr};
ghost use Rattle.std.specs.Io.KnownBytes.{Keeps};
ghost use Rattle.apd_words.specs.Asked.{Wanted, asked_of, asked_verdict, asked_listing, asked_slots, asked_run, asked_certificate, asked_check, text_of, texts_of};
ghost use Rattle.apd_words.specs.Spells.{Spells};
ghost use Rattle.apd_files.specs.Held.{Lacks};
ghost use Rattle.apd_program.specs.Faults.{IsMemoryOr, IsGiven};
ghost use Rattle.apd_program.specs.Setups.{IsContext};
ghost use Rattle.apd_program.specs.Texts.{IsAssembly};
ghost use Rattle.apd_program.specs.Answers.{IsAnswer, IsOfText, HasNoAnswer};
ghost use Rattle.apd_program.specs.Program.{Performs, Responds, Runs, Tells};

use crate::answer::Answer;
use crate::certificates::Inquiry;
use crate::explain::Reason;
use crate::fault::{ProgramFault, of_context};
use crate::inputs::{Loaded, Setup, certificate, frame, load, read};
use crate::messages::{complain, print_text, say, say_if_any};
use crate::output::{conclude, deliver};
use crate::verdicts::Stimulus;
use crate::{
    case_files, certificates, eval, explain, frames, graph, help, hints, repeat, texts, verdicts,
};
use apd_files::{FileKind, Files};
use apd_text::context_for;
use apd_words::{Claim, Given, Query, Question, Request, Source, Subject, Told, Trial, read_words};
use bpf_regions::{Context, Frame, Hook};
use std::alloc::Global;
use std::io::{self, ErrorKind, Write};
use std::time::{Clock, Duration};

/// A question, and the clock by which runs are timed.
#[derive(Drop)]
pub struct Posed<'a, C> {
    pub query: Query<'a>,
    pub clock: &'a C,
}

/// A clock that can't be read.
#[derive(Clone, Copy)]
struct NoClock;

impl Clock for NoClock {
    fn monotonic(&self) -> io::Result<Duration> {
        Err(io::Error::from(ErrorKind::Unsupported))
    }

    fn since_1970(&self) -> io::Result<Duration> {
        self.monotonic()
    }
}

/// Does what the words ask for; the first is the program's own name. Returns the exit status: 0 for success; 1 if
/// something was refused or the capture of `frames` is cut; 2 for a fault of the words, a configuration, a file or a
/// write, or if the capture of `eval` is cut; 3 for lack of memory. An answer goes to `out`, or, unless it is a refusal,
/// to the file named for it; all messages go to `err`. No script runs, nor lines as they come, since that takes threads
/// (`perform`): the status is 2. No clock tells how long the runs of `eval --repeat` take.
pub fn apd_main<'a, F: Files, O: Write, E: Write>(
    alloc: Global,
    words: &'a [&'a str],
    files: &mut F,
    out: &mut O,
    err: &mut E,
) -> u8
    ensures status { result ≤ 3 }
    ensures memory { result ≡ 3 → Keeps (O.contents out.old) (O.contents out.new) }
    ensures runs { Runs (texts_of words.entry.now) (F.held files.old)
        (O.contents out.old) (O.contents out.new) result }
    ensures spelled { (w : Wanted) → Spells (texts_of words.entry.now) w
        → Responds (F.held files.old) w (O.contents out.old) (O.contents out.new) result }
{
    match read_words(alloc, words) {
        Ok(Request::Answer(query)) => {
            let clock = &NoClock;
            respond(alloc, Posed { query, clock }, files, out, err)
        }
        Ok(Request::Test(paths)) => case_files::judge_cases(
            alloc,
            paths.as_slice(),
            files,
            out,
            err,
        ),
        Ok(Request::Run(_)) => complain(alloc, &ProgramFault::NoThreads, err),
        Ok(Request::Live(_)) => complain(alloc, &ProgramFault::NoThreads, err),
        Err(told) => tell(alloc, &told, out, err),
    }
}

/// Prints help, or reports a fault of the words or lack of memory, and returns the exit status.
pub fn tell<O: Write, E: Write>(alloc: Global, told: &Told, out: &mut O, err: &mut E) -> u8
    ensures is { Tells told.now (O.contents out.old) (O.contents out.new) result }
{
    match told {
        Told::Help(text) => print_text(alloc, text.as_str(), out, err),
        Told::Fault(text) => {
            say(text.as_str(), err);
            2
        }
        Told::NoMemory => complain(alloc, &ProgramFault::NoMemory, err),
    }
}

/// Writes the answer to a question to standard output, or to the file named for it; returns the exit status.
pub fn respond<C: Clock, F: Files, O: Write, E: Write>(
    alloc: Global,
    posed: Posed<'_, C>,
    files: &mut F,
    out: &mut O,
    err: &mut E,
) -> u8
    ensures is { Performs (F.held files.old)
        (asked_of posed.entry.query.question) (text_of posed.entry.query.output)
        (O.contents out.old) (O.contents out.new) result }
{
    let Posed { query, clock } = posed;
    let Query { question, output } = query;
    let mut reason = Reason::wanted_by(&question);
    match answer(alloc, question, clock, files, &mut reason) {
        Ok(answer) => {
            let sentence = explain::sentence(alloc, &answer, reason.insn());
            let hint = hints::of(alloc, &question, &answer);
            let delivered = deliver(alloc, answer, output, files, out);
            let status = conclude(alloc, delivered, output, err);
            say_if_any(&sentence, err);
            say_if_any(&hint, err);
            say_if_any(reason.text(), err);
            status
        }
        Err(fault) => complain(alloc, &fault, err),
    }
}

fn answer<C: Clock, F: Files>(
    alloc: Global,
    question: Question<'_>,
    clock: &C,
    files: &mut F,
    reason: &mut Reason,
) -> Result<Answer, ProgramFault>
    ensures answer { IfOk result (IsAnswer (F.held files.old) (asked_of question.entry)) }
    ensures fault { IfErr result
        (IsMemoryOr (HasNoAnswer (F.held files.old) (asked_of question.entry))) }
{
    match question {
        Question::Verify { subject, .. } => verify(alloc, subject, files, reason),
        Question::Assemble { file } => assemble(alloc, file, files),
        Question::Disassemble { source, slots } => disassemble(alloc, source, slots, files),
        Question::ListRaw { source, slots } => list_raw(alloc, source, slots, files, reason),
        Question::Graph { source, explain } => {
            graph::graph(alloc, source, explain, files, reason)
        }
        Question::Trace(trial) => trace(alloc, trial, files, reason),
        Question::Evaluate(evaluation) => eval::evaluate(alloc, evaluation, files, reason),
        Question::Repeat(repetition) => repeat::repeat(alloc, repetition, clock, files, reason),
        Question::Explain { number } => explain::page(alloc, number),
        Question::Frames(conversion) => frames::frames(alloc, conversion, files),
        Question::Help { command } => help::help(alloc, command),
        Question::Certify { subject } => certify(alloc, subject, files, reason),
        Question::Check(claim) => check(alloc, claim, files, reason),
    }
}

/// Verifies the code of a file, with the maps of a configuration.
fn verify<F: Files>(
    alloc: Global,
    subject: Subject<'_>,
    files: &mut F,
    reason: &mut Reason,
) -> Result<Answer, ProgramFault>
    ensures verdict { IfOk result (IsAnswer (F.held files.old) (asked_verdict subject.entry)) }
    ensures fault { IfErr result
        (IsMemoryOr (HasNoAnswer (F.held files.old) (asked_verdict subject.entry))) }
{
    let Loaded { code, setup } = load(alloc, subject.source, files)?;
    let answer = verdicts::verify(alloc, code.as_slice(), setup.shapes, subject.terms, reason);
    reason.points_at(alloc, code.as_slice(), &answer);
    answer
}

/// Assembles the text of a file.
fn assemble<F: Files>(alloc: Global, file: &str, files: &mut F) -> Result<Answer, ProgramFault>
    ensures assembly { IfOk result (λ a. IsOfText IsAssembly (F.held files.old) file.now a) }
    ensures fault { IfErr result (IsMemoryOr (Lacks FileKind.Text (F.held files.old) file.now)) }
{
    let text = read(alloc, file, FileKind::Text, files)?;
    texts::assemble(alloc, text.as_slice())
}

/// Disassembles the code of a file, with the maps of a configuration.
fn disassemble<F: Files>(
    alloc: Global,
    source: Source<'_>,
    slots: bool,
    files: &mut F,
) -> Result<Answer, ProgramFault>
    ensures listing { IfOk result
        (IsAnswer (F.held files.old) (asked_listing source.entry slots)) }
    ensures fault { IfErr result
        (IsMemoryOr (HasNoAnswer (F.held files.old) (asked_listing source.entry slots))) }
{
    let Loaded { code, setup } = load(alloc, source, files)?;
    texts::disassemble(alloc, code.as_slice(), setup.shapes, slots)
}

/// Lists all slots of a file's code. The reason says why it isn't a program.
fn list_raw<F: Files>(
    alloc: Global,
    source: Source<'_>,
    slots: bool,
    files: &mut F,
    reason: &mut Reason,
) -> Result<Answer, ProgramFault>
    ensures listing { IfOk result (IsAnswer (F.held files.old) (asked_slots source.entry slots)) }
    ensures fault { IfErr result
        (IsMemoryOr (HasNoAnswer (F.held files.old) (asked_slots source.entry slots))) }
{
    let Loaded { code, setup } = load(alloc, source, files)?;
    reason.tells_faults(alloc, code.as_slice(), setup.shapes);
    texts::list_raw(alloc, code.as_slice(), slots)
}

/// Runs the code of a file on the frame that a word spells.
fn trace<F: Files>(
    alloc: Global,
    trial: Trial<'_>,
    files: &mut F,
    reason: &mut Reason,
) -> Result<Answer, ProgramFault>
    ensures run { IfOk result (IsAnswer (F.held files.old) (asked_run trial.entry)) }
    ensures fault { IfErr result
        (IsMemoryOr (HasNoAnswer (F.held files.old) (asked_run trial.entry))) }
{
    let subject = trial.subject;
    let Loaded { code, setup } = load(alloc, subject.source, files)?;
    let bytes = frame(alloc, trial.frame)?;
    let Some(frame) = Frame::new(bytes.as_slice()) else {
        return Err(ProgramFault::LongFrame);
    };
    let context = context(alloc, subject.terms.hook, bytes.as_slice(), trial.given)?;
    let Setup { shapes, draw } = setup;
    let stimulus = Stimulus {
        terms: subject.terms,
        frame: &frame,
        context: &context,
        draw,
    };
    let answer = verdicts::trace(alloc, code.as_slice(), shapes, stimulus, reason);
    reason.points_at(alloc, code.as_slice(), &answer);
    answer
}

/// The context of a traced program on a frame.
fn context(
    alloc: Global,
    hook: Hook,
    frame: &[u8],
    given: Given<'_>,
) -> Result<Context, ProgramFault>
    ensures context { IfOk result
        (IsContext hook (text_of given.entry.context) given.entry.from_frame) }
    ensures fault { IfErr result
        (IsMemoryOr (IsGiven (text_of given.entry.context) given.entry.from_frame)) }
{
    match context_for(hook, frame, given.context, given.from_frame) {
        Ok(context) => Ok(context),
        Err(fault) => Err(of_context(alloc, fault)),
    }
}

/// Makes the certificate of a file's program, with the maps of a configuration.
fn certify<F: Files>(
    alloc: Global,
    subject: Subject<'_>,
    files: &mut F,
    reason: &mut Reason,
) -> Result<Answer, ProgramFault>
    ensures certificate { IfOk result
        (IsAnswer (F.held files.old) (asked_certificate subject.entry)) }
    ensures fault { IfErr result
        (IsMemoryOr (HasNoAnswer (F.held files.old) (asked_certificate subject.entry))) }
{
    let Loaded { code, setup } = load(alloc, subject.source, files)?;
    let answer = certificates::certify(alloc, code.as_slice(), setup.shapes, subject.terms);
    reason.points_at(alloc, code.as_slice(), &answer);
    answer
}

/// Checks the certificate in a file for the program in another.
fn check<F: Files>(
    alloc: Global,
    claim: Claim<'_>,
    files: &mut F,
    reason: &mut Reason,
) -> Result<Answer, ProgramFault>
    ensures checked { IfOk result (IsAnswer (F.held files.old) (asked_check claim.entry)) }
    ensures fault { IfErr result
        (IsMemoryOr (HasNoAnswer (F.held files.old) (asked_check claim.entry))) }
{
    let Loaded { code, setup } = load(alloc, claim.source, files)?;
    let bytes = certificate(alloc, claim.certificate, files)?;
    reason.suspects_exchange(alloc, code.as_slice());
    let inquiry = Inquiry {
        hook: claim.hook,
        bytes: bytes.as_slice(),
        work: claim.work,
    };
    certificates::check(alloc, code.as_slice(), setup.shapes, inquiry)
}
