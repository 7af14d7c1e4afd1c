//! What the parser's matches ask for.

ghost use Rattle.std.specs.Prelude.{◌≡◌, ◌≤◌, ◌^◌, IfOk, IfSome, option_map, codes};
ghost use Rattle.clap.specs.Matches.{found_of};
ghost use Rattle.clap.specs.Simple.{subcommand_rows_of};
ghost use Rattle.clap.specs.Walk.{all_of, first_of, rows_of};
ghost use Rattle.apd_words.specs.Asked.{asked_of, command_asks, answers_to, wanted_of, wanted_in, asked_verdict, asked_certificate, hook_named, hook_at, report_at, workers_named, states_named, states_at, work_named, work_at, repeats_named, repeats_at, verify_of, assemble_of, disassemble_of, trace_of, evaluate_of, run_of, live_of, certify_of, check_of, explain_of, frames_of, test_of, help_of, is_set, texts_of};

use crate::command::{MOST_REPEATS, MOST_STATES, MOST_WORK};
use crate::{
    CaptureWords, Claim, Conversion, Evaluation, Given, LiveRun, Query, Question, Repetition,
    Report, Request, ScriptRun, Source, Subject, Terms, Trial,
};
use bpf_regions::Hook;
use clap::ArgMatches;
use std::alloc::{AllocError, Global};

/// The request of the matches; `None` only if the parser omitted what it requires.
pub(crate) fn request<'a>(
    alloc: Global,
    matches: &ArgMatches<'a>,
) -> Result<Option<Request<'a>>, AllocError>
    ensures is { IfOk result (λ request. option_map wanted_of request
        ≡ wanted_in (subcommand_rows_of matches.now)) }
{
    let Some((name, matches)) = matches.subcommand() else {
        return Ok(None);
    };
    match name {
        "run" => Ok(run(matches)),
        "live" => Ok(live(matches)),
        "test" => test(alloc, matches),
        _ => Ok(answer(name, matches)),
    }
}

/// The request of a command that runs no script.
fn answer<'a>(name: &str, matches: &ArgMatches<'a>) -> Option<Request<'a>>
    ensures is { option_map wanted_of result
        ≡ answers_to name.now (rows_of (found_of matches.now)) }
{
    let question = question(name, matches)?;
    let output = value(matches, "output");
    Some(Request::Answer(Query { question, output }))
}

fn question<'a>(name: &str, matches: &ArgMatches<'a>) -> Option<Question<'a>>
    ensures is { option_map asked_of result
        ≡ command_asks name.now (rows_of (found_of matches.now)) }
{
    match name {
        "verify" => verify(matches),
        "asm" => assemble(matches),
        "disasm" => disassemble(matches),
        "trace" => trace(matches),
        "eval" => evaluate(matches),
        "cert" => certify(matches),
        "check" => check(matches),
        "explain" => explain(matches),
        "frames" => frames(matches),
        "help" => help(matches),
        _ => None,
    }
}

fn verify<'a>(matches: &ArgMatches<'a>) -> Option<Question<'a>>
    ensures is { option_map asked_of result ≡ verify_of (rows_of (found_of matches.now)) }
{
    let subject = subject(matches)?;
    let explain = flag(matches, "explain");
    Some(Question::Verify { subject, explain })
}

fn assemble<'a>(matches: &ArgMatches<'a>) -> Option<Question<'a>>
    ensures is { option_map asked_of result ≡ assemble_of (rows_of (found_of matches.now)) }
{
    let file = value(matches, "FILE")?;
    Some(Question::Assemble { file })
}

fn disassemble<'a>(matches: &ArgMatches<'a>) -> Option<Question<'a>>
    ensures is { option_map asked_of result ≡ disassemble_of (rows_of (found_of matches.now)) }
{
    let file = value(matches, "FILE")?;
    let config = value(matches, "config");
    let slots = flag(matches, "slots");
    let source = Source { file, config };
    if flag(matches, "dot") {
        let explain = flag(matches, "explain");
        Some(Question::Graph { source, explain })
    } else if flag(matches, "raw") {
        Some(Question::ListRaw { source, slots })
    } else {
        Some(Question::Disassemble { source, slots })
    }
}

fn trace<'a>(matches: &ArgMatches<'a>) -> Option<Question<'a>>
    ensures is { option_map asked_of result ≡ trace_of (rows_of (found_of matches.now)) }
{
    let hook = hook(matches)?;
    let file = value(matches, "FILE")?;
    let frame = value(matches, "FRAME")?;
    let config = value(matches, "config");
    let states = states(matches)?;
    let work = work(matches);
    let explain = flag(matches, "explain");
    let source = Source { file, config };
    let terms = Terms { hook, states, work };
    Some(Question::Trace(Trial {
        subject: Subject { source, terms },
        frame,
        given: given(matches),
        explain,
    }))
}

fn evaluate<'a>(matches: &ArgMatches<'a>) -> Option<Question<'a>>
    ensures is { option_map asked_of result ≡ evaluate_of (rows_of (found_of matches.now)) }
{
    let hook = hook(matches)?;
    let file = value(matches, "FILE")?;
    let capture = value(matches, "CAPTURE")?;
    let config = value(matches, "config");
    let against = value(matches, "against");
    let states = states(matches)?;
    let work = work(matches);
    let report = report(matches);
    let source = Source { file, config };
    let terms = Terms { hook, states, work };
    let evaluation = Evaluation {
        subject: Subject { source, terms },
        capture,
        against,
        report,
    };
    match repeats(matches) {
        Some(times) => Some(Question::Repeat(Repetition { evaluation, times })),
        None => Some(Question::Evaluate(evaluation)),
    }
}

/// What `--dot`, `--profile` and `-j` ask for.
fn report(matches: &ArgMatches<'_>) -> Report
    ensures is { result ≡ report_at (rows_of (found_of matches.now)) }
{
    if flag(matches, "dot") {
        return Report::ProfileGraph;
    }
    let json = flag(matches, "json");
    match (flag(matches, "profile"), json) {
        (true, true) => Report::ProfileJson,
        (true, false) => Report::Profile,
        (false, true) => Report::VerdictsJson,
        (false, false) => Report::Verdicts,
    }
}

fn run<'a>(matches: &ArgMatches<'a>) -> Option<Request<'a>>
    ensures is { option_map wanted_of result ≡ run_of (rows_of (found_of matches.now)) }
{
    let config = value(matches, "C")?;
    let script = value(matches, "SCRIPT")?;
    let workers = workers_named(value(matches, "workers")?)?;
    let states = states(matches)?;
    let work = work(matches);
    let quiet = flag(matches, "quiet");
    let strict = flag(matches, "strict");
    let verbose = flag(matches, "verbose");
    Some(Request::Run(ScriptRun {
        config,
        script,
        workers,
        states,
        work,
        quiet,
        strict,
        verbose,
        capture: capture(matches),
    }))
}

fn live<'a>(matches: &ArgMatches<'a>) -> Option<Request<'a>>
    ensures is { option_map wanted_of result ≡ live_of (rows_of (found_of matches.now)) }
{
    let config = value(matches, "C")?;
    let workers = workers_named(value(matches, "workers")?)?;
    let states = states(matches)?;
    let work = work(matches);
    let strict = flag(matches, "strict");
    let verbose = flag(matches, "verbose");
    let clock = flag(matches, "clock");
    let events = value(matches, "events");
    let color = value(matches, "color");
    Some(Request::Live(LiveRun {
        config,
        workers,
        states,
        work,
        strict,
        verbose,
        clock,
        events,
        color,
        capture: capture(matches),
    }))
}

/// The capture of a run.
fn capture<'a>(matches: &ArgMatches<'a>) -> CaptureWords<'a>
    ensures path { option_map (λ text. text.now) result.path
        ≡ first_of (codes "pcap") (rows_of (found_of matches.now)) }
    ensures replaces { result.replaces
        ≡ is_set (codes "force") (rows_of (found_of matches.now)) }
{
    CaptureWords {
        path: value(matches, "pcap"),
        replaces: flag(matches, "force"),
    }
}

fn certify<'a>(matches: &ArgMatches<'a>) -> Option<Question<'a>>
    ensures is { option_map asked_of result ≡ certify_of (rows_of (found_of matches.now)) }
{
    let subject = subject(matches)?;
    Some(Question::Certify { subject })
}

fn check<'a>(matches: &ArgMatches<'a>) -> Option<Question<'a>>
    ensures is { option_map asked_of result ≡ check_of (rows_of (found_of matches.now)) }
{
    let hook = hook(matches)?;
    let file = value(matches, "FILE")?;
    let certificate = value(matches, "CERT")?;
    let config = value(matches, "config");
    let work = work(matches);
    let source = Source { file, config };
    Some(Question::Check(Claim {
        hook,
        source,
        certificate,
        work,
    }))
}

fn explain<'a>(matches: &ArgMatches<'a>) -> Option<Question<'a>>
    ensures is { option_map asked_of result ≡ explain_of (rows_of (found_of matches.now)) }
{
    let number = value(matches, "NUMBER");
    Some(Question::Explain { number })
}

fn frames<'a>(matches: &ArgMatches<'a>) -> Option<Question<'a>>
    ensures is { option_map asked_of result ≡ frames_of (rows_of (found_of matches.now)) }
{
    let capture = value(matches, "CAPTURE")?;
    let ticks = !flag(matches, "no-ticks");
    let bssid = value(matches, "bssid");
    let all = flag(matches, "all");
    Some(Question::Frames(Conversion {
        capture,
        ticks,
        bssid,
        all,
    }))
}

fn test<'a>(alloc: Global, matches: &ArgMatches<'a>) -> Result<Option<Request<'a>>, AllocError>
    ensures is { IfOk result (λ request. option_map wanted_of request
        ≡ test_of (rows_of (found_of matches.now))) }
{
    let Some(files) = values(matches, "FILE") else {
        return Ok(None);
    };
    let files = Vec::from_slice(alloc, files)?;
    Ok(Some(Request::Test(files)))
}

fn help<'a>(matches: &ArgMatches<'a>) -> Option<Question<'a>>
    ensures is { option_map asked_of result ≡ help_of (rows_of (found_of matches.now)) }
{
    let command = value(matches, "COMMAND");
    Some(Question::Help { command })
}

/// The context of a traced program.
fn given<'a>(matches: &ArgMatches<'a>) -> Given<'a>
    ensures context { option_map (λ text. text.now) result.context
        ≡ first_of (codes "context") (rows_of (found_of matches.now)) }
    ensures from_frame { result.from_frame
        ≡ is_set (codes "from-frame") (rows_of (found_of matches.now)) }
{
    Given {
        context: value(matches, "context"),
        from_frame: flag(matches, "from-frame"),
    }
}

/// The program that `verify` and `cert` name.
fn subject<'a>(matches: &ArgMatches<'a>) -> Option<Subject<'a>>
    ensures verdict { option_map asked_verdict result ≡ verify_of (rows_of (found_of matches.now)) }
    ensures certificate { option_map asked_certificate result
        ≡ certify_of (rows_of (found_of matches.now)) }
{
    let hook = hook(matches)?;
    let file = value(matches, "FILE")?;
    let config = value(matches, "config");
    let states = states(matches)?;
    let work = work(matches);
    let source = Source { file, config };
    let terms = Terms { hook, states, work };
    Some(Subject { source, terms })
}

fn flag(matches: &ArgMatches<'_>, name: &str) -> bool
    ensures is { result ≡ is_set name.now (rows_of (found_of matches.now)) }
{
    match value(matches, name) {
        Some(text) => text == "true",
        None => false,
    }
}

fn value<'a>(matches: &ArgMatches<'a>, name: &str) -> Option<&'a str>
    ensures is { option_map (λ text. text.now) result
        ≡ first_of name.now (rows_of (found_of matches.now)) }
{
    matches.get_str(name)
}

fn values<'b, 'a>(matches: &'b ArgMatches<'a>, name: &str) -> Option<&'b [&'a str]>
    ensures is { option_map (λ words. texts_of words.now) result
        ≡ all_of name.now (rows_of (found_of matches.now)) }
{
    matches.get_raw(name)
}

fn hook(matches: &ArgMatches<'_>) -> Option<Hook>
    ensures is { result ≡ hook_at (rows_of (found_of matches.now)) }
{
    let name = value(matches, "HOOK")?;
    hook_named(name)
}

fn hook_named(text: &str) -> Option<Hook>
    ensures is { result ≡ hook_named text.now }
{
    if text == "assoc" {
        Some(Hook::Association)
    } else if text == "addba" {
        Some(Hook::Addba)
    } else if text == "data" {
        Some(Hook::Data)
    } else {
        None
    }
}

fn workers_named(text: &str) -> Option<u8>
    ensures is { result ≡ workers_named text.now }
    ensures from { IfSome result (λ workers. 1 ≤ workers) }
    ensures to { IfSome result (λ workers. workers ≤ 8) }
{
    match text {
        "1" => Some(1),
        "2" => Some(2),
        "3" => Some(3),
        "4" => Some(4),
        "5" => Some(5),
        "6" => Some(6),
        "7" => Some(7),
        "8" => Some(8),
        _ => None,
    }
}

fn states(matches: &ArgMatches<'_>) -> Option<u32>
    ensures is { result ≡ states_at (rows_of (found_of matches.now)) }
    ensures from { IfSome result (λ states. 1 ≤ states) }
    ensures to { IfSome result (λ states. states ≤ 2 ^ 22) }
{
    let text = value(matches, "states")?;
    states_named(text)
}

fn states_named(text: &str) -> Option<u32>
    ensures is { result ≡ states_named text.now }
    ensures from { IfSome result (λ states. 1 ≤ states) }
    ensures to { IfSome result (λ states. states ≤ 2 ^ 22) }
{
    match text.parse::<u32>() {
        Ok(states) if 1 <= states && states <= MOST_STATES => Some(states),
        _ => None,
    }
}

fn work(matches: &ArgMatches<'_>) -> Option<u64>
    ensures is { result ≡ work_at (rows_of (found_of matches.now)) }
    ensures from { IfSome result (λ work. 1 ≤ work) }
{
    let text = value(matches, "work")?;
    work_named(text)
}

fn work_named(text: &str) -> Option<u64>
    ensures is { result ≡ work_named text.now }
    ensures from { IfSome result (λ work. 1 ≤ work) }
{
    match text.parse::<u64>() {
        Ok(work) if 1 <= work && work <= MOST_WORK => Some(work),
        _ => None,
    }
}

fn repeats(matches: &ArgMatches<'_>) -> Option<u32>
    ensures is { result ≡ repeats_at (rows_of (found_of matches.now)) }
    ensures from { IfSome result (λ times. 1 ≤ times) }
{
    let text = value(matches, "repeat")?;
    repeats_named(text)
}

fn repeats_named(text: &str) -> Option<u32>
    ensures is { result ≡ repeats_named text.now }
    ensures from { IfSome result (λ times. 1 ≤ times) }
{
    match text.parse::<u32>() {
        Ok(times) if 1 <= times && times <= MOST_REPEATS => Some(times),
        _ => None,
    }
}
