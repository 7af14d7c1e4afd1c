//! Runs of an accepted policy.

ghost use Rattle.std.specs.Prelude.{◌≡◌, ◌<◌, map, slice_get, slice_index, IfOk, IfSome, OnOk};
ghost use Rattle.bpf_regions.specs.Hooks.{number_of};
ghost use Rattle.bpf_regions.specs.Maps.{IsShape, word_count};
ghost use Rattle.bpf_model.specs.Run.{words_in};
ghost use Rattle.bpf_helpers.specs.Plain.{shapes_of};
ghost use Rattle.apd_cases.specs.Situations.{preset_of, situation_of};
ghost use Rattle.apd_trials.specs.Trials.{word_in, word_at, stored, asked_size, on_status, verdict_of, HasWord, IsRun, RunShows, Shows, Finds};

use crate::admission::Admission;
use crate::fault::{Trouble, of_given};
use crate::found::Found;
use apd_cases::{Expectation, Place, Preset, Situation, Verdict};
use apd_script::{MapWord, next_word};
use apd_text::{ContextFault, context_for};
use bpf_helpers::PlainPort;
use bpf_machine::{Accepted, Outcome, Port, run};
use bpf_regions::{Context, Frame, Hook, MapOp, Shape, Shapes};
use hooks::{DataVerdict, addba_verdict, assoc_verdict, data_verdict};
use mac_types::{BufferSize, Status};
use std::alloc::{AllocError, Global};

/// What a run leaves: its outcome, the size that its context asks for, and the maps.
#[derive(Drop)]
pub struct Ended {
    pub outcome: Outcome,
    pub asked: BufferSize,
    pub port: PlainPort,
}

/// The word at a place of a map with this shape, if it has it.
fn word_in(place: Place, shape: Shape) -> Option<MapWord>
    requires { IsShape shape }
    ensures is { result ≡ word_in place shape }
    ensures map { IfSome result (λ word. word.map ≡ place.map) }
    ensures within { IfSome result (λ word. word.word < word_count shape) }
{
    if place.entry < shape.entries && place.word < shape.words {
        Some(MapWord {
            map: place.map,
            word: place.entry * shape.words + place.word,
        })
    } else {
        None
    }
}

/// The word at a place of maps with these shapes, if they have it.
fn word_at(shapes: &Shapes, place: Place) -> Option<MapWord>
    ensures is { result ≡ word_at shapes.now place }
    ensures within { IfSome result (λ word. word.word < words_in (slice_get shapes.now word.map)) }
{
    let shape = shapes.get(place.map)?;
    word_in(place, shape)
}

/// Stores the words of a situation, one after another.
fn store_presets(port: &mut PlainPort, shapes: &Shapes, presets: &[Preset]) -> Result<(), Trouble>
    requires shapes { shapes_of port.old ≡ shapes.now }
    ensures stored { OnOk result
        (port.new ≡ stored shapes.now port.old (map preset_of presets.now)) }
    ensures shapes { OnOk result (shapes_of port.new ≡ shapes.now) }
{
    let mut rest = presets;
    while let Some((preset, others)) = rest.split_first() {
        match word_at(shapes, preset.place) {
            Some(word) => port.access(word.map, word.word, MapOp::Store(preset.value)),
            None => return Err(Trouble::NoWord(preset.place)),
        };
        rest = others;
    }
    Ok(())
}

/// Words as one text, separated by commas.
fn joined(alloc: Global, words: &str) -> Result<String, AllocError> {
    let mut text = String::new(alloc);
    let mut rest = words;
    while let Some((word, after)) = next_word(rest) {
        if !text.is_empty() {
            text.push(',')?;
        }
        text.push_str(word)?;
        rest = after;
    }
    Ok(text)
}

/// The context of a run: what is given, otherwise the frame's own fields if the hook judges such frames, otherwise 0.
fn context_of(alloc: Global, hook: Hook, frame: &[u8], given: &str) -> Result<Context, Trouble>
    ensures hook { IfOk result (λ context. slice_index context 6 ≡ number_of hook) }
{
    let text = joined(alloc, given)?;
    let words = if text.is_empty() {
        None
    } else {
        Some(text.as_str())
    };
    match context_for(hook, frame, words, true) {
        Ok(context) => Ok(context),
        Err(ContextFault::OtherFrame(_)) => match context_for(hook, frame, words, false) {
            Ok(context) => Ok(context),
            Err(fault) => Err(of_given(alloc, fault)),
        },
        Err(fault) => Err(of_given(alloc, fault)),
    }
}

/// The size that an ADDBA request asks for, by its context.
fn asked_size(context: &Context) -> BufferSize
    ensures is { result ≡ asked_size context.now }
{
    let bytes = context.bytes();
    let number = u16::from(bytes[12]) + 256 * u16::from(bytes[13]);
    match BufferSize::new(number % 1024) {
        Some(size) => size,
        None => unreachable!(),
    }
}

fn on_status(status: Status) -> Verdict
    ensures is { result ≡ on_status status }
{
    match status.code() {
        0 => Verdict::Admit,
        code => Verdict::Refuse(code),
    }
}

/// What R0 means to the link.
fn verdict_of(hook: Hook, r0: u64, asked: BufferSize) -> Verdict
    ensures is { result ≡ verdict_of hook r0 asked }
{
    match hook {
        Hook::Association => on_status(assoc_verdict(r0)),
        Hook::Addba => match addba_verdict(r0, asked) {
            Some(size) => Verdict::Size(size),
            None => Verdict::Decline,
        },
        Hook::Data => match data_verdict(r0) {
            DataVerdict::Pass(mark) => Verdict::Pass(mark),
            DataVerdict::Discard => Verdict::Discard,
        },
    }
}

/// Runs a program on the frame of a situation.
fn run_in(
    alloc: Global,
    program: &Accepted,
    draw: u64,
    situation: &Situation<'_>,
) -> Result<Ended, Trouble>
    ensures run { IfOk result (IsRun (situation_of situation.now) program.now draw) }
    ensures shapes { IfOk result (λ ended. shapes_of ended.port ≡ program.now.code.shapes) }
{
    let Some(text) = situation.frame else {
        return Err(Trouble::NoFrame);
    };
    let bytes = text.bytes(alloc)?;
    let Some(frame) = Frame::new(bytes.as_slice()) else {
        return Err(Trouble::LongFrame);
    };
    let context = context_of(alloc, program.hook(), bytes.as_slice(), situation.given)?;
    let shapes = program.program().shapes();
    let stations = situation.stations.count;
    let mut port = PlainPort::new(alloc, shapes, situation.clock, stations, draw)?;
    store_presets(&mut port, shapes, situation.presets.as_slice())?;
    let outcome = run(program, &frame, &context, &mut port);
    let asked = asked_size(&context);
    Ok(Ended {
        outcome,
        asked,
        port,
    })
}

/// What a word of the maps holds after a run.
fn word_after(shapes: &Shapes, port: PlainPort, place: Place) -> Result<Found, Trouble>
    requires shapes { shapes_of port ≡ shapes.now }
    ensures holds { IfOk result (HasWord shapes.now port place) }
{
    let Some(word) = word_at(shapes, place) else {
        return Err(Trouble::NoWord(place));
    };
    let mut port = port;
    let value = port.access(word.map, word.word, MapOp::Load);
    Ok(Found::Holds(value))
}

/// What a run shows for an expectation.
fn shown(program: &Accepted, ended: Ended, expectation: Expectation) -> Result<Found, Trouble>
    requires shapes { shapes_of ended.port ≡ program.now.code.shapes }
    ensures shown { IfOk result (RunShows program.now ended expectation) }
{
    let Ended {
        outcome,
        asked,
        port,
    } = ended;
    let Outcome { r0, steps, notes } = outcome;
    match expectation {
        Expectation::Note(_) => Ok(Found::Noted(notes)),
        Expectation::Word { place, .. } => word_after(program.program().shapes(), port, place),
        _ => Ok(Found::Ran {
            verdict: verdict_of(program.hook(), r0, asked),
            steps,
        }),
    }
}

/// What an accepted program shows for an expectation.
fn of_accepted(
    alloc: Global,
    program: &Accepted,
    draw: u64,
    situation: &Situation<'_>,
    expectation: Expectation,
) -> Result<Found, Trouble>
    ensures shown { IfOk result
        (Shows (situation_of situation.now) program.now draw expectation) }
{
    match expectation {
        Expectation::Refused(_) | Expectation::Budget(_) => Ok(Found::Accepted {
            budget: program.budget(),
        }),
        _ => {
            let ended = run_in(alloc, program, draw, situation)?;
            shown(program, ended, expectation)
        }
    }
}

/// What is found for an expectation, of a policy that was judged.
pub(crate) fn find(
    alloc: Global,
    admission: &Admission,
    situation: &Situation<'_>,
    expectation: Expectation,
) -> Result<Found, Trouble>
    ensures found { IfOk result (Finds (situation_of situation.now) admission.now expectation) }
{
    match admission {
        Admission::Accepted { program, draw } => {
            of_accepted(alloc, program, *draw, situation, expectation)
        }
        Admission::Unadmitted(why) => Ok(Found::Unadmitted(*why)),
    }
}
