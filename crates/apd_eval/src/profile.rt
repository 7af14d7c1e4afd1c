//! How many steps a program makes at each of its instructions, on a capture's queries.

ghost use Rattle.std.specs.Prelude.{◌≡◌, [], ◌∷◌, ◌++◌, IfOk, length, replicate, slice_get, slice_index, true, false};
ghost use Rattle.std.specs.String.{string_bytes};
ghost use Rattle.bpf_machine.specs.Verified.{Verified};
ghost use Rattle.capture.specs.Walks.{packets_in};
ghost use Rattle.apd_eval.specs.declared.profile.ProfileForm.TheVariants.{Table, Json};
ghost use Rattle.bpf_line.specs.Spellings.{text_of};
ghost use Rattle.apd_eval.specs.Table.{column};
ghost use Rattle.apd_eval.specs.Profile.{profile_line, json_line, line_of, line_at, slot_lines, most_of, is_json, IsFormed, IsProfile, IsUncounted};
ghost use Rattle.apd_eval.specs.Sums.{judged_of, totals_in, totals_text};

use crate::follow::{Replay, follow};
use crate::meter::Meter;
use crate::sums::{Course, totals_text};
use crate::tally::Tally;
use crate::tried::{Policy, Tried};
use apd_policies::{Overlay, graph_text};
use bpf_decode::Program;
use bpf_insn::Insn;
use bpf_line::InsnText;
use bpf_machine::Accepted;
use std::alloc::{AllocError, Global};
use std::fmt::Write;

/// The heads of the columns.
const HEADS: &str = "steps     slot  instruction\n";

/// How a profile is told.
#[derive(Clone, Copy)]
pub enum ProfileForm {
    /// A line for each instruction, and a line of sums.
    Table,
    /// A line of JSON for each instruction at which a step was made, and one of sums.
    Json,
    /// The control-flow graph, for graphviz.
    Graph,
}

/// A program, and how many steps were made at each of its slots.
#[derive(Clone, Copy)]
struct Profile<'a> {
    program: &'a Program,
    counts: &'a [u64],
}

/// An instruction with its slot, and how many steps were made there.
#[derive(Clone, Copy)]
pub struct Spot {
    pub slot: usize,
    pub steps: u64,
    pub insn: Insn,
}

/// The number at a slot; 0 past the end.
fn steps_at(counts: &[u64], slot: usize) -> u64
    ensures is { result ≡ slice_index counts.now slot }
{
    match counts.get(slot) {
        Some(count) => *count,
        None => 0,
    }
}

/// The greatest of some numbers; 0 of none.
fn most_of(counts: &[u64]) -> u64
    ensures is { result ≡ most_of counts.now }
{
    let mut most = 0;
    for count in counts {
        most = (*count).max(most);
    }
    most
}

/// Appends the cells of an instruction.
fn append_cells(text: &mut String, steps: &str, slot: &str, insn: Insn) -> Result<(), AllocError>
    ensures ok { IfOk result (λ _. string_bytes text.new ≡ string_bytes text.old
        ++ (column 10 steps.now ++ (column 6 slot.now ++ (text_of insn ++ 10 ∷ [])))) }
{
    writeln!(text, "{steps:<10}{slot:<6}{}", InsnText(insn))?;
    Ok(())
}

fn append_line(alloc: Global, text: &mut String, spot: Spot) -> Result<(), AllocError>
    ensures ok { IfOk result
        (λ _. string_bytes text.new ≡ string_bytes text.old ++ profile_line spot) }
{
    let steps = format!(in alloc; "{}", spot.steps)?;
    let slot = format!(in alloc; "{}", spot.slot)?;
    append_cells(text, steps.as_str(), slot.as_str(), spot.insn)
}

fn append_json(text: &mut String, spot: Spot) -> Result<(), AllocError>
    ensures ok { IfOk result
        (λ _. string_bytes text.new ≡ string_bytes text.old ++ json_line spot) }
{
    let Spot { slot, steps, insn } = spot;
    if steps == 0 {
        return Ok(());
    }
    writeln!(
        text,
        "{{\"slot\":{slot},\"steps\":{steps},\"instruction\":\"{}\"}}",
        InsnText(insn)
    )?;
    Ok(())
}

/// Appends what is told of an instruction.
fn append_spot(alloc: Global, text: &mut String, spot: Spot, json: bool) -> Result<(), AllocError>
    ensures ok { IfOk result
        (λ _. string_bytes text.new ≡ string_bytes text.old ++ line_of json spot) }
{
    if json {
        return append_json(text, spot);
    }
    append_line(alloc, text, spot)
}

/// Appends what is told of a slot: nothing, unless an instruction starts there.
fn append_slot(
    alloc: Global,
    text: &mut String,
    profile: Profile<'_>,
    slot: usize,
    json: bool,
) -> Result<(), AllocError>
    ensures ok { IfOk result (λ _. string_bytes text.new ≡ string_bytes text.old
        ++ line_at json slot (slice_index profile.entry.counts.now slot)
        (slice_get profile.entry.program.now.slots slot)) }
{
    match profile.program.insn_at(slot) {
        Some(Some(insn)) => {
            let steps = steps_at(profile.counts, slot);
            append_spot(alloc, text, Spot { slot, steps, insn }, json)
        }
        Some(None) => Ok(()),
        None => Ok(()),
    }
}

/// Appends what is told of all slots, in their order.
fn append_slots(
    alloc: Global,
    text: &mut String,
    profile: Profile<'_>,
    json: bool,
) -> Result<(), AllocError>
    ensures ok { IfOk result (λ _. string_bytes text.new ≡ string_bytes text.old
        ++ slot_lines json profile.entry.program.now.slots profile.entry.counts.now
        (length profile.entry.program.now.slots)) }
{
    for slot in 0..profile.program.len() {
        append_slot(alloc, text, profile, slot, json)?;
    }
    Ok(())
}

/// The table of a profile, with the line of sums of the rows.
fn table_text(
    alloc: Global,
    profile: Profile<'_>,
    tally: Tally,
    course: Course<'_>,
) -> Result<String, AllocError>
    ensures is { IfOk result (λ text. IsFormed Table profile.entry.program.now.slots
        profile.entry.counts.now (totals_text (judged_of course.entry) (totals_in tally) false) (string_bytes text)) }
{
    let mut text = String::from_str(alloc, HEADS)?;
    append_slots(alloc, &mut text, profile, false)?;
    let sums = totals_text(alloc, tally, course, false)?;
    text.push_str(sums.as_str())?;
    Ok(text)
}

/// The lines of JSON of a profile, with the sums of the rows.
fn json_text(
    alloc: Global,
    profile: Profile<'_>,
    tally: Tally,
    course: Course<'_>,
) -> Result<String, AllocError>
    ensures is { IfOk result (λ text. IsFormed Json profile.entry.program.now.slots
        profile.entry.counts.now (totals_text (judged_of course.entry) (totals_in tally) true) (string_bytes text)) }
{
    let mut text = String::new(alloc);
    append_slots(alloc, &mut text, profile, true)?;
    let sums = totals_text(alloc, tally, course, true)?;
    text.push_str(sums.as_str())?;
    Ok(text)
}

/// A profile in one of its forms.
fn formed(
    alloc: Global,
    profile: Profile<'_>,
    tally: Tally,
    course: Course<'_>,
    form: ProfileForm,
) -> Result<String, AllocError>
    ensures is { IfOk result (λ text. IsFormed form profile.entry.program.now.slots
        profile.entry.counts.now (totals_text (judged_of course.entry) (totals_in tally) (is_json form))
        (string_bytes text)) }
{
    match form {
        ProfileForm::Table => table_text(alloc, profile, tally, course),
        ProfileForm::Json => json_text(alloc, profile, tally, course),
        ProfileForm::Graph => {
            let counts = profile.counts;
            let most = most_of(counts);
            graph_text(alloc, profile.program, Overlay::Steps { counts, most })
        }
    }
}

/// As many zeros.
fn zeros(alloc: Global, count: usize) -> Result<Vec<u64>, AllocError>
    ensures is { IfOk result (λ zeros. zeros.items ≡ replicate count 0) }
{
    vec![in alloc; 0u64; count]
}

/// The profile of a program that is alone, with a count of 0 for each of its slots.
fn profiled(
    alloc: Global,
    tested: Tried,
    counts: Vec<u64>,
    course: Course<'_>,
    form: ProfileForm,
) -> Result<String, AllocError>
    requires fresh { (v : Verified) × IsUncounted v tested counts.items course }
    ensures profile { (v : Verified) → IsUncounted v tested counts.items course.entry
        → IfOk result (λ text. IsProfile v tested.state.draw course.entry.replay.link.now
        (packets_in course.entry.replay.recording.bytes.now) form (string_bytes text)) }
{
    let Tried {
        programs,
        tables,
        state,
    } = tested;
    let mut meter = Meter::new(state, counts);
    let policy = Policy {
        hook: course.hook,
        programs: &programs,
        maps: tables.maps(),
    };
    let mut tally = Tally::none();
    follow(alloc, policy, &mut meter, course.replay, &mut tally)?;
    match programs.program(course.hook) {
        Some(accepted) => {
            let profile = Profile {
                program: accepted.program(),
                counts: meter.counts(),
            };
            return formed(alloc, profile, tally, course, form);
        }
        None => unreachable!(),
    }
}

/// How many steps a program makes at each of its slots, in the runs on the queries of its hook, as a capture's frames
/// come to a new access point of which it is the only program. Its maps' words are 0 at first. Counts are mod 2^64.
pub fn profile_text(
    alloc: Global,
    accepted: Accepted,
    replay: Replay<'_>,
    form: ProfileForm,
) -> Result<String, AllocError>
    ensures is { IfOk result (λ text. IsProfile accepted replay.entry.draw replay.entry.link.now
        (packets_in replay.entry.recording.bytes.now) form (string_bytes text)) }
{
    let course = Course {
        hook: accepted.hook(),
        budget: accepted.budget(),
        replay,
    };
    let counts = zeros(alloc, accepted.program().len())?;
    let tested = Tried::new(alloc, accepted, replay.draw)?;
    profiled(alloc, tested, counts, course, form)
}
