//! The verdicts that differ between two programs.

ghost use Rattle.std.specs.Prelude.{◌≡◌, ◌≤◌, [], ◌∷◌, ◌++◌, IfOk, codes, string_bytes, true};
ghost use Rattle.capture.specs.Walks.{packets_in};
ghost use Rattle.apd_eval.specs.Table.{column};
ghost use Rattle.apd_eval.specs.Words.{verdict_of, words_of};
ghost use Rattle.apd_eval.specs.Changes.{change_line, json_change, change_in, change_front, both_text, plain_changes, json_both, change_sums};

use crate::again::Contrast;
use crate::follow::Replay;
use crate::reasons::{json_reasons, none_text, others_text, reasons_of};
use crate::table::{StationText, station_text};
use bpf_regions::Hook;
use std::alloc::{AllocError, Global};
use std::fmt::Write;

/// Two programs on a capture: how many queries of the hook were judged, and how many verdicts differ.
#[derive(Clone, Copy)]
struct Comparing<'a> {
    pub hook: Hook,
    pub replay: Replay<'a>,
    pub judged: usize,
    pub changed: usize,
}

/// The heads of the columns.
const HEADS: &str = "packet  station            verdict\n";

/// Appends the cells of a change.
fn append_cells(
    text: &mut String,
    packet: &str,
    station: &str,
    change: &Contrast,
) -> Result<(), AllocError>
    ensures ok { IfOk result (λ _. string_bytes text.new ≡ string_bytes text.old
        ++ (column 8 packet.now ++ (column 19 station.now
        ++ (words_of (verdict_of change.now.in_force)
        ++ (codes " -> " ++ (words_of (verdict_of change.now.tried) ++ 10 ∷ [])))))) }
{
    let former = change.in_force.meaning();
    let latter = change.tried.meaning();
    writeln!(text, "{packet:<8}{station:<19}{former} -> {latter}")?;
    Ok(())
}

fn append_line(alloc: Global, text: &mut String, change: &Contrast) -> Result<(), AllocError>
    ensures ok { IfOk result
        (λ _. string_bytes text.new ≡ string_bytes text.old ++ change_line change.now) }
{
    let packet = format!(in alloc; "{}", change.packet)?;
    let station = station_text(alloc, &change.in_force.context)?;
    append_cells(text, packet.as_str(), station.as_str(), change)
}

fn append_json(text: &mut String, change: &Contrast) -> Result<(), AllocError>
    ensures ok { IfOk result
        (λ _. string_bytes text.new ≡ string_bytes text.old ++ json_change change.now) }
{
    let packet = change.packet;
    let station = StationText(&change.in_force.context);
    let former = change.in_force.meaning();
    let latter = change.tried.meaning();
    writeln!(
        text,
        "{{\"packet\":{packet},\"station\":\"{station}\",\"old\":\"{former}\",\"new\":\"{latter}\"}}"
    )?;
    Ok(())
}

/// Appends the line of a change, in JSON or not.
fn append_change(
    alloc: Global,
    text: &mut String,
    change: &Contrast,
    json: bool,
) -> Result<(), AllocError>
    ensures ok { IfOk result
        (λ _. string_bytes text.new ≡ string_bytes text.old ++ change_in json change.now) }
{
    if json {
        return append_json(text, change);
    }
    append_line(alloc, text, change)
}

/// How many verdicts differ, of how many packets.
fn both_text(
    alloc: Global,
    judged: usize,
    packets: usize,
    changed: usize,
) -> Result<String, AllocError>
    ensures is { IfOk result (λ text. string_bytes text ≡ both_text judged packets changed) }
{
    format!(in alloc; "judged {judged} of {packets} packets by both: {changed} verdicts differ\n")
}

/// The same, and which packets weren't judged; or why none was.
fn plain_changes(alloc: Global, course: Comparing<'_>) -> Result<String, AllocError>
    ensures is { IfOk result (λ text. string_bytes text ≡ plain_changes course.entry.hook
        course.entry.replay.link.now.bssid (packets_in course.entry.replay.recording.bytes.now)
        course.entry.judged course.entry.changed) }
{
    let Comparing {
        hook,
        replay,
        judged,
        changed,
    } = course;
    if judged == 0 {
        return none_text(alloc, hook, replay);
    }
    let mut text = both_text(alloc, judged, replay.count(), changed)?;
    let reasons = reasons_of(alloc, hook, replay, judged)?;
    let others = others_text(alloc, hook, reasons)?;
    text.push_str(others.as_str())?;
    Ok(text)
}

/// How many verdicts differ, in JSON, as the beginning of an object.
fn json_both(
    alloc: Global,
    judged: usize,
    packets: usize,
    changed: usize,
) -> Result<String, AllocError>
    ensures is { IfOk result (λ text. string_bytes text ≡ json_both judged packets changed) }
{
    format!(in alloc; "{{\"judged\":{judged},\"packets\":{packets},\"differ\":{changed}")
}

/// All sums as a line of JSON.
fn json_changes(alloc: Global, course: Comparing<'_>) -> Result<String, AllocError>
    ensures is { IfOk result (λ text. string_bytes text ≡ change_sums course.entry.hook
        course.entry.replay.link.now.bssid (packets_in course.entry.replay.recording.bytes.now)
        course.entry.judged course.entry.changed true) }
{
    let Comparing {
        hook,
        replay,
        judged,
        changed,
    } = course;
    let mut text = json_both(alloc, judged, replay.count(), changed)?;
    let reasons = reasons_of(alloc, hook, replay, judged)?;
    let rest = json_reasons(alloc, reasons)?;
    text.push_str(rest.as_str())?;
    Ok(text)
}

/// The sums of a comparison, in JSON or not.
fn change_sums(alloc: Global, course: Comparing<'_>, json: bool) -> Result<String, AllocError>
    ensures is { IfOk result (λ text. string_bytes text ≡ change_sums course.entry.hook
        course.entry.replay.link.now.bssid (packets_in course.entry.replay.recording.bytes.now)
        course.entry.judged course.entry.changed json) }
{
    if json {
        return json_changes(alloc, course);
    }
    plain_changes(alloc, course)
}

/// What stands before the lines.
fn front(json: bool) -> &'static str
    ensures is { result.now ≡ change_front json }
{
    if json { "" } else { HEADS }
}

/// The changes so far, as contrasts come: their lines, with the heads of their columns or in JSON, how many queries were
/// judged, and how many verdicts differ.
#[derive(Drop)]
pub(crate) struct Changes {
    alloc: Global,
    json: bool,
    text: String,
    pub judged: usize,
    pub changed: usize,
    ghost few: { changed ≤ judged },
}

impl Changes {
    ghost use Rattle.std.specs.Prelude.{◌≡◌, ◌+◌, ◌<◌, ◌^◌, ◌++◌, IfOk, string_bytes};
    ghost use Rattle.capture.specs.Walks.{packets_in};
    ghost use Rattle.apd_eval.specs.Changes.{change_sums};
    ghost use Rattle.apd_eval.specs.Told.{IsUntold, Tells};

    /// No changes.
    pub(crate) fn new(alloc: Global, json: bool) -> Result<Changes, AllocError>
        ensures untold { IfOk result (IsUntold json) }
    {
        let text = String::from_str(alloc, front(json))?;
        Ok(Changes {
            alloc,
            json,
            text,
            judged: 0,
            changed: 0,
        })
    }

    /// Counts a contrast, and appends the line of a change, if its verdicts differ.
    pub(crate) fn tell(&mut self, contrast: &Contrast) -> Result<(), AllocError>
        requires room { self.old.judged + 1 < 2 ^ 64 }
        ensures told { IfOk result (λ _. Tells self.old contrast.now self.new) }
    {
        self.judged += 1;
        if contrast.agrees() {
            return Ok(());
        }
        append_change(self.alloc, &mut self.text, contrast, self.json)?;
        self.changed += 1;
        Ok(())
    }

    /// The lines of the changes, and the sums.
    pub(crate) fn finish(self, hook: Hook, replay: Replay<'_>) -> Result<String, AllocError>
        ensures is { IfOk result (λ text. string_bytes text ≡ string_bytes self.text
            ++ change_sums hook replay.entry.link.now.bssid
            (packets_in replay.entry.recording.bytes.now) self.judged self.changed self.json) }
    {
        let course = Comparing {
            hook,
            replay,
            judged: self.judged,
            changed: self.changed,
        };
        let sums = change_sums(self.alloc, course, self.json)?;
        let mut text = self.text;
        text.push_str(sums.as_str())?;
        Ok(text)
    }
}
