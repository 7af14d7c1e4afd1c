//! The line of sums below a table.

ghost use Rattle.std.specs.Prelude.{◌≡◌, IfOk, string_bytes};
ghost use Rattle.apd_eval.specs.Sums.{totals_in, counts_text, steps_text, judged_line, judged_of, judged_text, plain_sums, json_counts, json_steps, json_judged, json_rows, json_sums, totals_text};

use crate::follow::Replay;
use crate::reasons::{json_reasons, none_text, others_text, reasons_of};
use crate::tally::Tally;
use bpf_regions::Hook;
use std::alloc::{AllocError, Global};

/// What was judged: the queries of a hook, as a capture's packets came, by a program with this budget.
#[derive(Clone, Copy)]
pub(crate) struct Course<'a> {
    pub hook: Hook,
    pub budget: u32,
    pub replay: Replay<'a>,
}

/// How many verdicts grant and refuse, in words of the hook.
fn counts_text(alloc: Global, tally: Tally, hook: Hook) -> Result<String, AllocError>
    ensures is { IfOk result (λ text. string_bytes text ≡ counts_text hook (totals_in tally)) }
{
    let Tally {
        granted,
        refused,
        marked,
        ..
    } = tally;
    match hook {
        Hook::Association => format!(in alloc; "admit {granted}, refuse {refused}"),
        Hook::Addba => format!(in alloc; "grant {granted}, decline {refused}"),
        Hook::Data => format!(in alloc; "pass {granted} ({marked} marked), drop {refused}"),
    }
}

/// In how many steps, at most.
fn steps_text(alloc: Global, most: u32, budget: u32) -> Result<String, AllocError>
    ensures is { IfOk result (λ text. string_bytes text ≡ steps_text most budget) }
{
    format!(in alloc; "; steps at most {most} of budget {budget}\n")
}

/// How many packets were judged, how, and in how many steps.
fn judged_line(
    alloc: Global,
    judged: usize,
    packets: usize,
    counts: &str,
    steps: &str,
) -> Result<String, AllocError>
    ensures is { IfOk result
        (λ text. string_bytes text ≡ judged_line judged packets counts.now steps.now) }
{
    format!(in alloc; "judged {judged} of {packets} packets: {counts}{steps}")
}

/// The same of rows.
fn judged_text(alloc: Global, tally: Tally, course: Course<'_>) -> Result<String, AllocError>
    ensures is { IfOk result
        (λ text. string_bytes text ≡ judged_text (judged_of course.entry) (totals_in tally)) }
{
    let packets = course.replay.count();
    let counts = counts_text(alloc, tally, course.hook)?;
    let steps = steps_text(alloc, tally.most, course.budget)?;
    let counts = counts.as_str();
    let steps = steps.as_str();
    judged_line(alloc, tally.rows, packets, counts, steps)
}

/// The same, and which packets weren't judged; or why none was.
fn plain_sums(alloc: Global, tally: Tally, course: Course<'_>) -> Result<String, AllocError>
    ensures is { IfOk result
        (λ text. string_bytes text ≡ plain_sums (judged_of course.entry) (totals_in tally)) }
{
    if tally.rows == 0 {
        return none_text(alloc, course.hook, course.replay);
    }
    let mut text = judged_text(alloc, tally, course)?;
    let reasons = reasons_of(alloc, course.hook, course.replay, tally.rows)?;
    let others = others_text(alloc, course.hook, reasons)?;
    text.push_str(others.as_str())?;
    Ok(text)
}

/// How many verdicts grant and refuse, in JSON.
fn json_counts(alloc: Global, tally: Tally, hook: Hook) -> Result<String, AllocError>
    ensures is { IfOk result (λ text. string_bytes text ≡ json_counts hook (totals_in tally)) }
{
    let Tally {
        granted,
        refused,
        marked,
        ..
    } = tally;
    match hook {
        Hook::Association => format!(in alloc; ",\"admit\":{granted},\"refuse\":{refused}"),
        Hook::Addba => format!(in alloc; ",\"grant\":{granted},\"decline\":{refused}"),
        Hook::Data => format!(in alloc;
            ",\"pass\":{granted},\"marked\":{marked},\"drop\":{refused}"
        ),
    }
}

/// In how many steps, at most, in JSON.
fn json_steps(alloc: Global, most: u32, budget: u32) -> Result<String, AllocError>
    ensures is { IfOk result (λ text. string_bytes text ≡ json_steps most budget) }
{
    format!(in alloc; ",\"steps\":{most},\"budget\":{budget}")
}

/// How many packets were judged, how, and in how many steps, as the beginning of an object.
fn json_judged(
    alloc: Global,
    judged: usize,
    packets: usize,
    counts: &str,
    steps: &str,
) -> Result<String, AllocError>
    ensures is { IfOk result
        (λ text. string_bytes text ≡ json_judged judged packets counts.now steps.now) }
{
    format!(in alloc; "{{\"judged\":{judged},\"packets\":{packets}{counts}{steps}")
}

/// The same of rows.
fn json_rows(alloc: Global, tally: Tally, course: Course<'_>) -> Result<String, AllocError>
    ensures is { IfOk result
        (λ text. string_bytes text ≡ json_rows (judged_of course.entry) (totals_in tally)) }
{
    let packets = course.replay.count();
    let counts = json_counts(alloc, tally, course.hook)?;
    let steps = json_steps(alloc, tally.most, course.budget)?;
    let counts = counts.as_str();
    let steps = steps.as_str();
    json_judged(alloc, tally.rows, packets, counts, steps)
}

/// All sums as a line of JSON.
fn json_sums(alloc: Global, tally: Tally, course: Course<'_>) -> Result<String, AllocError>
    ensures is { IfOk result
        (λ text. string_bytes text ≡ json_sums (judged_of course.entry) (totals_in tally)) }
{
    let mut text = json_rows(alloc, tally, course)?;
    let reasons = reasons_of(alloc, course.hook, course.replay, tally.rows)?;
    let rest = json_reasons(alloc, reasons)?;
    text.push_str(rest.as_str())?;
    Ok(text)
}

/// The sums of rows, in JSON or not.
pub(crate) fn totals_text(
    alloc: Global,
    tally: Tally,
    course: Course<'_>,
    json: bool,
) -> Result<String, AllocError>
    ensures is { IfOk result
        (λ text. string_bytes text ≡ totals_text (judged_of course.entry) (totals_in tally) json) }
{
    if json {
        return json_sums(alloc, tally, course);
    }
    plain_sums(alloc, tally, course)
}
