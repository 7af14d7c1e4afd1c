//! Verdicts on a capture, of one program or of two: the command `eval`.

ghost use Rattle.std.specs.Prelude.{◌≡◌, IfOk, IfErr, Some, option_map, string_bytes};
ghost use Rattle.capture.specs.Walks.{packets_in};
ghost use Rattle.apd_words.specs.Asked.{asked_evaluation, text_of};
ghost use Rattle.apd_program.specs.Admitting.{IsOfAdmitted};
ghost use Rattle.apd_program.specs.Answers.{IsAnswer, HasNoAnswer};
ghost use Rattle.apd_program.specs.Evaluating.{HoldsSetting, IsShown, IsContrasted, AreVerdicts, AreDifferences, AreJudged, IsReport, is_json, replayed_by, IsKept, IsMaterial, IsEvaluatedWith, HasBadCodeInForce, HasNoEvaluation, link_of};
ghost use Rattle.apd_program.specs.Faults.{IsMemoryOr, HasBadConfiguration};
ghost use Rattle.apd_program.specs.Verifying.{within};

use crate::admission::{Admission, admit_code};
use crate::answer::Answer;
use crate::explain::Reason;
use crate::fault::{ProgramFault, of_configuration};
use crate::inputs::{code, read};
use crate::span::{recording_in, span_of};
use ap_model::{LinkConfig, Octets};
use apd_config::{Configuration, read_configuration};
use apd_eval::{Comparison, ProfileForm, Replay, compare, evaluation_text, profile_text};
use apd_files::{FileKind, Files};
use apd_words::{Evaluation, Report, Terms};
use bpf_machine::Accepted;
use bpf_regions::Shapes;
use capture::CaptureFault;
use mac_types::Address;
use std::alloc::{AllocError, Global};

/// The link and the maps of a configuration.
#[derive(Drop)]
pub(crate) struct Setting {
    pub link: LinkConfig,
    /// The maps' shapes; a map's number is its index.
    pub shapes: Shapes,
    /// The first number drawn.
    pub draw: u64,
}

/// What is read for the command.
#[derive(Drop)]
pub(crate) struct Material {
    pub setting: Setting,
    /// What is kept of the code: as much as decides its verdict.
    pub code: Vec<u8>,
    pub capture: Vec<u8>,
    /// The same of the code in force, if one is named.
    pub in_force: Option<Vec<u8>>,
}

/// How programs are verified, and the capture on which they are tried.
#[derive(Clone, Copy)]
pub(crate) struct Exam<'a> {
    pub terms: Terms,
    pub shapes: &'a Shapes,
    pub replay: Replay<'a>,
    /// The fault at which the capture is cut, if it is.
    pub cut: Option<CaptureFault>,
    pub report: Report,
}

fn setting_of(configuration: Configuration) -> Setting
    ensures link { result.link ≡ link_of configuration }
    ensures shapes { result.shapes ≡ configuration.maps }
    ensures draw { result.draw ≡ configuration.draw }
{
    let Configuration {
        bssid,
        ssid,
        rates,
        draw,
        maps,
    } = configuration;
    let link = LinkConfig::new(Address::new(bssid), Octets::new(ssid), Octets::new(rates));
    match link {
        Some(link) => Setting {
            link,
            shapes: maps,
            draw,
        },
        None => unreachable!(),
    }
}

/// Reads the setting of a configuration.
fn configured<F: Files>(alloc: Global, path: &str, files: &mut F) -> Result<Setting, ProgramFault>
    ensures setting { IfOk result (HoldsSetting (F.held files.old) path.now) }
    ensures fault { IfErr result (IsMemoryOr (HasBadConfiguration (F.held files.old) path.now)) }
    ensures same { F.held files.new ≡ F.held files.old }
{
    let text = read(alloc, path, FileKind::Configuration, files)?;
    match read_configuration(alloc, text.as_slice()) {
        Ok(configuration) => Ok(setting_of(configuration)),
        Err(fault) => Err(of_configuration(alloc, path, text.as_slice(), fault)),
    }
}

/// What is printed of a program's runs on a capture.
fn report_text(
    alloc: Global,
    accepted: Accepted,
    replay: Replay<'_>,
    report: Report,
) -> Result<String, AllocError>
    ensures is { IfOk result (λ text. IsReport report accepted replay.entry.draw replay.entry.link.now
        (packets_in replay.entry.recording.bytes.now) (string_bytes text)) }
{
    match report {
        Report::Verdicts => evaluation_text(alloc, accepted, replay, false),
        Report::VerdictsJson => evaluation_text(alloc, accepted, replay, true),
        Report::Profile => profile_text(alloc, accepted, replay, ProfileForm::Table),
        Report::ProfileJson => profile_text(alloc, accepted, replay, ProfileForm::Json),
        Report::ProfileGraph => profile_text(alloc, accepted, replay, ProfileForm::Graph),
    }
}

/// Whether lines of JSON are asked for.
pub(crate) fn is_json(report: Report) -> bool
    ensures is { result ≡ is_json report }
{
    match report {
        Report::VerdictsJson | Report::ProfileJson => true,
        Report::Verdicts | Report::Profile | Report::ProfileGraph => false,
    }
}

/// The answer with this text, for a capture that is cut at a fault, or for a whole one.
pub(crate) fn verdicts(text: String, cut: Option<CaptureFault>) -> Answer
    ensures shown { IsShown cut (string_bytes text) result }
{
    match cut {
        None => Answer::Verdicts(text),
        Some(fault) => Answer::CutVerdicts { text, fault },
    }
}

/// The same of two programs.
fn differences(found: Comparison, cut: Option<CaptureFault>) -> Answer
    ensures shown { IsContrasted cut (string_bytes found.text) found.differs result }
{
    let Comparison { text, differs } = found;
    match cut {
        None => Answer::Differences { text, differs },
        Some(fault) => Answer::CutVerdicts { text, fault },
    }
}

/// What is printed of the program that the code spells, if it is accepted.
fn examine(
    alloc: Global,
    code: &[u8],
    exam: Exam<'_>,
    reason: &mut Reason,
) -> Result<Answer, ProgramFault>
    ensures verdicts { IfOk result (IsOfAdmitted (within exam.entry.terms.states exam.entry.terms.work)
        exam.entry.terms.hook (AreVerdicts (replayed_by exam.entry))
        code.now exam.entry.shapes.now) }
    ensures memory { IfErr result (λ e. e ≡ ProgramFault.NoMemory) }
{
    let admission = admit_code(alloc, code, exam.shapes, exam.terms, reason)?;
    match admission {
        Admission::Admitted(accepted) => {
            let text = report_text(alloc, accepted, exam.replay, exam.report)?;
            Ok(verdicts(text, exam.cut))
        }
        Admission::Answered(answer) => Ok(answer),
    }
}

/// The verdicts of the program that the code spells, if it is accepted, that differ from those of the one in force.
fn contrast(
    alloc: Global,
    in_force: Accepted,
    code: &[u8],
    exam: Exam<'_>,
    reason: &mut Reason,
) -> Result<Answer, ProgramFault>
    ensures verdicts { IfOk result (IsOfAdmitted (within exam.entry.terms.states exam.entry.terms.work)
        exam.entry.terms.hook (AreDifferences (replayed_by exam.entry) in_force)
        code.now exam.entry.shapes.now) }
    ensures memory { IfErr result (λ e. e ≡ ProgramFault.NoMemory) }
{
    let admission = admit_code(alloc, code, exam.shapes, exam.terms, reason)?;
    match admission {
        Admission::Admitted(tried) => {
            let found = compare(alloc, in_force, tried, exam.replay, is_json(exam.report))?;
            Ok(differences(found, exam.cut))
        }
        Admission::Answered(answer) => Ok(answer),
    }
}

/// The same, if the program in force is accepted, too.
fn examine_against(
    alloc: Global,
    in_force: &[u8],
    code: &[u8],
    exam: Exam<'_>,
    reason: &mut Reason,
) -> Result<Answer, ProgramFault>
    ensures verdicts { IfOk result (IsOfAdmitted (within exam.entry.terms.states exam.entry.terms.work)
        exam.entry.terms.hook (λ v. IsOfAdmitted (within exam.entry.terms.states exam.entry.terms.work)
        exam.entry.terms.hook (AreDifferences (replayed_by exam.entry) v)
        code.now exam.entry.shapes.now) in_force.now exam.entry.shapes.now) }
    ensures memory { IfErr result (λ e. e ≡ ProgramFault.NoMemory) }
{
    let admission = admit_code(alloc, in_force, exam.shapes, exam.terms, reason)?;
    match admission {
        Admission::Admitted(in_force) => contrast(alloc, in_force, code, exam, reason),
        Admission::Answered(answer) => {
            reason.blames_code_in_force(alloc);
            Ok(answer)
        }
    }
}

/// The verdicts of the program that the code spells; or, with the code in force, those that differ.
fn judge(
    alloc: Global,
    in_force: &Option<Vec<u8>>,
    code: &[u8],
    exam: Exam<'_>,
    reason: &mut Reason,
) -> Result<Answer, ProgramFault>
    ensures verdicts { IfOk result (AreJudged (within exam.entry.terms.states exam.entry.terms.work)
        (replayed_by exam.entry) (option_map (λ code. code.items) in_force.now)
        code.now exam.entry.shapes.now) }
    ensures memory { IfErr result (λ e. e ≡ ProgramFault.NoMemory) }
{
    match in_force {
        Some(in_force) => examine_against(alloc, in_force.as_slice(), code, exam, reason),
        None => examine(alloc, code, exam, reason),
    }
}

/// Reads the code in a file, if one is named.
fn code_if_any<F: Files>(
    alloc: Global,
    path: Option<&str>,
    files: &mut F,
) -> Result<Option<Vec<u8>>, ProgramFault>
    ensures code { IfOk result (IsKept (F.held files.old) (text_of path.entry)) }
    ensures fault { IfErr result
        (IsMemoryOr (HasBadCodeInForce (F.held files.old) (text_of path.entry))) }
    ensures same { F.held files.new ≡ F.held files.old }
{
    match path {
        Some(path) => {
            let code = code(alloc, path, files)?;
            Ok(Some(code))
        }
        None => Ok(None),
    }
}

/// Reads the files.
pub(crate) fn gather<F: Files>(
    alloc: Global,
    config: &str,
    evaluation: Evaluation<'_>,
    files: &mut F,
) -> Result<Material, ProgramFault>
    ensures material { IfOk result (IsMaterial (F.held files.old) config.now
        evaluation.entry.subject.source.file.now evaluation.entry.capture.now
        (text_of evaluation.entry.against)) }
    ensures fault { IfErr result (IsMemoryOr (HasNoEvaluation (F.held files.old)
        evaluation.entry.subject.source.file.now evaluation.entry.capture.now
        (text_of evaluation.entry.against) (Some config.now))) }
{
    let setting = configured(alloc, config, files)?;
    let code = code(alloc, evaluation.subject.source.file, files)?;
    let capture = read(alloc, evaluation.capture, FileKind::Capture, files)?;
    let in_force = code_if_any(alloc, evaluation.against, files)?;
    Ok(Material {
        setting,
        code,
        capture,
        in_force,
    })
}

/// The program in a file is judged on the capture in another, at an access point of this configuration.
fn evaluated<F: Files>(
    alloc: Global,
    config: &str,
    evaluation: Evaluation<'_>,
    files: &mut F,
    reason: &mut Reason,
) -> Result<Answer, ProgramFault>
    ensures verdicts { IfOk result (IsEvaluatedWith (F.held files.old)
        (within evaluation.entry.subject.terms.states evaluation.entry.subject.terms.work)
        evaluation.entry.subject.terms.hook
        evaluation.entry.subject.source.file.now evaluation.entry.capture.now
        (text_of evaluation.entry.against) evaluation.entry.report config.now) }
    ensures fault { IfErr result (IsMemoryOr (HasNoEvaluation (F.held files.old)
        evaluation.entry.subject.source.file.now evaluation.entry.capture.now
        (text_of evaluation.entry.against) (Some config.now))) }
{
    let Material {
        setting,
        code,
        capture,
        in_force,
    } = gather(alloc, config, evaluation, files)?;
    let file = capture.as_slice();
    let span = span_of(alloc, evaluation.capture, file)?;
    let Setting { link, shapes, draw } = setting;
    let replay = Replay {
        link: &link,
        draw,
        recording: recording_in(file, span),
    };
    let exam = Exam {
        terms: evaluation.subject.terms,
        shapes: &shapes,
        replay,
        cut: span.cut,
        report: evaluation.report,
    };
    judge(alloc, &in_force, code.as_slice(), exam, reason)
}

/// Judges the frames of a capture by the program in a file.
pub(crate) fn evaluate<F: Files>(
    alloc: Global,
    evaluation: Evaluation<'_>,
    files: &mut F,
    reason: &mut Reason,
) -> Result<Answer, ProgramFault>
    ensures verdicts { IfOk result
        (IsAnswer (F.held files.old) (asked_evaluation evaluation.entry)) }
    ensures fault { IfErr result
        (IsMemoryOr (HasNoAnswer (F.held files.old) (asked_evaluation evaluation.entry))) }
{
    match evaluation.subject.source.config {
        Some(config) => evaluated(alloc, config, evaluation, files, reason),
        None => Err(ProgramFault::NoConfig),
    }
}
