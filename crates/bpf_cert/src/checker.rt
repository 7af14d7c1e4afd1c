//! Checks certificates: admits a program that was verified elsewhere.

ghost use Rattle.std.specs.Prelude.{◌≡◌, ◌≤◌, ◌+◌, ◌^◌, ◌++◌, [], ◌∷◌, ℕ, ℤ, Some, IfOk, IfErr, IfSome, IsSome, OnOk, length, map, drop};
ghost use Rattle.std.specs.List.{All};
ghost use Rattle.bpf_insn.specs.declared.insn.Insn.TheVariants.{CallLocal};
ghost use Rattle.bpf_decode.specs.Program.{Begins};
ghost use Rattle.bpf_model.specs.Run.{Safe};
ghost use Rattle.bpf_prune.specs.Spending.{CountsAll, HasPassed};
ghost use Rattle.bpf_absstate.specs.WellFormed.{IsView};
ghost use Rattle.bpf_cert_format.specs.Fits.{FitsEntry};
ghost use Rattle.bpf_cert.specs.Limits.{CountsMore, IsStop, Within, HasPassedLimit};
ghost use Rattle.bpf_cert.specs.Steps.{Tells};
ghost use Rattle.bpf_cert.specs.States.{claim_of};
ghost use Rattle.bpf_cert.specs.Certified.{IsFor, FollowsCall, AllFollow, StandsWell, Shows, Finds};
ghost use Rattle.bpf_cert.specs.Certified.{KeepsWithin, Covered, Refuses, Answers, Admits, IsAdmitted, CountsEntries, HasFewEntries};

use crate::claims::Claims;
use crate::coverage::{begins, covered_budget};
use crate::fault::{CertFault, unread};
use crate::limit::{Meter, Stop, Unlimited, WithinFault};
use crate::source::Source;
use bpf_cert_format::{Certificate, Entry, Frame, Kind, Leaf, read};
use bpf_decode::{Program, encode};
use bpf_insn::Insn;
use bpf_machine::Accepted;
use bpf_prune::Work;
use bpf_regions::Hook;
use std::alloc::{AllocError, Global};

/// The greatest budget of an admitted program.
const MOST: u32 = 4194304;

/// How many bytes of memory the claims may take for each byte of a certificate.
const ROOM: usize = 8;

/// Whether a certificate is for this hook and this code.
fn is_for(
    alloc: Global,
    program: &Program,
    hook: Hook,
    certificate: &Certificate,
) -> Result<bool, AllocError>
    ensures is { IfOk result (λ told. Tells told (IsFor program.now hook certificate.now)) }
{
    if certificate.hook() != hook {
        return Ok(false);
    }
    let code = encode(alloc, program)?;
    Ok(certificate.code() == code.as_slice())
}

fn is_call(insn: Option<Option<Insn>>) -> bool
    ensures is { Tells result ((x : ℤ) × (insn ≡ Some (Some (CallLocal x)))) }
{
    match insn {
        Some(Some(Insn::CallLocal { .. })) => true,
        _ => false,
    }
}

/// Whether a slot immediately follows a local call.
fn follows_call(program: &Program, slot: u16) -> bool
    ensures is { Tells result (FollowsCall program.now slot) }
{
    if slot == 0 {
        return false;
    }
    is_call(program.insn_at(slot as usize - 1))
}

/// Whether each of these functions returns to such a slot.
fn all_follow(program: &Program, frames: &[Frame]) -> bool
    ensures is { Tells result (AllFollow program.now frames.now) }
{
    for frame in frames {
        if !follows_call(program, frame.return_slot) {
            return false;
        }
    }
    true
}

/// Whether each function except the main one does.
fn returns_well(program: &Program, frames: &[Frame]) -> bool
    ensures is { Tells result (AllFollow program.now (drop 1 frames.now)) }
{
    if frames.is_empty() {
        return true;
    }
    all_follow(program, &frames[1..])
}

/// Whether an instruction begins at an entry's slot, and its functions return to slots after local calls.
fn stands(program: &Program, entry: &Entry) -> bool
    ensures is { Tells result (StandsWell program.now entry.now) }
{
    begins(program, entry.pc() as usize) && returns_well(program, entry.frames())
}

/// Like `stands`, for an entry that may have to be read first.
fn leaf_stands(alloc: Global, program: &Program, leaf: &Leaf) -> Result<bool, AllocError>
    ensures is { IfOk result (λ told. Tells told (StandsWell program.now leaf.now)) }
{
    match leaf.kind() {
        Kind::Read(entry) => { Ok(stands(program, entry)) }
        Kind::Spelled(spelled) => {
            let entry = spelled.entry(alloc)?;
            Ok(stands(program, &entry))
        }
    }
}

/// Whether each of these entries does.
fn all_stand(alloc: Global, program: &Program, entries: &[Leaf]) -> Result<bool, AllocError>
    ensures is { IfOk result (λ told. Tells told (All (StandsWell program.now) entries.now)) }
{
    for leaf in entries {
        let told = leaf_stands(alloc, program, leaf)?;
        if !told {
            return Ok(false);
        }
    }
    Ok(true)
}

/// The units of work that reading an entry counts: one for each part of its state, and for each label.
fn reading_of(entry: &Entry) -> u64 {
    let frames = entry.frames().len() as u64;
    let rooms = entry.rooms().len() as u64;
    frames.saturating_mul(74).saturating_add(rooms)
}

/// Adds the claim of an entry. If the entry isn't held as a value and claims already take much memory, the claim is
/// rebuilt on each use.
fn add_claim(
    alloc: Global,
    maps: usize,
    source: &mut Source,
    leaf: &Leaf,
    claims: &mut Claims,
) -> Result<(), AllocError>
    requires fits { FitsEntry maps leaf.now }
    ensures is { OnOk result (claims.new ≡ claims.old ++ claim_of leaf.now ∷ []) }
    ensures whole { OnOk result (IsView (claim_of leaf.now).state) }
{
    match leaf.kind() {
        Kind::Read(entry) => {
            let claim = source.claim(alloc, maps, entry)?;
            claims.push(claim)?;
            Ok(())
        }
        Kind::Spelled(spelled) => {
            let entry = spelled.entry(alloc)?;
            let claim = source.claim(alloc, spelled.maps(), &entry)?;
            if source.has_room() {
                claims.push(claim)?;
                return Ok(());
            }
            let spelled = spelled.clone()?;
            claims.push_unread(spelled, &claim, reading_of(&entry))?;
            Ok(())
        }
    }
}

/// The claims of entries. They may take about `room` bytes of memory, besides entries held as values.
fn claims_of(
    alloc: Global,
    program: &Program,
    entries: &[Leaf],
    room: usize,
) -> Result<Claims, AllocError>
    requires fit { All (FitsEntry (length program.now.shapes)) entries.now }
    ensures is { IfOk result (λ claims. claims ≡ map claim_of entries.now) }
    ensures whole { IfOk result (λ claims. All (λ e. IsView e.state) claims) }
{
    let maps = program.shapes().len();
    let mut source = Source::new(alloc, room)?;
    let mut claims = Claims::new(alloc, program.len())?;
    for leaf in entries {
        add_claim(alloc, maps, &mut source, leaf, &mut claims)?;
    }
    Ok(claims)
}

/// The budget, if it is at most 2^22.
fn small(budget: Option<u32>) -> Option<u32>
    ensures is { KeepsWithin (2 ^ 22) budget result }
{
    match budget {
        Some(budget) if budget <= MOST => Some(budget),
        _ => None,
    }
}

/// The budget within which entries show that a program ends, if they do.
fn shown_budget<M: Meter>(
    alloc: Global,
    program: &Program,
    entries: &[Leaf],
    room: usize,
    work: &mut M,
) -> Result<Option<u32>, Stop>
    requires fit { All (FitsEntry (length program.now.shapes)) entries.now }
    ensures is { IfOk result (λ o. Finds o (Shows program.now entries.now)) }
    ensures safe { IfOk result (λ o. IfSome o (Safe program.now.slots program.now.shapes)) }
    ensures limit { M.limit work.new ≡ M.limit work.old }
    ensures examined { IfOk result
        (λ o. IsSome o → CountsMore (M.limit work.old) (length entries.now) (M.examined work.old) (M.examined work.new)) }
    ensures least { M.compared work.old ≤ M.compared work.new }
    ensures stop { IfErr result (IsStop (M.has_passed work.new)) }
{
    let stand = all_stand(alloc, program, entries)?;
    if !stand {
        return Ok(None);
    }
    let claims = claims_of(alloc, program, entries, room)?;
    program.whole();
    program.shapes().whole();
    let budget = covered_budget(program, &claims, work)?;
    Ok(small(budget))
}

/// The only call that makes an accepted program from a certificate's. Fails if memory for its operations is lacking.
fn accept(alloc: Global, program: Program, hook: Hook, budget: u32) -> Result<Accepted, AllocError>
    requires safe { Safe program.slots program.shapes budget }
    requires small { budget ≤ 2 ^ 22 }
    ensures is { IfOk result
        (λ accepted. accepted ≡ record { code = program; hook = hook; budget = budget }) }
{
    Accepted::new(alloc, program, hook, budget)
}

/// The budget that the bytes show for a program and a hook, or the refusal of a check.
pub(crate) fn certified_budget<M: Meter>(
    alloc: Global,
    program: &Program,
    hook: Hook,
    bytes: &[u8],
    work: &mut M,
) -> Result<u32, WithinFault>
    ensures ok { IfOk result (Covered program.now hook bytes.now) }
    ensures safe { IfOk result (Safe program.now.slots program.now.shapes) }
    ensures small { IfOk result (λ b. b ≤ 2 ^ 22) }
    ensures only { (b : ℕ) → Covered program.now hook bytes.now b →
        Within (M.has_passed work.new) (λ r. Answers r b) result }
    ensures err { Within (M.has_passed work.new)
        (λ r. IfErr r (Refuses program.now hook bytes.now)) result }
    ensures limit { M.limit work.new ≡ M.limit work.old }
    ensures entries { OnOk result
        (CountsEntries program.now bytes.now (M.limit work.old) (M.examined work.old) (M.examined work.new)) }
    ensures least { M.compared work.old ≤ M.compared work.new }
{
    match read(alloc, program.shapes(), bytes) {
        Err(fault) => Err(WithinFault::Refused(unread(fault))),
        Ok(certificate) => {
            if !is_for(alloc, program, hook, &certificate)? {
                return Err(WithinFault::Refused(CertFault::Other));
            }
            let room = bytes.len().saturating_mul(ROOM);
            match shown_budget(alloc, program, certificate.entries(), room, work)? {
                None => Err(WithinFault::Refused(CertFault::NotCovered)),
                Some(budget) => Ok(budget),
            }
        }
    }
}

/// Admits the program if the bytes show its safety, with work that is counted by any meter.
fn admitted<M: Meter>(
    alloc: Global,
    program: Program,
    hook: Hook,
    bytes: &[u8],
    work: &mut M,
) -> Result<Accepted, WithinFault>
    ensures ok { IfOk result (IsAdmitted program hook bytes.now) }
    ensures only { (b : ℕ) → Covered program hook bytes.now b →
        Within (M.has_passed work.new) (λ r. Admits r b) result }
    ensures err { Within (M.has_passed work.new)
        (λ r. IfErr r (Refuses program hook bytes.now)) result }
    ensures limit { M.limit work.new ≡ M.limit work.old }
    ensures entries { OnOk result
        (CountsEntries program bytes.now (M.limit work.old) (M.examined work.old) (M.examined work.new)) }
    ensures least { M.compared work.old ≤ M.compared work.new }
{
    let budget = certified_budget(alloc, &program, hook, bytes, work)?;
    let accepted = accept(alloc, program, hook, budget)?;
    Ok(accepted)
}

/// Admits the program if the bytes are a certificate which shows within how many instructions each of its runs ends.
///
/// 70: the bytes spell no certificate. 71: it is for another hook or another code. 72: its entries don't show a budget
/// of at most 2^22. The first of these that applies is returned; or 40: lack of memory.
pub fn check(
    alloc: Global,
    program: Program,
    hook: Hook,
    bytes: &[u8],
) -> Result<Accepted, CertFault>
    // The admitted program is the given one, with a budget that is shown.
    ensures ok { IfOk result (IsAdmitted program hook bytes.now) }
    // A program whose budget is shown is admitted with it, unless memory is lacking.
    ensures only { (b : ℕ) → Covered program hook bytes.now b → Admits result b }
    // Which refusal applies.
    ensures err { IfErr result (Refuses program hook bytes.now) }
{
    let mut work = Unlimited;
    match admitted(alloc, program, hook, bytes, &mut work) {
        Ok(accepted) => Ok(accepted),
        Err(fault) => match fault {
            WithinFault::Refused(fault) => Err(fault),
            WithinFault::TooMuchWork => unreachable!(),
        },
    }
}

/// Like `check`, but does no more work than `most`, if there is such a limit: a certificate that needs more is refused
/// with 36. Work is counted as for `check_counted`, each comparison with a claim, too.
pub fn check_within(
    alloc: Global,
    program: Program,
    hook: Hook,
    bytes: &[u8],
    most: Option<u64>,
) -> Result<Accepted, WithinFault>
    // The admitted program is the given one, with a budget that is shown.
    ensures ok { IfOk result (IsAdmitted program hook bytes.now) }
    // A program whose budget is shown is admitted with it, unless memory is lacking or the work has passed the limit.
    ensures only { (b : ℕ) → Covered program hook bytes.now b →
        Within (HasPassedLimit most) (λ r. Admits r b) result }
    // Which refusal applies: one of `check`, or 36 if the work has passed the limit.
    ensures err { Within (HasPassedLimit most)
        (λ r. IfErr r (Refuses program hook bytes.now)) result }
    // An accepted certificate has at most one entry for 80 units of the limit.
    ensures few { OnOk result (HasFewEntries program bytes.now most) }
{
    match most {
        None => match check(alloc, program, hook, bytes) {
            Ok(accepted) => Ok(accepted),
            Err(fault) => Err(WithinFault::Refused(fault)),
        },
        Some(most) => {
            let mut work = Work::within(most);
            let checked = check_counted(alloc, program, hook, bytes, &mut work);
            checked
        }
    }
}

/// Like `check`, but `work` has a limit of work, as for `bpf_verifier::verify_counted`, and counts each unit before it is
/// done: each part of a state that is examined, and of one that is compared with a claim. What was counted before stays.
/// The states that are examined, 80 units each at least, and the comparisons are within the units that are allowed.
/// Refused with 36 only if the work has passed the limit.
///
/// Besides that work the bytes are read, and each entry is compared with the start, in time in proportion to the bytes.
pub fn check_counted(
    alloc: Global,
    program: Program,
    hook: Hook,
    bytes: &[u8],
    work: &mut Work,
) -> Result<Accepted, WithinFault>
    ensures ok { IfOk result (IsAdmitted program hook bytes.now) }
    ensures only { (b : ℕ) → Covered program hook bytes.now b →
        Within (HasPassed work.new) (λ r. Admits r b) result }
    ensures err { Within (HasPassed work.new)
        (λ r. IfErr r (Refuses program hook bytes.now)) result }
    ensures most { work.new.most ≡ work.old.most }
    ensures compared { work.old.compared ≤ work.new.compared }
    ensures counted { CountsAll work.new }
    // A state was examined, and counted, for each entry of a certificate that is accepted.
    ensures entries { OnOk result
        (CountsEntries program bytes.now (Some work.old.most) work.old.examined work.new.examined) }
{
    let checked = admitted(alloc, program, hook, bytes, work);
    work.known();
    checked
}
