//! Making and checking certificates.

ghost use Rattle.std.specs.Prelude.{◌≡◌, ◌≢◌, ◌⊎◌, map, Some, None, OnOk, IfOk, IfErr, IsSome, length, min, take};
ghost use Rattle.bpf_regions.specs.declared.hooks.Hook.{Hook as AHook};
ghost use Rattle.bpf_regions.specs.Hooks.{number_of};
ghost use Rattle.apd_c.specs.Answers.{UnlessSome, answer};
ghost use Rattle.apd_c.specs.Held.{held};
ghost use Rattle.apd_c.specs.Given.{IsAskable, shape_of};
ghost use Rattle.apd_c.specs.Certificates.{IsShown, Certifies, HoldsCertificate, HoldsShown, IsUnshown, IsCertifiedOr, IsCertifyAnswer, IsCheckVerdict, IsTooMuchWork, bytes_of};
ghost use Rattle.apd_c.specs.Code.{IsUndecoded, code_of, work_limit};

use crate::answer::{Answer, NO_MEMORY, NOT_EMPTY, OTHER_VALUE, OUT_OF_LIMITS, TOO_MUCH_WORK};
use crate::code::{hook_of, work_limit};
use crate::handle::{Content, Handle};
use crate::shapes::{MapShape, shapes_from};
use bpf_cert::{WithinFault, certificate, check_within};
use bpf_decode::decode;
use bpf_machine::Accepted;
use bpf_regions::{Hook, Shapes};
use std::alloc::Global;

/// The certificate of a content that is a program.
fn certified(alloc: Global, content: &Content) -> Result<Vec<u8>, Answer>
    ensures ok { IfOk result (λ bytes. Certifies (Some content.now) bytes.items) }
    ensures err { IfErr result (λ e. e.number ≢ 0) }
    ensures why { IfErr result (UnlessSome (code_of (Some content.now)) (answer 91) IsCertifiedOr) }
{
    match content {
        Content::Code(accepted) => match certificate(alloc, accepted) {
            Ok(bytes) => Ok(bytes),
            Err(refusal) => Err(Answer {
                number: u32::from(refusal.number()),
                slot: refusal.pc,
            }),
        },
        _ => Err(Answer::of(OTHER_VALUE)),
    }
}

/// The same if a handle holds a program.
fn certificate_of(alloc: Global, code: &mut Handle) -> Result<Vec<u8>, Answer>
    ensures ok { IfOk result (λ bytes. Certifies (held code.old) bytes.items) }
    ensures err { IfErr result (λ e. e.number ≢ 0) }
    ensures why { IfErr result (UnlessSome (code_of (held code.old)) (answer 91) IsCertifiedOr) }
    ensures kept { held code.new ≡ held code.old }
{
    match code.lent() {
        None => Err(Answer::of(OTHER_VALUE)),
        Some(content) => certified(alloc, content),
    }
}

/// Fills an empty handle with the certificate of a program: bytes, which `apd_c_read` reads.
///
/// 0: the handle holds it. 30 to 38: the verifier refuses the program, which may happen if `apd_c_check` admitted it,
/// or its states don't fit in a certificate. 40: an allocation failed. 91: the other handle holds no program. 92: the
/// handle isn't empty. All but 0 leave both handles unchanged.
#[unsafe(no_mangle)]
pub extern "C" fn apd_c_certify(
    alloc: Global,
    certificate: &mut Handle,
    code: &mut Handle,
) -> Answer
    ensures covered { result.number ≡ 0 → HoldsCertificate (held code.old) (held certificate.new) }
    ensures kept { result.number ≢ 0 → held certificate.new ≡ held certificate.old }
    ensures code { held code.new ≡ held code.old }
    ensures why { IsCertifyAnswer (held code.old) (held certificate.old) result }
{
    if !certificate.is_empty() {
        return Answer::of(NOT_EMPTY);
    }
    match certificate_of(alloc, code) {
        Err(answer) => answer,
        Ok(bytes) => certificate.fill(alloc, Content::Bytes(bytes)),
    }
}

/// The bytes of a certificate, and the most work that its check may take.
#[derive(Clone, Copy)]
struct Certificate<'a> {
    bytes: &'a [u8],
    most: Option<u64>,
}

/// The program that the bytes spell, if a certificate shows it safe within a budget.
fn shown(
    alloc: Global,
    hook: Hook,
    bytes: &[u8],
    shapes: Shapes,
    certificate: Certificate<'_>,
) -> Result<Accepted, Answer>
    ensures ok { IfOk result (IsShown hook bytes.now shapes certificate.entry.bytes.now) }
    ensures err { IfErr result (λ e. e.number ≢ 0) }
    ensures why { IfErr result (λ e. IsUndecoded bytes.now shapes e
        ⊎ IsUnshown hook bytes.now shapes certificate.entry.bytes.now e
        ⊎ IsTooMuchWork certificate.entry.most e) }
{
    match decode(alloc, bytes, shapes) {
        Err(fault) => Err(Answer {
            number: u32::from(fault.number()),
            slot: fault.slot(),
        }),
        Ok(program) => {
            let Certificate {
                bytes: spelled,
                most,
            } = certificate;
            match check_within(alloc, program, hook, spelled, most) {
                Err(fault) => match fault {
                    WithinFault::Refused(fault) => Err(Answer::of(u32::from(fault.number()))),
                    WithinFault::TooMuchWork => Err(Answer::of(TOO_MUCH_WORK)),
                },
                Ok(accepted) => {
                    let _safe = accepted.program();
                    Ok(accepted)
                }
            }
        }
    }
}

/// The same for a hook and maps as C describes them.
fn shown_for(
    alloc: Global,
    hook: u32,
    bytes: &[u8],
    shapes: &[MapShape],
    certificate: Certificate<'_>,
) -> Result<Accepted, Answer>
    ensures ok { IfOk result (λ a. (h : AHook) × (hook ≡ number_of h) ×
        IsShown h bytes.now (map shape_of shapes.now) certificate.entry.bytes.now a) }
    ensures err { IfErr result (λ e. e.number ≢ 0) }
    ensures within { OnOk result (IsAskable hook shapes.now) }
    ensures why { IfErr result (IsCheckVerdict hook bytes.now shapes.now
        certificate.entry.bytes.now certificate.entry.most None) }
{
    let Some(hook) = hook_of(hook) else {
        return Err(Answer::of(OUT_OF_LIMITS));
    };
    match shapes_from(alloc, shapes) {
        Err(_) => Err(Answer::of(NO_MEMORY)),
        Ok(None) => Err(Answer::of(OUT_OF_LIMITS)),
        Ok(Some(shapes)) => shown(alloc, hook, bytes, shapes, certificate),
    }
}

/// Fills an empty handle with a program, as `apd_c_verify` does, if a certificate shows it safe within a budget. The
/// program isn't explored. Work is counted in the verifier's units: each part of a state that is examined, and of one
/// that is compared with one of the certificate. The check does at most `work`; 0 stands for no limit.
///
/// 0: the handle holds it. 1 to 3 and 10 to 19: the bytes aren't well-formed code. 36: more work is needed, which
/// is possible only if the limit isn't 0. 70: the certificate is malformed. 71: it is for another hook or other code. 72:
/// it doesn't show the program safe. 40: an allocation failed. 90: there is no such hook, or the shapes are out of their
/// limits. 92: the handle isn't empty. All but 0 leave the handle unchanged.
#[unsafe(no_mangle)]
pub extern "C" fn apd_c_check_within(
    alloc: Global,
    code: &mut Handle,
    hook: u32,
    bytes: &[u8],
    shapes: &[MapShape],
    certificate: &[u8],
    work: u64,
) -> Answer
    ensures shown { result.number ≡ 0 →
        HoldsShown hook bytes.now shapes.now certificate.now (held code.new) }
    ensures kept { result.number ≢ 0 → held code.new ≡ held code.old }
    ensures why { IsCheckVerdict hook bytes.now shapes.now certificate.now (work_limit work)
        (held code.old) result }
{
    if !code.is_empty() {
        return Answer::of(NOT_EMPTY);
    }
    let certificate = Certificate {
        bytes: certificate,
        most: work_limit(work),
    };
    match shown_for(alloc, hook, bytes, shapes, certificate) {
        Err(answer) => answer,
        Ok(accepted) => code.fill_code(alloc, accepted),
    }
}

/// `apd_c_check_within` without a limit of work.
#[unsafe(no_mangle)]
pub extern "C" fn apd_c_check(
    alloc: Global,
    code: &mut Handle,
    hook: u32,
    bytes: &[u8],
    shapes: &[MapShape],
    certificate: &[u8],
) -> Answer
    ensures shown { result.number ≡ 0 →
        HoldsShown hook bytes.now shapes.now certificate.now (held code.new) }
    ensures kept { result.number ≢ 0 → held code.new ≡ held code.old }
    ensures why { IsCheckVerdict hook bytes.now shapes.now certificate.now None (held code.old)
        result }
{
    apd_c_check_within(alloc, code, hook, bytes, shapes, certificate, 0)
}

/// Copies as many bytes as fit.
pub(crate) fn copied(bytes: &[u8], into: &mut [u8])
    ensures copied { take (min (length bytes.now) (length into.old)) into.new ≡
        take (min (length bytes.now) (length into.old)) bytes.now }
{
    let count = bytes.len().min(into.len());
    into[..count].copy_from_slice(&bytes[..count]);
}

/// Copies as many bytes of a content as fit, and returns how many it has.
fn read(content: &Content, into: &mut [u8]) -> usize
    ensures count { result ≡ length (bytes_of (Some content.now)) }
    ensures copied { take (min result (length into.old)) into.new ≡
        take (min result (length into.old)) (bytes_of (Some content.now)) }
{
    match content {
        Content::Bytes(bytes) => {
            copied(bytes.as_slice(), into);
            bytes.len()
        }
        _ => 0,
    }
}

/// Copies as many of the bytes that a handle holds as fit, and returns how many it holds; 0 if it holds none.
#[unsafe(no_mangle)]
pub extern "C" fn apd_c_read(bytes: &mut Handle, into: &mut [u8]) -> usize
    ensures count { result ≡ length (bytes_of (held bytes.old)) }
    ensures copied { take (min result (length into.old)) into.new ≡
        take (min result (length into.old)) (bytes_of (held bytes.old)) }
    ensures kept { held bytes.new ≡ held bytes.old }
{
    match bytes.lent() {
        None => 0,
        Some(content) => read(content, into),
    }
}
