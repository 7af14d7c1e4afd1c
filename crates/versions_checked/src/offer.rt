//! Publication after a check.

ghost use Rattle.std.specs.Prelude.{◌≡◌, ℕ, None, IfOk, IfErr, OnErr};
ghost use Rattle.versions_checked.specs.Publishing.{IsPublished, IsRefusal, IsShown, Obtains};

use crate::fault::CheckedFault;
use bpf_cert::check_within;
use bpf_decode::Program;
use bpf_regions::Hook;
use std::alloc::Global;
use std::sync::{Arc, Wait};
use versions::{PublishFault, Publisher};

/// A program for a hook, with the bytes of a certificate.
#[derive(Drop)]
pub struct Offer<'a> {
    pub program: Program,
    pub hook: Hook,
    pub certificate: &'a [u8],
}

/// Checks a certificate, publishes its program for its hook, and returns the budget. Waits like `Publisher::publish`.
///
/// 70 to 72: the certificate isn't accepted, as `check` defines it. 60: it is, but the program's map shapes aren't
/// those of the published sets. 40: lack of memory, or as `publish` defines it. After any refusal the published set is
/// unchanged.
pub fn publish_checked<R: Wait>(
    rt: &R,
    alloc: Global,
    publisher: &mut Publisher,
    offer: Offer<'_>,
) -> Result<u32, CheckedFault>
    ensures list { publisher.new.list ≡ publisher.old.list }
    ensures shapes { publisher.new.shapes ≡ publisher.old.shapes }
    ensures added { IfOk result (IsPublished publisher.old publisher.new offer.entry) }
    ensures refused { OnErr result (publisher.new ≡ publisher.old) }
    ensures why { IfErr result (IsRefusal None publisher.old offer.entry) }
    // If the certificate shows a budget, it is returned, or 60 if the shapes differ, or 40.
    ensures only { (b : ℕ) → IsShown offer.entry b →
        Obtains None publisher.old offer.entry result b }
{
    publish_checked_within(rt, alloc, publisher, offer, None)
}

/// Like `publish_checked`, but the check does no more work than `most`, if there is such a limit: a certificate that
/// needs more is refused with 36, as by `check_within`.
pub fn publish_checked_within<R: Wait>(
    rt: &R,
    alloc: Global,
    publisher: &mut Publisher,
    offer: Offer<'_>,
    most: Option<u64>,
) -> Result<u32, CheckedFault>
    ensures list { publisher.new.list ≡ publisher.old.list }
    ensures shapes { publisher.new.shapes ≡ publisher.old.shapes }
    ensures added { IfOk result (IsPublished publisher.old publisher.new offer.entry) }
    ensures refused { OnErr result (publisher.new ≡ publisher.old) }
    ensures why { IfErr result (IsRefusal most publisher.old offer.entry) }
    // If the certificate shows a budget, it is returned, or 60 if the shapes differ, or 40, or 36.
    ensures only { (b : ℕ) → IsShown offer.entry b →
        Obtains most publisher.old offer.entry result b }
{
    let Offer {
        program,
        hook,
        certificate,
    } = offer;
    let accepted = check_within(alloc, program, hook, certificate, most)?;
    let budget = accepted.budget();
    let shared = Arc::new(alloc, accepted)?;
    match publisher.publish(rt, hook, Some(shared)) {
        Ok(()) => return Ok(budget),
        Err(PublishFault::NoMemory) => return Err(CheckedFault::Publication(
            PublishFault::NoMemory,
        )),
        Err(PublishFault::OtherShapes) => {
            return Err(CheckedFault::Publication(PublishFault::OtherShapes));
        }
    }
}
