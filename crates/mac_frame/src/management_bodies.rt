//! The bodies of management frames, a function for each kind.

ghost use Rattle.std.specs.Prelude.{◌≡◌, ◌≤◌, ◌∷◌, length, drop, slice_index, true, false, IfOk, IfErr, OnOk, OnErr, Some};
ghost use Rattle.mac_frame.specs.declared.fault.Fault.TheVariants.{ElementCut};
ghost use Rattle.mac_frame.specs.Elements.{is_cut, AreElements};
ghost use Rattle.mac_frame.specs.Faults.{first, body_tests};
ghost use Rattle.mac_frame.specs.Reading.{IsBody};
ghost use Rattle.mac_frame.specs.declared.subtype.Subtype.TheVariants as subtypes;

use crate::content::Management;
use crate::elements::ends_within;
use crate::fault::Fault;
use crate::fields::{
    address_from, aid_from, byte_from, capability_from, delba_parameters_from, parameters_from,
    reason_from, sequence_from, status_from, tail_from, word_from,
};

/// The elements from `at` on, if none is cut.
#[tactic(auto, using(crate::proofs::Cutting::are_elements))]
fn elements_from(bytes: &[u8], at: usize) -> Result<&[u8], Fault>
    requires { at ≤ length bytes.now }
    ensures fault { IfErr result (λ f. f ≡ ElementCut) }
    ensures cut { OnErr result (is_cut (drop at bytes.now) ≡ true) }
    ensures whole { OnOk result (is_cut (drop at bytes.now) ≡ false) }
    ensures found { IfOk result (λ tail. tail.now ≡ drop at bytes.now) }
    ensures elements { OnOk result (AreElements (drop at bytes.now)) }
{
    let tail = tail_from(bytes, at);
    if ends_within(tail) {
        return Err(Fault::ElementCut);
    }
    Ok(tail)
}

pub(crate) fn association_request(bytes: &[u8]) -> Result<(Management, &[u8]), Fault>
    requires { 24 ≤ length bytes.now }
    ensures fault { IfErr result
        (λ f. first (body_tests subtypes.AssociationRequest bytes.now) ≡ Some f) }
    ensures found { IfOk result (λ x. IsBody subtypes.AssociationRequest bytes.now x.0 x.1.now) }
{
    if bytes.len() < 28 {
        return Err(Fault::BodyLength);
    }
    let tail = elements_from(bytes, 28)?;
    let body = Management::AssociationRequest {
        capability: capability_from(bytes, 24),
        listen_interval: word_from(bytes, 26),
    };
    Ok((body, tail))
}

pub(crate) fn association_response(bytes: &[u8]) -> Result<(Management, &[u8]), Fault>
    requires { 24 ≤ length bytes.now }
    ensures fault { IfErr result
        (λ f. first (body_tests subtypes.AssociationResponse bytes.now) ≡ Some f) }
    ensures found { IfOk result (λ x. IsBody subtypes.AssociationResponse bytes.now x.0 x.1.now) }
{
    if bytes.len() < 30 {
        return Err(Fault::BodyLength);
    }
    let tail = elements_from(bytes, 30)?;
    let body = Management::AssociationResponse {
        capability: capability_from(bytes, 24),
        status: status_from(bytes, 26),
        aid: aid_from(bytes, 28),
    };
    Ok((body, tail))
}

pub(crate) fn reassociation_request(bytes: &[u8]) -> Result<(Management, &[u8]), Fault>
    requires { 24 ≤ length bytes.now }
    ensures fault { IfErr result
        (λ f. first (body_tests subtypes.ReassociationRequest bytes.now) ≡ Some f) }
    ensures found { IfOk result (λ x. IsBody subtypes.ReassociationRequest bytes.now x.0 x.1.now) }
{
    if bytes.len() < 34 {
        return Err(Fault::BodyLength);
    }
    let tail = elements_from(bytes, 34)?;
    let body = Management::ReassociationRequest {
        capability: capability_from(bytes, 24),
        listen_interval: word_from(bytes, 26),
        current_ap: address_from(bytes, 28),
    };
    Ok((body, tail))
}

pub(crate) fn reassociation_response(bytes: &[u8]) -> Result<(Management, &[u8]), Fault>
    requires { 24 ≤ length bytes.now }
    ensures fault { IfErr result
        (λ f. first (body_tests subtypes.ReassociationResponse bytes.now) ≡ Some f) }
    ensures found { IfOk result (λ x. IsBody subtypes.ReassociationResponse bytes.now x.0 x.1.now) }
{
    if bytes.len() < 30 {
        return Err(Fault::BodyLength);
    }
    let tail = elements_from(bytes, 30)?;
    let body = Management::ReassociationResponse {
        capability: capability_from(bytes, 24),
        status: status_from(bytes, 26),
        aid: aid_from(bytes, 28),
    };
    Ok((body, tail))
}

pub(crate) fn disassociation(bytes: &[u8]) -> Result<(Management, &[u8]), Fault>
    requires { 24 ≤ length bytes.now }
    ensures fault { IfErr result
        (λ f. first (body_tests subtypes.Disassociation bytes.now) ≡ Some f) }
    ensures found { IfOk result (λ x. IsBody subtypes.Disassociation bytes.now x.0 x.1.now) }
{
    if bytes.len() != 26 {
        return Err(Fault::BodyLength);
    }
    let body = Management::Disassociation {
        reason: reason_from(bytes, 24),
    };
    Ok((body, tail_from(bytes, 26)))
}

pub(crate) fn authentication(bytes: &[u8]) -> Result<(Management, &[u8]), Fault>
    requires { 24 ≤ length bytes.now }
    ensures fault { IfErr result
        (λ f. first (body_tests subtypes.Authentication bytes.now) ≡ Some f) }
    ensures found { IfOk result (λ x. IsBody subtypes.Authentication bytes.now x.0 x.1.now) }
{
    if bytes.len() != 30 {
        return Err(Fault::BodyLength);
    }
    let body = Management::Authentication {
        algorithm: word_from(bytes, 24),
        transaction: word_from(bytes, 26),
        status: status_from(bytes, 28),
    };
    Ok((body, tail_from(bytes, 30)))
}

pub(crate) fn deauthentication(bytes: &[u8]) -> Result<(Management, &[u8]), Fault>
    requires { 24 ≤ length bytes.now }
    ensures fault { IfErr result
        (λ f. first (body_tests subtypes.Deauthentication bytes.now) ≡ Some f) }
    ensures found { IfOk result (λ x. IsBody subtypes.Deauthentication bytes.now x.0 x.1.now) }
{
    if bytes.len() != 26 {
        return Err(Fault::BodyLength);
    }
    let body = Management::Deauthentication {
        reason: reason_from(bytes, 24),
    };
    Ok((body, tail_from(bytes, 26)))
}

fn addba_request(bytes: &[u8]) -> Result<(Management, &[u8]), Fault>
    requires long { 26 ≤ length bytes.now }
    requires category { slice_index bytes.now 24 ≡ 3 }
    requires action { slice_index bytes.now 25 ≡ 0 }
    requires opening { drop 24 bytes.now ≡ 3 ∷ 0 ∷ drop 26 bytes.now }
    ensures fault { IfErr result (λ f. first (body_tests subtypes.Action bytes.now) ≡ Some f) }
    ensures found { IfOk result (λ x. IsBody subtypes.Action bytes.now x.0 x.1.now) }
{
    if bytes.len() != 33 {
        return Err(Fault::BodyLength);
    }
    let Some(parameters) = parameters_from(bytes, 27) else {
        return Err(Fault::ReservedUse);
    };
    let Some(start) = sequence_from(bytes, 31) else {
        return Err(Fault::ReservedUse);
    };
    let body = Management::AddbaRequest {
        dialog_token: byte_from(bytes, 26),
        parameters,
        timeout: word_from(bytes, 29),
        start,
    };
    Ok((body, tail_from(bytes, 33)))
}

fn addba_response(bytes: &[u8]) -> Result<(Management, &[u8]), Fault>
    requires long { 26 ≤ length bytes.now }
    requires category { slice_index bytes.now 24 ≡ 3 }
    requires action { slice_index bytes.now 25 ≡ 1 }
    requires opening { drop 24 bytes.now ≡ 3 ∷ 1 ∷ drop 26 bytes.now }
    ensures fault { IfErr result (λ f. first (body_tests subtypes.Action bytes.now) ≡ Some f) }
    ensures found { IfOk result (λ x. IsBody subtypes.Action bytes.now x.0 x.1.now) }
{
    if bytes.len() != 33 {
        return Err(Fault::BodyLength);
    }
    let Some(parameters) = parameters_from(bytes, 29) else {
        return Err(Fault::ReservedUse);
    };
    let body = Management::AddbaResponse {
        dialog_token: byte_from(bytes, 26),
        status: status_from(bytes, 27),
        parameters,
        timeout: word_from(bytes, 31),
    };
    Ok((body, tail_from(bytes, 33)))
}

fn delba(bytes: &[u8]) -> Result<(Management, &[u8]), Fault>
    requires long { 26 ≤ length bytes.now }
    requires category { slice_index bytes.now 24 ≡ 3 }
    requires action { slice_index bytes.now 25 ≡ 2 }
    requires opening { drop 24 bytes.now ≡ 3 ∷ 2 ∷ drop 26 bytes.now }
    ensures fault { IfErr result (λ f. first (body_tests subtypes.Action bytes.now) ≡ Some f) }
    ensures found { IfOk result (λ x. IsBody subtypes.Action bytes.now x.0 x.1.now) }
{
    if bytes.len() != 30 {
        return Err(Fault::BodyLength);
    }
    let Some(parameters) = delba_parameters_from(bytes, 26) else {
        return Err(Fault::ReservedUse);
    };
    let body = Management::Delba {
        parameters,
        reason: reason_from(bytes, 28),
    };
    Ok((body, tail_from(bytes, 30)))
}

/// An action frame's body: category 3 (block acknowledgement) and one of its actions.
pub(crate) fn action(bytes: &[u8]) -> Result<(Management, &[u8]), Fault>
    requires { 24 ≤ length bytes.now }
    ensures fault { IfErr result (λ f. first (body_tests subtypes.Action bytes.now) ≡ Some f) }
    ensures found { IfOk result (λ x. IsBody subtypes.Action bytes.now x.0 x.1.now) }
{
    if bytes.len() < 26 {
        return Err(Fault::BodyLength);
    }
    if byte_from(bytes, 24) != 3 {
        return Err(Fault::Unsupported);
    }
    match byte_from(bytes, 25) {
        0 => addba_request(bytes),
        1 => addba_response(bytes),
        2 => delba(bytes),
        _ => Err(Fault::Unsupported),
    }
}
