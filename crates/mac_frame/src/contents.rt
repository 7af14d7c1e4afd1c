//! What follows the first two addresses of a frame.

ghost use Rattle.std.specs.Prelude.{◌≡◌, ◌≤◌, ◌++◌, length, IfOk, IfErr, Some, None};
ghost use Rattle.mac_frame.specs.Kinds.{header_of, header_length};
ghost use Rattle.mac_frame.specs.Faults.{first, body_tests, header_tests, first_fault};
ghost use Rattle.mac_frame.specs.Reading.{IsBody, IsControlBody, IsDataBody, IsQosHeader, IsContentBody, IsWhole};
ghost use Rattle.mac_frame.specs.declared.subtype.HeaderKind.TheVariants as headers;

use crate::content::{Content, Control, DataKind, Management};
use crate::control_bodies::{block_ack, block_ack_req};
use crate::data_bodies::{data, null, qos_data, qos_null};
use crate::fault::Fault;
use crate::headers::{control_flags, data_header, management_header, qos_header};
use crate::management_bodies::{
    action, association_request, association_response, authentication, deauthentication,
    disassociation, reassociation_request, reassociation_response,
};
use crate::subtype::{HeaderKind, Subtype};
use mac_types::{FrameFlags, QosControl};

/// The flags and the content of a frame, and what follows its fixed fields.
type Parts<'a> = (FrameFlags, Content, &'a [u8]);

fn management_body(subtype: Subtype, bytes: &[u8]) -> Result<(Management, &[u8]), Fault>
    requires header { header_of subtype ≡ headers.Management }
    requires long { 24 ≤ length bytes.now }
    ensures fault { IfErr result (λ f. first (body_tests subtype bytes.now) ≡ Some f) }
    ensures found { IfOk result (λ x. IsBody subtype bytes.now x.0 x.1.now) }
{
    match subtype {
        Subtype::AssociationRequest => association_request(bytes),
        Subtype::AssociationResponse => association_response(bytes),
        Subtype::ReassociationRequest => reassociation_request(bytes),
        Subtype::ReassociationResponse => reassociation_response(bytes),
        Subtype::Disassociation => disassociation(bytes),
        Subtype::Authentication => authentication(bytes),
        Subtype::Deauthentication => deauthentication(bytes),
        _ => action(bytes),
    }
}

fn control_body(subtype: Subtype, bytes: &[u8]) -> Result<(Control, &[u8]), Fault>
    requires header { header_of subtype ≡ headers.Control }
    requires long { 16 ≤ length bytes.now }
    ensures fault { IfErr result (λ f. first (body_tests subtype bytes.now) ≡ Some f) }
    ensures found { IfOk result (λ x. IsControlBody subtype bytes.now x.0 x.1.now) }
{
    match subtype {
        Subtype::BlockAckReq => block_ack_req(bytes),
        _ => block_ack(bytes),
    }
}

fn data_body(subtype: Subtype, bytes: &[u8]) -> Result<(DataKind, &[u8]), Fault>
    requires header { header_of subtype ≡ headers.Data }
    requires long { 24 ≤ length bytes.now }
    ensures fault { IfErr result (λ f. first (body_tests subtype bytes.now) ≡ Some f) }
    ensures found { IfOk result (λ x. IsDataBody subtype bytes.now x.0 x.1.now) }
{
    match subtype {
        Subtype::Data => data(bytes),
        _ => null(bytes),
    }
}

fn qos_body(subtype: Subtype, bytes: &[u8], qos: QosControl) -> Result<(DataKind, &[u8]), Fault>
    requires header { header_of subtype ≡ headers.QosData }
    requires long { 26 ≤ length bytes.now }
    requires qos { IsQosHeader bytes.now qos }
    ensures fault { IfErr result (λ f. first (body_tests subtype bytes.now) ≡ Some f) }
    ensures found { IfOk result (λ x. IsDataBody subtype bytes.now x.0 x.1.now) }
{
    match subtype {
        Subtype::QosData => qos_data(bytes, qos),
        _ => qos_null(bytes, qos),
    }
}

fn management_parts(subtype: Subtype, bytes: &[u8]) -> Result<Parts<'_>, Fault>
    requires header { header_of subtype ≡ headers.Management }
    requires long { 24 ≤ length bytes.now }
    ensures fault { IfErr result (λ f. first
        (header_tests (header_of subtype) bytes.now ++ body_tests subtype bytes.now) ≡ Some f) }
    ensures found { IfOk result (λ p. IsContentBody subtype bytes.now p.0 p.1 p.2.now) }
{
    let Some(header) = management_header(bytes) else {
        return Err(Fault::ReservedUse);
    };
    let (body, tail) = match management_body(subtype, bytes) {
        Ok(found) => found,
        Err(fault) => return Err(fault),
    };
    let content = Content::Management {
        bssid: header.third,
        sequence: header.sequence,
        body,
    };
    Ok((header.flags, content, tail))
}

fn control_parts(subtype: Subtype, bytes: &[u8]) -> Result<Parts<'_>, Fault>
    requires header { header_of subtype ≡ headers.Control }
    requires long { 16 ≤ length bytes.now }
    ensures fault { IfErr result (λ f. first
        (header_tests (header_of subtype) bytes.now ++ body_tests subtype bytes.now) ≡ Some f) }
    ensures found { IfOk result (λ p. IsContentBody subtype bytes.now p.0 p.1 p.2.now) }
{
    let Some(flags) = control_flags(bytes) else {
        return Err(Fault::ReservedUse);
    };
    let (body, tail) = match control_body(subtype, bytes) {
        Ok(found) => found,
        Err(fault) => return Err(fault),
    };
    Ok((flags, Content::Control { body }, tail))
}

fn data_parts(subtype: Subtype, bytes: &[u8]) -> Result<Parts<'_>, Fault>
    requires header { header_of subtype ≡ headers.Data }
    requires long { 24 ≤ length bytes.now }
    ensures fault { IfErr result (λ f. first
        (header_tests (header_of subtype) bytes.now ++ body_tests subtype bytes.now) ≡ Some f) }
    ensures found { IfOk result (λ p. IsContentBody subtype bytes.now p.0 p.1 p.2.now) }
{
    let Some(header) = data_header(bytes) else {
        return Err(Fault::ReservedUse);
    };
    let (kind, tail) = match data_body(subtype, bytes) {
        Ok(found) => found,
        Err(fault) => return Err(fault),
    };
    let content = Content::Data {
        destination: header.third,
        sequence: header.sequence,
        kind,
    };
    Ok((header.flags, content, tail))
}

fn qos_parts(subtype: Subtype, bytes: &[u8]) -> Result<Parts<'_>, Fault>
    requires header { header_of subtype ≡ headers.QosData }
    requires long { 26 ≤ length bytes.now }
    ensures fault { IfErr result (λ f. first
        (header_tests (header_of subtype) bytes.now ++ body_tests subtype bytes.now) ≡ Some f) }
    ensures found { IfOk result (λ p. IsContentBody subtype bytes.now p.0 p.1 p.2.now) }
{
    let Some((header, qos)) = qos_header(bytes) else {
        return Err(Fault::ReservedUse);
    };
    let (kind, tail) = match qos_body(subtype, bytes, qos) {
        Ok(found) => found,
        Err(fault) => return Err(fault),
    };
    let content = Content::Data {
        destination: header.third,
        sequence: header.sequence,
        kind,
    };
    Ok((header.flags, content, tail))
}

fn parts_by_header(subtype: Subtype, kind: HeaderKind, bytes: &[u8]) -> Result<Parts<'_>, Fault>
    requires header { header_of subtype ≡ kind }
    requires long { header_length kind ≤ length bytes.now }
    ensures fault { IfErr result (λ f. first
        (header_tests (header_of subtype) bytes.now ++ body_tests subtype bytes.now) ≡ Some f) }
    ensures found { IfOk result (λ p. IsContentBody subtype bytes.now p.0 p.1 p.2.now) }
{
    match kind {
        HeaderKind::Management => management_parts(subtype, bytes),
        HeaderKind::Control => control_parts(subtype, bytes),
        HeaderKind::Data => data_parts(subtype, bytes),
        HeaderKind::QosData => qos_parts(subtype, bytes),
    }
}

/// The parts of a frame, or the first fault.
pub(crate) fn parts_from(bytes: &[u8]) -> Result<Parts<'_>, Fault>
    ensures fault { IfErr result (λ f. first_fault bytes.now ≡ Some f) }
    ensures found { IfOk result (λ p. IsWhole bytes.now p.0 p.1 p.2.now) }
{
    if bytes.len() > 2400 {
        return Err(Fault::BodyLength);
    }
    if bytes.len() < 2 {
        return Err(Fault::TooShort);
    }
    if bytes[0] % 4 != 0 {
        return Err(Fault::WrongVersion);
    }
    let Some(subtype) = Subtype::from_first_byte(bytes[0]) else {
        return Err(Fault::Unsupported);
    };
    let kind = subtype.header();
    if bytes.len() < kind.len() {
        return Err(Fault::TooShort);
    }
    parts_by_header(subtype, kind, bytes)
}
