//! The bodies of data frames.

ghost use Rattle.std.specs.Prelude.{◌≡◌, ◌≤◌, length, IfOk, IfErr, Some};
ghost use Rattle.mac_frame.specs.Faults.{first, body_tests};
ghost use Rattle.mac_frame.specs.Reading.{IsDataBody, IsQosHeader};
ghost use Rattle.mac_frame.specs.declared.subtype.Subtype.TheVariants as subtypes;

use crate::content::DataKind;
use crate::fault::Fault;
use crate::fields::tail_from;
use mac_types::QosControl;

pub(crate) fn data(bytes: &[u8]) -> Result<(DataKind, &[u8]), Fault>
    requires { 24 ≤ length bytes.now }
    ensures fault { IfErr result (λ f. first (body_tests subtypes.Data bytes.now) ≡ Some f) }
    ensures found { IfOk result (λ x. IsDataBody subtypes.Data bytes.now x.0 x.1.now) }
{
    Ok((DataKind::Data, tail_from(bytes, 24)))
}

pub(crate) fn null(bytes: &[u8]) -> Result<(DataKind, &[u8]), Fault>
    requires { 24 ≤ length bytes.now }
    ensures fault { IfErr result (λ f. first (body_tests subtypes.Null bytes.now) ≡ Some f) }
    ensures found { IfOk result (λ x. IsDataBody subtypes.Null bytes.now x.0 x.1.now) }
{
    if bytes.len() != 24 {
        return Err(Fault::BodyLength);
    }
    Ok((DataKind::Null, tail_from(bytes, 24)))
}

pub(crate) fn qos_data(bytes: &[u8], qos: QosControl) -> Result<(DataKind, &[u8]), Fault>
    requires long { 26 ≤ length bytes.now }
    requires qos { IsQosHeader bytes.now qos }
    ensures fault { IfErr result (λ f. first (body_tests subtypes.QosData bytes.now) ≡ Some f) }
    ensures found { IfOk result (λ x. IsDataBody subtypes.QosData bytes.now x.0 x.1.now) }
{
    Ok((DataKind::QosData { qos }, tail_from(bytes, 26)))
}

pub(crate) fn qos_null(bytes: &[u8], qos: QosControl) -> Result<(DataKind, &[u8]), Fault>
    requires long { 26 ≤ length bytes.now }
    requires qos { IsQosHeader bytes.now qos }
    ensures fault { IfErr result (λ f. first (body_tests subtypes.QosNull bytes.now) ≡ Some f) }
    ensures found { IfOk result (λ x. IsDataBody subtypes.QosNull bytes.now x.0 x.1.now) }
{
    if bytes.len() != 26 {
        return Err(Fault::BodyLength);
    }
    Ok((DataKind::QosNull { qos }, tail_from(bytes, 26)))
}
