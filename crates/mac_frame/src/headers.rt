//! Reading the headers of frames.

ghost use Rattle.std.specs.Prelude.{◌≡◌, ◌≤◌, length, slice_index, true, false, Some, None, IfSome, IfNone};
ghost use Rattle.mac_types.specs.Fields.{flags_octet};
ghost use Rattle.mac_frame.specs.Faults.{first, header_tests};
ghost use Rattle.mac_frame.specs.Reading.{IsHeader, IsQosHeader};
ghost use Rattle.mac_frame.specs.declared.fault.Fault.TheVariants.{ReservedUse};
ghost use Rattle.mac_frame.specs.declared.subtype.HeaderKind.TheVariants as headers;

use crate::fields::{address_from, qos_from, sequence_from};
use crate::header::Header;
use mac_types::{FrameFlags, QosControl};

/// The header of a management frame. None if a field holds a reserved value.
pub(crate) fn management_header(bytes: &[u8]) -> Option<Header>
    requires { 24 ≤ length bytes.now }
    ensures none { IfNone result
        (first (header_tests headers.Management bytes.now) ≡ Some ReservedUse) }
    ensures found { IfSome result (IsHeader headers.Management false bytes.now) }
{
    let flags = FrameFlags::from_octet(bytes[1], false)?;
    let sequence = sequence_from(bytes, 22)?;
    Some(Header {
        flags,
        third: address_from(bytes, 16),
        sequence,
    })
}

/// The header of a data frame without QoS Control.
pub(crate) fn data_header(bytes: &[u8]) -> Option<Header>
    requires { 24 ≤ length bytes.now }
    ensures none { IfNone result (first (header_tests headers.Data bytes.now) ≡ Some ReservedUse) }
    ensures found { IfSome result (IsHeader headers.Data true bytes.now) }
{
    let flags = FrameFlags::from_octet(bytes[1], true)?;
    let sequence = sequence_from(bytes, 22)?;
    Some(Header {
        flags,
        third: address_from(bytes, 16),
        sequence,
    })
}

/// The header of a data frame with QoS Control.
pub(crate) fn qos_header(bytes: &[u8]) -> Option<(Header, QosControl)>
    requires { 26 ≤ length bytes.now }
    ensures none { IfNone result
        (first (header_tests headers.QosData bytes.now) ≡ Some ReservedUse) }
    ensures found { IfSome result (λ h. IsHeader headers.QosData true bytes.now h.0) }
    ensures qos { IfSome result (λ h. IsQosHeader bytes.now h.1) }
{
    let header = data_header(bytes)?;
    let qos = qos_from(bytes, 24)?;
    Some((header, qos))
}

/// The flags of a control frame.
pub(crate) fn control_flags(bytes: &[u8]) -> Option<FrameFlags>
    requires { 16 ≤ length bytes.now }
    ensures none { IfNone result
        (first (header_tests headers.Control bytes.now) ≡ Some ReservedUse) }
    ensures found { IfSome result (λ f. first (header_tests headers.Control bytes.now) ≡ None) }
    ensures octet { IfSome result (λ f. slice_index bytes.now 1 ≡ flags_octet false f) }
{
    let octet = bytes[1];
    FrameFlags::from_octet(octet, false)
}
