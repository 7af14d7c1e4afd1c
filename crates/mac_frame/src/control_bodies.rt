//! The bodies of block acknowledgement frames.

ghost use Rattle.std.specs.Prelude.{◌≡◌, ◌≤◌, length, IfOk, IfErr, Some};
ghost use Rattle.mac_frame.specs.Faults.{first, body_tests};
ghost use Rattle.mac_frame.specs.Reading.{IsControlBody};
ghost use Rattle.mac_frame.specs.declared.subtype.Subtype.TheVariants as subtypes;

use crate::content::Control;
use crate::fault::Fault;
use crate::fields::{bitmap_from, block_ack_tid_from, sequence_from, tail_from};

pub(crate) fn block_ack_req(bytes: &[u8]) -> Result<(Control, &[u8]), Fault>
    requires { 16 ≤ length bytes.now }
    ensures fault { IfErr result (λ f. first (body_tests subtypes.BlockAckReq bytes.now) ≡ Some f) }
    ensures found { IfOk result (λ x. IsControlBody subtypes.BlockAckReq bytes.now x.0 x.1.now) }
{
    if bytes.len() != 20 {
        return Err(Fault::BodyLength);
    }
    let Some(tid) = block_ack_tid_from(bytes, 16) else {
        return Err(Fault::ReservedUse);
    };
    let Some(start) = sequence_from(bytes, 18) else {
        return Err(Fault::ReservedUse);
    };
    Ok((Control::BlockAckReq { tid, start }, tail_from(bytes, 20)))
}

pub(crate) fn block_ack(bytes: &[u8]) -> Result<(Control, &[u8]), Fault>
    requires { 16 ≤ length bytes.now }
    ensures fault { IfErr result (λ f. first (body_tests subtypes.BlockAck bytes.now) ≡ Some f) }
    ensures found { IfOk result (λ x. IsControlBody subtypes.BlockAck bytes.now x.0 x.1.now) }
{
    if bytes.len() != 28 {
        return Err(Fault::BodyLength);
    }
    let Some(tid) = block_ack_tid_from(bytes, 16) else {
        return Err(Fault::ReservedUse);
    };
    let Some(start) = sequence_from(bytes, 18) else {
        return Err(Fault::ReservedUse);
    };
    let bitmap = bitmap_from(bytes, 20);
    Ok((
        Control::BlockAck { tid, start, bitmap },
        tail_from(bytes, 28),
    ))
}
