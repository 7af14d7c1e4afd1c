//! Fields of a frame, by position.

ghost use Rattle.std.specs.Prelude.{◌≡◌, ◌+◌, ◌≤◌, ◌++◌, ◌∷◌, ◌<◌, ◌^◌, length, drop, slice_index, is_some, IfSome};
ghost use Rattle.std.specs.Int.{w64, to_le_bytes};
ghost use Rattle.mac_types.specs.Numbers.{IsWord, IsAddress, IsTid, IsSequenceNumber, sequence_control, is_sequence_control, block_ack_control, is_block_ack_control};
ghost use Rattle.mac_types.specs.Fields.{IsQosControl, qos_control, is_qos_control, IsBlockAckParameters, block_ack_parameters, are_block_ack_parameters, IsDelbaParameters, delba_parameters, are_delba_parameters};
ghost use Rattle.mac_frame.specs.Faults.{word_at};
ghost use Rattle.mac_frame.specs.Spelling.{word};

use byteorder::{ByteOrder, LittleEndian};
use mac_types::{
    Address, AidField, BlockAckParameters, Capability, DelbaParameters, QosControl, Reason,
    SequenceNumber, Status, Tid,
};

pub(crate) fn tail_from(bytes: &[u8], at: usize) -> &[u8]
    requires { at ≤ length bytes.now }
    ensures { result.now ≡ drop at bytes.now }
{
    &bytes[at..]
}

pub(crate) fn byte_from(bytes: &[u8], at: usize) -> u8
    requires { at < length bytes.now }
    ensures value { result ≡ slice_index bytes.now at }
    ensures spelled { drop at bytes.now ≡ result ∷ drop (at + 1) bytes.now }
{
    bytes[at]
}

/// The number of two bytes from `at` on.
pub(crate) fn word_from(bytes: &[u8], at: usize) -> u16
    requires { at + 2 ≤ length bytes.now }
    ensures value { result ≡ word_at bytes.now at }
    ensures fits { IsWord result }
    ensures spelled { drop at bytes.now ≡ word result ++ drop (at + 2) bytes.now }
{
    LittleEndian::read_u16(tail_from(bytes, at))
}

pub(crate) fn capability_from(bytes: &[u8], at: usize) -> Capability
    requires { at + 2 ≤ length bytes.now }
    ensures fits { IsWord result }
    ensures spelled { drop at bytes.now ≡ word result ++ drop (at + 2) bytes.now }
{
    Capability::new(word_from(bytes, at))
}

pub(crate) fn status_from(bytes: &[u8], at: usize) -> Status
    requires { at + 2 ≤ length bytes.now }
    ensures fits { IsWord result }
    ensures spelled { drop at bytes.now ≡ word result ++ drop (at + 2) bytes.now }
{
    Status::new(word_from(bytes, at))
}

pub(crate) fn aid_from(bytes: &[u8], at: usize) -> AidField
    requires { at + 2 ≤ length bytes.now }
    ensures fits { IsWord result }
    ensures spelled { drop at bytes.now ≡ word result ++ drop (at + 2) bytes.now }
{
    AidField::new(word_from(bytes, at))
}

pub(crate) fn reason_from(bytes: &[u8], at: usize) -> Reason
    requires { at + 2 ≤ length bytes.now }
    ensures fits { IsWord result }
    ensures spelled { drop at bytes.now ≡ word result ++ drop (at + 2) bytes.now }
{
    Reason::new(word_from(bytes, at))
}

/// The number of eight bytes from `at` on.
pub(crate) fn bitmap_from(bytes: &[u8], at: usize) -> u64
    requires { at + 8 ≤ length bytes.now }
    ensures fits { result < 2 ^ 64 }
    ensures spelled { drop at bytes.now ≡ to_le_bytes w64 result ++ drop (at + 8) bytes.now }
{
    LittleEndian::read_u64(tail_from(bytes, at))
}

pub(crate) fn address_from(bytes: &[u8], at: usize) -> Address
    requires { at + 6 ≤ length bytes.now }
    ensures fits { IsAddress result }
    ensures spelled { drop at bytes.now ≡ result ++ drop (at + 6) bytes.now }
{
    Address::new([
        bytes[at],
        bytes[at + 1],
        bytes[at + 2],
        bytes[at + 3],
        bytes[at + 4],
        bytes[at + 5],
    ])
}

/// The sequence number at `at`. None if there is a fragment number.
pub(crate) fn sequence_from(bytes: &[u8], at: usize) -> Option<SequenceNumber>
    requires { at + 2 ≤ length bytes.now }
    ensures variant { is_some result ≡ is_sequence_control (word_at bytes.now at) }
    ensures fits { IfSome result IsSequenceNumber }
    ensures spelled { IfSome result
        (λ n. drop at bytes.now ≡ word (sequence_control n) ++ drop (at + 2) bytes.now) }
{
    SequenceNumber::from_control(word_from(bytes, at))
}

/// The QoS control at `at`, if valid.
pub(crate) fn qos_from(bytes: &[u8], at: usize) -> Option<QosControl>
    requires { at + 2 ≤ length bytes.now }
    ensures variant { is_some result ≡ is_qos_control (word_at bytes.now at) }
    ensures fits { IfSome result IsQosControl }
    ensures spelled { IfSome result
        (λ q. drop at bytes.now ≡ word (qos_control q) ++ drop (at + 2) bytes.now) }
{
    QosControl::from_field(word_from(bytes, at))
}

/// The parameters of an ADDBA frame at `at`, if valid.
pub(crate) fn parameters_from(bytes: &[u8], at: usize) -> Option<BlockAckParameters>
    requires { at + 2 ≤ length bytes.now }
    ensures variant { is_some result ≡ are_block_ack_parameters (word_at bytes.now at) }
    ensures fits { IfSome result IsBlockAckParameters }
    ensures spelled { IfSome result
        (λ p. drop at bytes.now ≡ word (block_ack_parameters p) ++ drop (at + 2) bytes.now) }
{
    BlockAckParameters::from_field(word_from(bytes, at))
}

/// The parameters of a DELBA frame at `at`, if valid.
pub(crate) fn delba_parameters_from(bytes: &[u8], at: usize) -> Option<DelbaParameters>
    requires { at + 2 ≤ length bytes.now }
    ensures variant { is_some result ≡ are_delba_parameters (word_at bytes.now at) }
    ensures fits { IfSome result IsDelbaParameters }
    ensures spelled { IfSome result
        (λ p. drop at bytes.now ≡ word (delba_parameters p) ++ drop (at + 2) bytes.now) }
{
    DelbaParameters::from_field(word_from(bytes, at))
}

/// The TID in a block acknowledgement frame's control at `at`, if the control is valid.
pub(crate) fn block_ack_tid_from(bytes: &[u8], at: usize) -> Option<Tid>
    requires { at + 2 ≤ length bytes.now }
    ensures variant { is_some result ≡ is_block_ack_control (word_at bytes.now at) }
    ensures fits { IfSome result IsTid }
    ensures spelled { IfSome result
        (λ t. drop at bytes.now ≡ word (block_ack_control t) ++ drop (at + 2) bytes.now) }
{
    Tid::from_block_ack_control(word_from(bytes, at))
}
