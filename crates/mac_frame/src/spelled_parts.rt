//! The spelling of frames, appended within the capacity.

ghost use Rattle.std.specs.Prelude.{◌≡◌, ◌+◌, ◌≤◌, ◌<◌, ◌^◌, ◌++◌, ◌∷◌, ℕ, List, [], length, vec_len, vec_capacity};
ghost use Rattle.std.specs.Int.{w64, to_le_bytes};
ghost use Rattle.mac_types.specs.Numbers.{IsWord, IsAddress};
ghost use Rattle.mac_frame.specs.Spelling.{word, management_subtype, management_text, control_text, data_text, content_text, IsManagement, IsManagementTail, IsControl, IsData, IsDataTail, IsContent, IsTail};
ghost use Rattle.mac_frame.specs.Writing.{Puts};
ghost use Rattle.mac_frame.specs.declared.subtype.Subtype.TheVariants as subtypes;

use crate::content::{Content, Control, DataKind, Management};
use mac_types::Address;

pub(crate) fn put(out: &mut Vec<u8>, bytes: &[u8])
    requires { vec_len out.old + length bytes.now ≤ vec_capacity out.old }
    ensures { Puts out.old out.new bytes.now }
{
    out.extend_from_slice(bytes).unwrap();
}

/// Appends two bytes, the low one first.
pub(crate) fn put_word(out: &mut Vec<u8>, number: u16)
    requires { vec_len out.old + 2 ≤ vec_capacity out.old }
    ensures put { Puts out.old out.new (word number) }
    ensures fits { IsWord number }
{
    put(out, &number.to_le_bytes());
}

fn put_two(out: &mut Vec<u8>, first: u16, second: u16)
    requires { vec_len out.old + 4 ≤ vec_capacity out.old }
    ensures put { Puts out.old out.new (word first ++ word second) }
    ensures fits { IsWord first × IsWord second }
{
    put_word(out, first);
    put_word(out, second);
}

fn put_three(out: &mut Vec<u8>, first: u16, second: u16, third: u16)
    requires { vec_len out.old + 6 ≤ vec_capacity out.old }
    ensures put { Puts out.old out.new (word first ++ (word second ++ word third)) }
    ensures fits { IsWord first × IsWord second × IsWord third }
{
    put_word(out, first);
    put_two(out, second, third);
}

pub(crate) fn put_address(out: &mut Vec<u8>, address: Address)
    requires { vec_len out.old + 6 ≤ vec_capacity out.old }
    ensures put { Puts out.old out.new address }
    ensures fits { IsAddress address }
{
    put(out, &address.octets());
}

/// Appends the category and the action of block acknowledgement (9.4.1.11, 9.6.5.1), and the dialog token.
fn put_action(out: &mut Vec<u8>, action: u8, dialog_token: u8)
    requires { vec_len out.old + 3 ≤ vec_capacity out.old }
    ensures { Puts out.old out.new (3 ∷ action ∷ dialog_token ∷ []) }
{
    put(out, &[3, action, dialog_token]);
}

/// Appends the body of a block acknowledgement action (9.6.5).
fn put_action_body(out: &mut Vec<u8>, body: Management)
    requires room { vec_len out.old + 10 ≤ vec_capacity out.old }
    requires action { management_subtype body ≡ subtypes.Action }
    ensures put { Puts out.old out.new (management_text body []) }
    ensures fits { (tail : List ℕ) → IsManagementTail body tail → IsManagement body tail }
{
    match body {
        Management::AddbaRequest {
            dialog_token,
            parameters,
            timeout,
            start,
        } => {
            put_action(out, 0, dialog_token);
            put_three(out, parameters.field(), timeout, start.control());
        }
        Management::AddbaResponse {
            dialog_token,
            status,
            parameters,
            timeout,
        } => {
            put_action(out, 1, dialog_token);
            put_three(out, status.code(), parameters.field(), timeout);
        }
        Management::Delba { parameters, reason } => {
            put(out, &[3, 2]);
            put_two(out, parameters.field(), reason.code());
        }
        _ => {}
    }
}

/// Appends a management frame's body without its elements.
fn put_management(out: &mut Vec<u8>, body: Management)
    requires { vec_len out.old + 10 ≤ vec_capacity out.old }
    ensures put { Puts out.old out.new (management_text body []) }
    ensures fits { (tail : List ℕ) → IsManagementTail body tail → IsManagement body tail }
{
    match body {
        Management::AssociationRequest {
            capability,
            listen_interval,
        } => put_two(out, capability.field(), listen_interval),
        Management::AssociationResponse {
            capability,
            status,
            aid,
        } => put_three(out, capability.field(), status.code(), aid.field()),
        Management::ReassociationRequest {
            capability,
            listen_interval,
            current_ap,
        } => {
            put_two(out, capability.field(), listen_interval);
            put_address(out, current_ap);
        }
        Management::ReassociationResponse {
            capability,
            status,
            aid,
        } => put_three(out, capability.field(), status.code(), aid.field()),
        Management::Disassociation { reason } => put_word(out, reason.code()),
        Management::Authentication {
            algorithm,
            transaction,
            status,
        } => put_three(out, algorithm, transaction, status.code()),
        Management::Deauthentication { reason } => put_word(out, reason.code()),
        _ => put_action_body(out, body),
    }
}

fn put_block_ack(out: &mut Vec<u8>, control: u16, start: u16, bitmap: u64)
    requires { vec_len out.old + 12 ≤ vec_capacity out.old }
    ensures put { Puts out.old out.new (word control ++ (word start ++ to_le_bytes w64 bitmap)) }
    ensures fits { bitmap < 2 ^ 64 }
{
    put_two(out, control, start);
    put(out, &bitmap.to_le_bytes());
}

/// Appends what follows the two addresses of a block acknowledgement frame.
fn put_control(out: &mut Vec<u8>, body: Control)
    requires { vec_len out.old + 12 ≤ vec_capacity out.old }
    ensures put { Puts out.old out.new (control_text body []) }
    ensures fits { (tail : List ℕ) → tail ≡ [] → IsControl body tail }
{
    match body {
        Control::BlockAckReq { tid, start } => {
            put_two(out, tid.block_ack_control(), start.control());
        }
        Control::BlockAck { tid, start, bitmap } => {
            put_block_ack(out, tid.block_ack_control(), start.control(), bitmap);
        }
    }
}

/// Appends what a data frame has between its sequence control and its data.
fn put_data(out: &mut Vec<u8>, kind: DataKind)
    requires { vec_len out.old + 2 ≤ vec_capacity out.old }
    ensures put { Puts out.old out.new (data_text kind []) }
    ensures fits { (tail : List ℕ) → IsDataTail kind tail → IsData kind tail }
{
    match kind {
        DataKind::Data => {}
        DataKind::Null => {}
        DataKind::QosData { qos } => put_word(out, qos.field()),
        DataKind::QosNull { qos } => put_word(out, qos.field()),
    }
}

/// Appends what a frame has between the first two addresses and the elements or data.
pub(crate) fn put_content(out: &mut Vec<u8>, content: Content)
    requires { vec_len out.old + 18 ≤ vec_capacity out.old }
    ensures put { Puts out.old out.new (content_text content []) }
    ensures fits { (tail : List ℕ) → IsTail content tail → IsContent content tail }
{
    match content {
        Content::Management {
            bssid,
            sequence,
            body,
        } => {
            put_address(out, bssid);
            put_word(out, sequence.control());
            put_management(out, body);
        }
        Content::Control { body } => put_control(out, body),
        Content::Data {
            destination,
            sequence,
            kind,
        } => {
            put_address(out, destination);
            put_word(out, sequence.control());
            put_data(out, kind);
        }
    }
}
