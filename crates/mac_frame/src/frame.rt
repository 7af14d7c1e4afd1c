//! Frames.

ghost use Rattle.std.specs.Prelude.{◌≡◌, ◌+◌, ◌≤◌, ◌<◌, ◌++◌, ◌∷◌, [], length, vec_len, vec_capacity, false, IsOk, IfOk, IfErr, OnOk, OnErr, MatchResult, None, option_copied};
ghost use Rattle.mac_types.specs.Numbers.{IsWord};
ghost use Rattle.mac_frame.specs.Faults.{first_fault};
ghost use Rattle.mac_frame.specs.Spelling.{Frame, IsFrame, AreSpelled, IsManagementTail, content_subtype, spelling};
ghost use Rattle.mac_frame.specs.Frames.{bssid_of, sequence_number_of, parameters_of, tid_of, elements_of, ssid_of, rates_of, sent_management, sent_control};
ghost use Rattle.mac_frame.specs.Reading.{IsFault};

use crate::content::{AddbaResponse, BlockAck, Content, Control, Management};
use crate::contents::parts_from;
use crate::elements::{Elements, ElementsBuf, SSID, SUPPORTED_RATES};
use crate::fault::FrameFault;
use crate::fields::{address_from, word_from};
use crate::spelled_parts::{put, put_address, put_content, put_word};
use crate::subtype::Subtype;
use mac_types::{
    Address, AidField, BlockAckParameters, Capability, DelbaParameters, FrameFlags, Reason,
    SequenceNumber, Status, Tid,
};
use std::alloc::{AllocError, Global};
use std::marker::Model;

/// A frame of the frame grammar. A clause sees its fields as a `Frame`, whose `tail` is what follows
/// the fixed fields: elements or data.
#[derive(Drop)]
pub struct MacFrame {
    flags: FrameFlags,
    duration: u16,
    receiver: Address,
    sender: Address,
    content: Content,
    tail: Vec<u8>,
}

impl Model for MacFrame {
    ghost use Rattle.mac_frame.specs.Spelling.{Frame, IsTail};

    ghost Value = { Frame };

    ghost view = { λ f. record {
      flags = f.flags;
      duration = f.duration;
      receiver = f.receiver;
      sender = f.sender;
      content = f.content;
      tail = f.tail.items;
    } };

    ghost invariant = { λ f. IsTail f.content f.tail.items };
}

#[tactic(auto, using(crate::proofs::Tails::tail_read, crate::proofs::Fronts::spelled_by))]
fn read(alloc: Global, bytes: &[u8]) -> Result<MacFrame, FrameFault>
    ensures found { IfOk result
        (λ f. IsFrame f × (bytes.now ≡ spelling f) × (first_fault bytes.now ≡ None)) }
    ensures spelled { first_fault bytes.now ≡ None → AreSpelled bytes.now }
    ensures fault { IfErr result (λ e. IsFault e (first_fault bytes.now)) }
{
    let (flags, content, tail) = match parts_from(bytes) {
        Ok(found) => found,
        Err(fault) => return Err(FrameFault::Fault(fault)),
    };
    let duration = word_from(bytes, 2);
    let receiver = address_from(bytes, 4);
    let sender = address_from(bytes, 10);
    let tail = Vec::from_slice(alloc, tail)?;
    Ok(MacFrame {
        flags,
        duration,
        receiver,
        sender,
        content,
        tail,
    })
}

/// The frame that the bytes spell, or the first of their faults, or lack of memory.
pub fn parse(alloc: Global, bytes: &[u8]) -> Result<MacFrame, FrameFault>
    // What is read is in the grammar and has these bytes as its spelling, and the bytes have no fault.
    ensures found { IfOk result
        (λ f. IsFrame f × (bytes.now ≡ spelling f) × (first_fault bytes.now ≡ None)) }
    // Bytes without a fault are the spelling of a frame of the grammar.
    ensures spelled { first_fault bytes.now ≡ None → AreSpelled bytes.now }
    // A frame of the grammar with this spelling is read, unless memory runs out.
    ensures only { (f : Frame) → IsFrame f → bytes.now ≡ spelling f →
        MatchResult result (λ g. g ≡ f) (λ e. e ≡ FrameFault.Memory) }
    // The fault is the first one.
    ensures fault { IfErr result (λ e. IsFault e (first_fault bytes.now)) }
{
    read(alloc, bytes)
}

/// The most bytes that a frame has before its elements or data: a reassociation request has so many.
pub const LONGEST_HEAD: usize = 34;

/// Appends the spelling of the frame, which is in the grammar. It succeeds if there is capacity for `LONGEST_HEAD`
/// bytes and the frame's tail. After an error the vector holds what it held.
#[tactic(auto, using(crate::proofs::Tails::in_grammar))]
pub fn write(frame: &MacFrame, out: &mut Vec<u8>) -> Result<(), AllocError>
    ensures ok { OnOk result (out.new.items ≡ out.old.items ++ spelling frame.now) }
    ensures grammar { OnOk result (IsFrame frame.now) }
    ensures room { vec_len out.old + (LONGEST_HEAD + length frame.now.tail) ≤ vec_capacity out.old →
        IsOk result }
    ensures err { OnErr result (out.new.items ≡ out.old.items) }
{
    let subtype = frame.content.subtype().first_byte();
    let flags = frame.flags.octet(frame.content.to_ds());
    out.reserve(LONGEST_HEAD + frame.tail.len())?;
    put(out, &[subtype, flags]);
    put_word(out, frame.duration);
    put_address(out, frame.receiver);
    put_address(out, frame.sender);
    put_content(out, frame.content);
    put(out, &frame.tail);
    Ok(())
}

impl MacFrame {
    /// The flags that any frame may have.
    pub fn flags(&self) -> FrameFlags
        ensures { result ≡ self.now.flags }
    {
        self.flags
    }

    /// The Duration field (9.2.4.2).
    pub fn duration(&self) -> u16
        ensures { result ≡ self.now.duration }
    {
        self.duration
    }

    /// Address 1.
    pub fn receiver(&self) -> Address
        ensures { result ≡ self.now.receiver }
    {
        self.receiver
    }

    /// Address 2, which in data frames is the source.
    pub fn sender(&self) -> Address
        ensures { result ≡ self.now.sender }
    {
        self.sender
    }

    /// The fixed fields, by kind.
    pub fn content(&self) -> Content
        ensures { result ≡ self.now.content }
    {
        self.content
    }

    /// The subtype that the first byte gives.
    pub fn subtype(&self) -> Subtype
        ensures { result ≡ content_subtype self.now.content }
    {
        let content = self.content;
        content.subtype()
    }

    /// What follows the fixed fields: the elements of a (re)association frame, the data of a data frame,
    /// otherwise nothing.
    pub fn tail(&self) -> &[u8]
        ensures { result.now ≡ self.now.tail }
    {
        &self.tail
    }

    /// The same, taken out of the frame.
    pub fn into_tail(self) -> Vec<u8>
        ensures { result.items ≡ self.tail }
    {
        self.tail
    }

    /// The BSSID, if the frame names it: address 3 of management frames, address 1 of data frames.
    pub fn bssid(&self) -> Option<Address>
        ensures { result ≡ bssid_of self.now }
    {
        match self.content {
            Content::Management { bssid, .. } => Some(bssid),
            Content::Control { .. } => None,
            Content::Data { .. } => Some(self.receiver),
        }
    }

    /// The sequence number, which control frames don't have.
    pub fn sequence_number(&self) -> Option<SequenceNumber>
        ensures { result ≡ sequence_number_of self.now.content }
    {
        match self.content {
            Content::Management { sequence, .. } => Some(sequence),
            Content::Control { .. } => None,
            Content::Data { sequence, .. } => Some(sequence),
        }
    }

    /// The parameters that an ADDBA request asks for or an ADDBA response grants.
    pub fn block_ack_parameters(&self) -> Option<BlockAckParameters>
        ensures { result ≡ parameters_of self.now.content }
    {
        match self.content {
            Content::Management { body, .. } => body.block_ack_parameters(),
            Content::Control { .. } => None,
            Content::Data { .. } => None,
        }
    }

    /// The TID, of QoS data frames and of all frames of block acknowledgement.
    pub fn tid(&self) -> Option<Tid>
        ensures { result ≡ tid_of self.now.content }
    {
        match self.content {
            Content::Management { body, .. } => body.tid(),
            Content::Control { body } => Some(body.tid()),
            Content::Data { kind, .. } => kind.tid(),
        }
    }

    /// The elements, which only (re)association requests and responses have.
    #[tactic(auto, using(crate::proofs::Shapes::tail_elements))]
    pub fn elements(&self) -> Elements<'_>
        ensures { result ≡ elements_of self.now }
    {
        match self.content {
            Content::Management { body, .. } if body.has_elements() => Elements::new(&self.tail),
            _ => Elements::none(),
        }
    }

    /// The bytes of the first SSID element.
    pub fn ssid(&self) -> Option<&[u8]>
        ensures { option_copied result ≡ ssid_of self.now }
    {
        self.elements().first(SSID)
    }

    /// The rates of the first nonempty Supported Rates element.
    pub fn rates(&self) -> Option<&[u8]>
        ensures { option_copied result ≡ rates_of self.now }
    {
        self.elements().first_nonempty(SUPPORTED_RATES)
    }
}

/// A management frame to a station: no flags, duration 0, sequence number 0.
fn sent(station: Address, bssid: Address, body: Management, tail: Vec<u8>) -> MacFrame
    requires { IsManagementTail body tail.items }
    ensures { result ≡ sent_management station bssid body tail.items }
{
    MacFrame {
        flags: FrameFlags::NONE,
        duration: 0,
        receiver: station,
        sender: bssid,
        content: Content::Management {
            bssid,
            sequence: SequenceNumber::ZERO,
            body,
        },
        tail,
    }
}

/// The frames that an access point sends.
impl MacFrame {
    /// The second frame of an authentication.
    pub fn authentication(
        alloc: Global,
        station: Address,
        bssid: Address,
        algorithm: u16,
        status: Status,
    ) -> Self
        ensures { result
            ≡ sent_management station bssid (Management.Authentication algorithm 2 status) [] }
    {
        let body = Management::Authentication {
            algorithm,
            transaction: 2,
            status,
        };
        sent(station, bssid, body, Vec::new(alloc))
    }

    /// The response to an association request.
    pub fn association_response(
        station: Address,
        bssid: Address,
        status: Status,
        aid: AidField,
        elements: ElementsBuf,
    ) -> Self
        ensures { result
            ≡ sent_management station bssid (Management.AssociationResponse 1 status aid) elements }
    {
        let body = Management::AssociationResponse {
            capability: Capability::ESS,
            status,
            aid,
        };
        sent(station, bssid, body, elements.into_bytes())
    }

    /// The response to a reassociation request.
    pub fn reassociation_response(
        station: Address,
        bssid: Address,
        status: Status,
        aid: AidField,
        elements: ElementsBuf,
    ) -> Self
        ensures { result ≡ sent_management station bssid
            (Management.ReassociationResponse 1 status aid) elements }
    {
        let body = Management::ReassociationResponse {
            capability: Capability::ESS,
            status,
            aid,
        };
        sent(station, bssid, body, elements.into_bytes())
    }

    pub fn disassociation(alloc: Global, station: Address, bssid: Address, reason: Reason) -> Self
        ensures { result ≡ sent_management station bssid (Management.Disassociation reason) [] }
    {
        let body = Management::Disassociation { reason };
        sent(station, bssid, body, Vec::new(alloc))
    }

    pub fn deauthentication(alloc: Global, station: Address, bssid: Address, reason: Reason) -> Self
        ensures { result ≡ sent_management station bssid (Management.Deauthentication reason) [] }
    {
        let body = Management::Deauthentication { reason };
        sent(station, bssid, body, Vec::new(alloc))
    }

    /// The response to an ADDBA request.
    pub fn addba_response(
        alloc: Global,
        station: Address,
        bssid: Address,
        response: AddbaResponse,
    ) -> Self
        ensures { result ≡ sent_management station bssid
            (Management.AddbaResponse response.dialog_token response.status response.parameters
            response.timeout) [] }
    {
        let AddbaResponse {
            dialog_token,
            status,
            parameters,
            timeout,
        } = response;
        let body = Management::AddbaResponse {
            dialog_token,
            status,
            parameters,
            timeout,
        };
        sent(station, bssid, body, Vec::new(alloc))
    }

    /// The end of an agreement, by the recipient of its data.
    pub fn delba(alloc: Global, station: Address, bssid: Address, tid: Tid, reason: Reason) -> Self
        ensures { result ≡ sent_management station bssid
            (Management.Delba (record { initiator = false; tid = tid }) reason) [] }
    {
        let parameters = DelbaParameters {
            initiator: false,
            tid,
        };
        let body = Management::Delba { parameters, reason };
        sent(station, bssid, body, Vec::new(alloc))
    }

    /// The response to a BlockAckReq.
    pub fn block_ack(alloc: Global, station: Address, bssid: Address, response: BlockAck) -> Self
        ensures { result ≡ sent_control station bssid
            (Control.BlockAck response.tid response.start response.bitmap) }
    {
        let BlockAck { tid, start, bitmap } = response;
        MacFrame {
            flags: FrameFlags::NONE,
            duration: 0,
            receiver: station,
            sender: bssid,
            content: Content::Control {
                body: Control::BlockAck { tid, start, bitmap },
            },
            tail: Vec::new(alloc),
        }
    }
}
