//! What each kind of frame consists of.

ghost use Rattle.std.specs.Prelude.{◌≡◌};
ghost use Rattle.mac_frame.specs.Frames.{has_elements, parameters_by, management_tid, control_tid, data_tid};
ghost use Rattle.mac_frame.specs.Spelling.{management_subtype, control_subtype, data_subtype, content_subtype, to_ds};

use crate::subtype::Subtype;
use mac_types::{
    Address, AidField, BlockAckParameters, Capability, DelbaParameters, QosControl, Reason,
    SequenceNumber, Status, Tid,
};

/// The fixed fields of a management frame's body (IEEE 802.11-2016, 9.3.3 and 9.6.5).
#[derive(Clone, Copy, Debug, PartialEq, Eq)]
pub enum Management {
    /// 9.3.3.6, followed by elements.
    AssociationRequest {
        capability: Capability,
        /// In beacon intervals (9.4.1.6).
        listen_interval: u16,
    },
    /// 9.3.3.7, followed by elements.
    AssociationResponse {
        capability: Capability,
        status: Status,
        aid: AidField,
    },
    /// 9.3.3.8, followed by elements.
    ReassociationRequest {
        capability: Capability,
        /// In beacon intervals (9.4.1.6).
        listen_interval: u16,
        /// The access point that the station is associated with (9.4.1.5).
        current_ap: Address,
    },
    /// 9.3.3.9, followed by elements.
    ReassociationResponse {
        capability: Capability,
        status: Status,
        aid: AidField,
    },
    /// 9.3.3.5.
    Disassociation {
        reason: Reason,
    },
    /// 9.3.3.12.
    Authentication {
        /// 9.4.1.1: 0 is Open System.
        algorithm: u16,
        /// 9.4.1.2.
        transaction: u16,
        status: Status,
    },
    /// 9.3.3.13.
    Deauthentication {
        reason: Reason,
    },
    /// 9.6.5.2.
    AddbaRequest {
        /// 9.4.1.12: the response has the same.
        dialog_token: u8,
        parameters: BlockAckParameters,
        /// In time units; 0 is none (9.4.1.15).
        timeout: u16,
        /// The number of the first frame of the agreement.
        start: SequenceNumber,
    },
    /// 9.6.5.3.
    AddbaResponse {
        dialog_token: u8,
        status: Status,
        parameters: BlockAckParameters,
        /// In time units; 0 is none (9.4.1.15).
        timeout: u16,
    },
    /// 9.6.5.4.
    Delba {
        parameters: DelbaParameters,
        reason: Reason,
    },
}

/// A block acknowledgement frame in compressed form.
#[derive(Clone, Copy, Debug, PartialEq, Eq)]
pub enum Control {
    /// 9.3.1.8.
    BlockAckReq {
        tid: Tid,
        start: SequenceNumber,
    },
    /// 9.3.1.9: bit n of the bitmap means the frame with number start + n.
    BlockAck {
        tid: Tid,
        start: SequenceNumber,
        bitmap: u64,
    },
}

/// The fields of an ADDBA response that an access point sends (9.6.5.3).
#[derive(Clone, Copy)]
pub struct AddbaResponse {
    /// That of the request (9.4.1.12).
    pub dialog_token: u8,
    pub status: Status,
    /// What is granted.
    pub parameters: BlockAckParameters,
    /// In time units; 0 is none (9.4.1.15).
    pub timeout: u16,
}

/// The fields of a BlockAck that an access point sends (9.3.1.9): bit n of the bitmap means the frame with number
/// start + n.
#[derive(Clone, Copy)]
pub struct BlockAck {
    pub tid: Tid,
    pub start: SequenceNumber,
    pub bitmap: u64,
}

/// A data frame, by its subtype (9.2.4.1.3).
#[derive(Clone, Copy, Debug, PartialEq, Eq)]
pub enum DataKind {
    Data,
    Null,
    QosData { qos: QosControl },
    QosNull { qos: QosControl },
}

/// What follows the first two addresses of a frame, up to its elements or its data.
#[derive(Clone, Copy, Debug, PartialEq, Eq)]
pub enum Content {
    Management {
        /// Address 3.
        bssid: Address,
        sequence: SequenceNumber,
        body: Management,
    },
    Control {
        body: Control,
    },
    /// From a station to the distribution system: address 1 is the BSSID, address 2 the source.
    Data {
        /// Address 3.
        destination: Address,
        sequence: SequenceNumber,
        kind: DataKind,
    },
}

impl Management {
    /// Whether elements follow the fixed fields.
    pub fn has_elements(self) -> bool
        ensures { result ≡ has_elements self }
    {
        match self {
            Management::AssociationRequest { .. } => true,
            Management::AssociationResponse { .. } => true,
            Management::ReassociationRequest { .. } => true,
            Management::ReassociationResponse { .. } => true,
            _ => false,
        }
    }

    /// The parameters of an ADDBA request or response.
    pub fn block_ack_parameters(self) -> Option<BlockAckParameters>
        ensures { result ≡ parameters_by self }
    {
        match self {
            Management::AddbaRequest { parameters, .. } => Some(parameters),
            Management::AddbaResponse { parameters, .. } => Some(parameters),
            _ => None,
        }
    }

    /// The TID of a block acknowledgement action.
    pub fn tid(self) -> Option<Tid>
        ensures { result ≡ management_tid self }
    {
        match self {
            Management::AddbaRequest { parameters, .. } => Some(parameters.tid),
            Management::AddbaResponse { parameters, .. } => Some(parameters.tid),
            Management::Delba { parameters, .. } => Some(parameters.tid),
            _ => None,
        }
    }

    pub fn subtype(self) -> Subtype
        ensures { result ≡ management_subtype self }
    {
        match self {
            Management::AssociationRequest { .. } => Subtype::AssociationRequest,
            Management::AssociationResponse { .. } => Subtype::AssociationResponse,
            Management::ReassociationRequest { .. } => Subtype::ReassociationRequest,
            Management::ReassociationResponse { .. } => Subtype::ReassociationResponse,
            Management::Disassociation { .. } => Subtype::Disassociation,
            Management::Authentication { .. } => Subtype::Authentication,
            Management::Deauthentication { .. } => Subtype::Deauthentication,
            Management::AddbaRequest { .. } => Subtype::Action,
            Management::AddbaResponse { .. } => Subtype::Action,
            Management::Delba { .. } => Subtype::Action,
        }
    }
}

impl Control {
    /// The TID.
    pub fn tid(self) -> Tid
        ensures { result ≡ control_tid self }
    {
        match self {
            Control::BlockAckReq { tid, .. } => tid,
            Control::BlockAck { tid, .. } => tid,
        }
    }

    pub fn subtype(self) -> Subtype
        ensures { result ≡ control_subtype self }
    {
        match self {
            Control::BlockAckReq { .. } => Subtype::BlockAckReq,
            Control::BlockAck { .. } => Subtype::BlockAck,
        }
    }
}

impl DataKind {
    /// The TID of a QoS frame.
    pub fn tid(self) -> Option<Tid>
        ensures { result ≡ data_tid self }
    {
        match self {
            DataKind::Data => None,
            DataKind::Null => None,
            DataKind::QosData { qos } => Some(qos.tid),
            DataKind::QosNull { qos } => Some(qos.tid),
        }
    }

    pub fn subtype(self) -> Subtype
        ensures { result ≡ data_subtype self }
    {
        match self {
            DataKind::Data => Subtype::Data,
            DataKind::Null => Subtype::Null,
            DataKind::QosData { .. } => Subtype::QosData,
            DataKind::QosNull { .. } => Subtype::QosNull,
        }
    }
}

impl Content {
    /// The subtype that the frame's first byte gives.
    pub fn subtype(self) -> Subtype
        ensures { result ≡ content_subtype self }
    {
        match self {
            Content::Management { body, .. } => body.subtype(),
            Content::Control { body } => body.subtype(),
            Content::Data { kind, .. } => kind.subtype(),
        }
    }

    /// Whether the frame goes to the distribution system (9.2.4.1.4): data frames do.
    pub fn to_ds(self) -> bool
        ensures { result ≡ to_ds self }
    {
        match self {
            Content::Management { .. } => false,
            Content::Control { .. } => false,
            Content::Data { .. } => true,
        }
    }
}
