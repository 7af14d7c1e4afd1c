//! The kinds of frames, by the first byte.

ghost use Rattle.std.specs.Prelude.{◌≡◌, IfSome};
ghost use Rattle.mac_frame.specs.Kinds.{subtype_of, first_byte, header_of, header_length};

/// What the first byte of a frame says: the version, which is 0, the type and the subtype
/// (IEEE 802.11-2016, 9.2.4.1.2 and 9.2.4.1.3, Table 9-1).
#[derive(Clone, Copy, Debug, PartialEq, Eq)]
pub enum Subtype {
    AssociationRequest,
    AssociationResponse,
    ReassociationRequest,
    ReassociationResponse,
    Disassociation,
    Authentication,
    Deauthentication,
    Action,
    BlockAckReq,
    BlockAck,
    Data,
    Null,
    QosData,
    QosNull,
}

/// The headers of management frames (9.3.3.2), of block acknowledgement frames (9.3.1.8, 9.3.1.9),
/// and of data frames without and with a QoS Control field (9.3.2.1).
#[derive(Clone, Copy, Debug, PartialEq, Eq)]
pub enum HeaderKind {
    Management,
    Control,
    Data,
    QosData,
}

impl Subtype {
    /// What a first byte means. None if the version isn't 0, or the link has no such frames.
    pub fn from_first_byte(byte: u8) -> Option<Self>
        ensures subtype { result ≡ subtype_of byte }
        ensures byte { IfSome result (λ kind. byte ≡ first_byte kind) }
    {
        match byte {
            0x00 => Some(Subtype::AssociationRequest),
            0x10 => Some(Subtype::AssociationResponse),
            0x20 => Some(Subtype::ReassociationRequest),
            0x30 => Some(Subtype::ReassociationResponse),
            0xa0 => Some(Subtype::Disassociation),
            0xb0 => Some(Subtype::Authentication),
            0xc0 => Some(Subtype::Deauthentication),
            0xd0 => Some(Subtype::Action),
            0x84 => Some(Subtype::BlockAckReq),
            0x94 => Some(Subtype::BlockAck),
            0x08 => Some(Subtype::Data),
            0x48 => Some(Subtype::Null),
            0x88 => Some(Subtype::QosData),
            0xc8 => Some(Subtype::QosNull),
            _ => None,
        }
    }

    /// The first byte that means this.
    pub fn first_byte(self) -> u8
        ensures { result ≡ first_byte self }
    {
        match self {
            Subtype::AssociationRequest => 0x00,
            Subtype::AssociationResponse => 0x10,
            Subtype::ReassociationRequest => 0x20,
            Subtype::ReassociationResponse => 0x30,
            Subtype::Disassociation => 0xa0,
            Subtype::Authentication => 0xb0,
            Subtype::Deauthentication => 0xc0,
            Subtype::Action => 0xd0,
            Subtype::BlockAckReq => 0x84,
            Subtype::BlockAck => 0x94,
            Subtype::Data => 0x08,
            Subtype::Null => 0x48,
            Subtype::QosData => 0x88,
            Subtype::QosNull => 0xc8,
        }
    }

    /// The header that it has.
    pub fn header(self) -> HeaderKind
        ensures { result ≡ header_of self }
    {
        match self {
            Subtype::AssociationRequest => HeaderKind::Management,
            Subtype::AssociationResponse => HeaderKind::Management,
            Subtype::ReassociationRequest => HeaderKind::Management,
            Subtype::ReassociationResponse => HeaderKind::Management,
            Subtype::Disassociation => HeaderKind::Management,
            Subtype::Authentication => HeaderKind::Management,
            Subtype::Deauthentication => HeaderKind::Management,
            Subtype::Action => HeaderKind::Management,
            Subtype::BlockAckReq => HeaderKind::Control,
            Subtype::BlockAck => HeaderKind::Control,
            Subtype::Data => HeaderKind::Data,
            Subtype::Null => HeaderKind::Data,
            Subtype::QosData => HeaderKind::QosData,
            Subtype::QosNull => HeaderKind::QosData,
        }
    }
}

impl HeaderKind {
    /// How many bytes it has.
    pub fn len(self) -> usize
        ensures { result ≡ header_length self }
    {
        match self {
            HeaderKind::Management => 24,
            HeaderKind::Control => 16,
            HeaderKind::Data => 24,
            HeaderKind::QosData => 26,
        }
    }
}
