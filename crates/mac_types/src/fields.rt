//! Fields of several parts.

ghost use Rattle.std.specs.Prelude.{◌≡◌, ◌<◌, ◌^◌, IfSome, is_some};
ghost use Rattle.mac_types.specs.Bits.{bit_of};
ghost use Rattle.mac_types.specs.Fields.{flags_octet, are_flags, immediate_parameters, ack_policy, qos_control, IsQosControl, is_qos_control, block_ack_policy, block_ack_parameters, IsBlockAckParameters, are_block_ack_parameters, delba_parameters, IsDelbaParameters, are_delba_parameters};

use crate::bits::{bit, bits};
use crate::buffer_size::BufferSize;
use crate::tid::Tid;

/// The flags of a frame's second octet that any frame may have (IEEE 802.11-2016, 9.2.4.1.6 to 9.2.4.1.8).
#[derive(Clone, Copy, Debug, PartialEq, Eq)]
pub struct FrameFlags {
    pub retry: bool,
    pub power_management: bool,
    pub more_data: bool,
}

impl FrameFlags {
    /// No flag.
    pub const NONE: FrameFlags = FrameFlags {
        retry: false,
        power_management: false,
        more_data: false,
    };

    /// The flags in the second octet of a frame with this To DS. None if To DS differs, or if From DS,
    /// More Fragments, Protected Frame or Order is set.
    pub fn from_octet(octet: u8, to_ds: bool) -> Option<Self>
        ensures variant { is_some result ≡ are_flags to_ds octet }
        ensures spelled { IfSome result (λ f. octet ≡ flags_octet to_ds f) }
    {
        let field = u16::from(octet);
        if bit(field, 0) != to_ds || bits(field, 1, 2) != 0 || bits(field, 6, 2) != 0 {
            return None;
        }
        Some(FrameFlags {
            retry: bit(field, 3),
            power_management: bit(field, 4),
            more_data: bit(field, 5),
        })
    }

    /// The second octet of a frame with these flags and this To DS.
    pub fn octet(self, to_ds: bool) -> u8
        ensures { result ≡ flags_octet to_ds self }
    {
        u8::from(to_ds)
            + 8 * u8::from(self.retry)
            + 16 * u8::from(self.power_management)
            + 32 * u8::from(self.more_data)
    }
}

/// How the receiver of a data frame acknowledges it (9.2.4.5.4).
#[derive(Clone, Copy, Debug, PartialEq, Eq)]
pub enum AckPolicy {
    Normal,
    NoAck,
    NoExplicitAck,
    BlockAck,
}

impl AckPolicy {
    fn from_bits(bits: u16) -> Self
        requires { bits < 4 }
        ensures { ack_policy result ≡ bits }
    {
        match bits {
            0 => AckPolicy::Normal,
            1 => AckPolicy::NoAck,
            2 => AckPolicy::NoExplicitAck,
            _ => AckPolicy::BlockAck,
        }
    }

    fn bits(self) -> u16
        ensures { result ≡ ack_policy self }
    {
        match self {
            AckPolicy::Normal => 0,
            AckPolicy::NoAck => 1,
            AckPolicy::NoExplicitAck => 2,
            AckPolicy::BlockAck => 3,
        }
    }
}

/// The QoS Control field of a data frame (9.2.4.5) that isn't an A-MSDU and has a TID below 8.
#[derive(Clone, Copy, Debug, PartialEq, Eq)]
pub struct QosControl {
    pub tid: Tid,
    /// Bit 4: the end of a service period, or, from a station, how to read the upper bits.
    pub end_of_service_period: bool,
    pub ack_policy: AckPolicy,
    /// Bits 8 to 15, on transmission opportunities and queues.
    pub upper: u8,
}

impl QosControl {
    /// What the field spells. None if the TID is 8 or more, or A-MSDU Present is set.
    pub fn from_field(field: u16) -> Option<Self>
        ensures variant { is_some result ≡ is_qos_control field }
        ensures spelled { IfSome result (λ q. field ≡ qos_control q) }
        ensures fits { IfSome result IsQosControl }
    {
        if bit(field, 7) {
            return None;
        }
        let tid = Tid::new(bits(field, 0, 4) as u8)?;
        Some(QosControl {
            tid,
            end_of_service_period: bit(field, 4),
            ack_policy: AckPolicy::from_bits(bits(field, 5, 2)),
            upper: bits(field, 8, 8) as u8,
        })
    }

    /// The field that spells it.
    pub fn field(self) -> u16
        ensures value { result ≡ qos_control self }
        ensures fits { IsQosControl self }
    {
        u16::from(self.tid.number())
            + 16 * u16::from(self.end_of_service_period)
            + 32 * self.ack_policy.bits()
            + 256 * u16::from(self.upper)
    }
}

/// Whether an agreement's frames are acknowledged at once or later (9.4.1.14).
#[derive(Clone, Copy, Debug, PartialEq, Eq)]
pub enum BlockAckPolicy {
    Delayed,
    Immediate,
}

impl BlockAckPolicy {
    fn from_bit(bit: bool) -> Self
        ensures { block_ack_policy result ≡ bit_of bit }
    {
        if bit {
            BlockAckPolicy::Immediate
        } else {
            BlockAckPolicy::Delayed
        }
    }

    fn bits(self) -> u16
        ensures { result ≡ block_ack_policy self }
    {
        match self {
            BlockAckPolicy::Delayed => 0,
            BlockAckPolicy::Immediate => 1,
        }
    }
}

/// The Block Ack Parameter Set field (9.4.1.14) with a TID below 8.
#[derive(Clone, Copy, Debug, PartialEq, Eq)]
pub struct BlockAckParameters {
    pub amsdu_supported: bool,
    pub policy: BlockAckPolicy,
    pub tid: Tid,
    pub buffer_size: BufferSize,
}

impl BlockAckParameters {
    /// Immediate acknowledgement, and no A-MSDU.
    pub fn immediate(tid: Tid, buffer_size: BufferSize) -> Self
        ensures { result ≡ immediate_parameters tid buffer_size }
    {
        BlockAckParameters {
            amsdu_supported: false,
            policy: BlockAckPolicy::Immediate,
            tid,
            buffer_size,
        }
    }

    /// What the field spells. None if the TID is 8 or more.
    pub fn from_field(field: u16) -> Option<Self>
        ensures variant { is_some result ≡ are_block_ack_parameters field }
        ensures spelled { IfSome result (λ p. field ≡ block_ack_parameters p) }
        ensures fits { IfSome result IsBlockAckParameters }
    {
        let tid = Tid::new(bits(field, 2, 4) as u8)?;
        let buffer_size = BufferSize::new(bits(field, 6, 10))?;
        Some(BlockAckParameters {
            amsdu_supported: bit(field, 0),
            policy: BlockAckPolicy::from_bit(bit(field, 1)),
            tid,
            buffer_size,
        })
    }

    /// The field that spells it.
    pub fn field(self) -> u16
        ensures value { result ≡ block_ack_parameters self }
        ensures fits { IsBlockAckParameters self }
    {
        u16::from(self.amsdu_supported)
            + 2 * self.policy.bits()
            + 4 * u16::from(self.tid.number())
            + 64 * self.buffer_size.number()
    }
}

/// The DELBA Parameter Set field (9.4.1.16) with a TID below 8.
#[derive(Clone, Copy, Debug, PartialEq, Eq)]
pub struct DelbaParameters {
    /// Whether the sender is the originator of the data, not its recipient.
    pub initiator: bool,
    pub tid: Tid,
}

impl DelbaParameters {
    /// What the field spells. None if the TID is 8 or more, or a reserved bit is set.
    pub fn from_field(field: u16) -> Option<Self>
        ensures variant { is_some result ≡ are_delba_parameters field }
        ensures spelled { IfSome result (λ p. field ≡ delba_parameters p) }
        ensures fits { IfSome result IsDelbaParameters }
    {
        if bits(field, 0, 11) != 0 {
            return None;
        }
        let tid = Tid::new(bits(field, 12, 4) as u8)?;
        Some(DelbaParameters {
            initiator: bit(field, 11),
            tid,
        })
    }

    /// The field that spells it.
    pub fn field(self) -> u16
        ensures value { result ≡ delba_parameters self }
        ensures fits { IsDelbaParameters self }
    {
        2048 * u16::from(self.initiator) + 4096 * u16::from(self.tid.number())
    }
}
