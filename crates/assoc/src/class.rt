//! Frame classes (IEEE 802.11-2016, 11.3.3).

ghost use Rattle.std.specs.Prelude.{◌≡◌};
ghost use Rattle.assoc.specs.Classes.{class_of, class_answer};

use crate::standing::{Known, Standing};
use mac_frame::{Reason, Subtype};

/// The class of a frame: the least state in which it is permitted.
#[derive(Clone, Copy, Debug, PartialEq, Eq)]
pub enum Class {
    One,
    Two,
    Three,
}

/// Whether a frame is permitted; if not, it is discarded, and this is the response.
#[derive(Clone, Copy, Debug, PartialEq, Eq)]
pub enum ClassAnswer {
    Permitted,
    /// A deauthentication with this reason.
    Deauthenticate(Reason),
    /// A disassociation with this reason.
    Disassociate(Reason),
}

/// The class of a kind of frame. That all block acknowledgement frames are of class 3 is this access point's own rule.
pub fn class_of(subtype: Subtype) -> Class
    ensures { result ≡ class_of subtype }
{
    match subtype {
        Subtype::AssociationRequest => Class::Two,
        Subtype::AssociationResponse => Class::Two,
        Subtype::ReassociationRequest => Class::Two,
        Subtype::ReassociationResponse => Class::Two,
        Subtype::Disassociation => Class::Two,
        Subtype::Authentication => Class::One,
        Subtype::Deauthentication => Class::One,
        Subtype::Action => Class::Three,
        Subtype::BlockAckReq => Class::Three,
        Subtype::BlockAck => Class::Three,
        Subtype::Data => Class::Three,
        Subtype::Null => Class::Three,
        Subtype::QosData => Class::Three,
        Subtype::QosNull => Class::Three,
    }
}

/// What happens to a frame of this class from a station with this standing (11.3.3): 6 and 7 are the
/// reasons of Table 9-45 for class 2 and class 3 frames.
pub fn class_check(standing: Standing, class: Class) -> ClassAnswer
    ensures { result ≡ class_answer standing class }
{
    match (standing, class) {
        (_, Class::One) => ClassAnswer::Permitted,
        (None, Class::Two) => ClassAnswer::Deauthenticate(Reason::INVALID_CLASS2_FRAME),
        (None, Class::Three) => ClassAnswer::Deauthenticate(Reason::INVALID_CLASS3_FRAME),
        (Some(_), Class::Two) => ClassAnswer::Permitted,
        (Some(Known::Authenticated), Class::Three) => {
            ClassAnswer::Disassociate(Reason::INVALID_CLASS3_FRAME)
        }
        (Some(Known::Associated(_)), Class::Three) => ClassAnswer::Permitted,
    }
}
