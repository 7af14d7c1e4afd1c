//! What is listed of an agreement.

use mac_types::{Address, SequenceNumber, Tid};

/// An agreement in force, as a list of agreements shows it.
#[derive(Clone, Copy, Debug, PartialEq, Eq)]
pub struct AgreementInForce {
    pub station: Address,
    pub tid: Tid,
    /// The first number of its window, which is awaited next.
    pub start: SequenceNumber,
    /// How many numbers its window has, from 1 to 64.
    pub size: u16,
    /// How many numbers its window holds, dropped ones included.
    pub held: usize,
    /// Its timeout, in units of 1024 microseconds; 0 for none.
    pub timeout: u16,
}
