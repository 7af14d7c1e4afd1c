//! The capture of a run: what was received, sent and passed up, as a pcapng file.
//!
//! Main types: `Recorder`, which writes a capture as intervals end, and `Destination`, which is where the lines of a run go
//! and its capture, behind the traits `Printing` and `Recording`. It depends on `capture` and `apd_files`. A packet's comment names its
//! line. Packets are written at the end of their interval, and none is kept longer.
mod destination;
mod ethernet;
mod packets;
mod recorder;
mod writers;

pub use destination::{Capturing, Destination, InFile, Unprinted};
pub use recorder::{Recorder, Unrecorded, capture_law};
pub use writers::{Printing, Recording};
