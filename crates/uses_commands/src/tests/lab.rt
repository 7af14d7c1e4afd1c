//! The configuration of the tests' runs, and the lines by which a station is associated.

pub const LAB: &[u8] =
    b"bssid = \"020000000001\"\nssid = \"lab\"\nrates = \"82848b96\"\ndraw = 0\n";

/// The authentication of a station and its association.
pub const JOINING: &[u8] = b"frame b000000002000000000102000000000a0200000000011000000001000000\n\
    frame 0000000002000000000102000000000a020000000001200001000a0000036c6162010482848b96\n";

/// The answers to these.
pub const ANSWERS: &[u8] = b"1 send b000000002000000000a0200000000010200000000010000000002000000\n\
    2 send 1000000002000000000a020000000001020000000001000001000000\
    02c0010482848b96\n";

/// The last line of a run without events.
pub const NO_EVENTS: &[u8] = b"total events 0 sent 0 up 0 dropped 0 notes 0\n";
