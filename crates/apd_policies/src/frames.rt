//! The frames of a capture as a script for the access point.
//!
//! Main call: `script_text`, for a capture that `capture` reads; a `ScriptRest` gives the same text packet after packet,
//! so that the whole text need not be in memory. It depends on `capture` and `hex`. The text is exactly what the definition
//! in `specs/` says: a line for each frame, the time between frames in separate lines, a comment for each packet that is
//! left out, with the reason, and a line `wait` after each 1000th packet. If an access point is named, frames that aren't
//! for it are left out, and a comment at the end counts them. There are no other lines. `access_points` says which access
//! points the frames of a capture name.
mod chosen;
mod lines;
mod script;

pub use chosen::{Bssid, Named, access_points};
pub use script::{Manner, ScriptRest, first_time, script_text, unit};
