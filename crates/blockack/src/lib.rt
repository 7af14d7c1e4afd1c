//! The recipient's side of a block acknowledgement agreement (IEEE 802.11-2016, 10.24.7): its
//! receive reordering buffer (10.24.7.6) and its scoreboard (10.24.7.3).
//!
//! Main calls: `Agreement::on_data`, `on_bar` and `bitmap`; `hold` for data that waits, and `pass_to` for wanted data
//! whose frames go to a `Sink`. It depends on `arrayvec`. Each call is its step of the window and of the scoreboard. By
//! `window_law` each accepted number is passed up once, in increasing order, and windows don't depend on what frames hold.
#![tactic(auto)]

mod agreement;
mod laws;
mod ring;
mod scoreboard;
mod sink;

pub use agreement::{Agreement, Placed};
pub use laws::window_law;
pub use sink::Sink;
