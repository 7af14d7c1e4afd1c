//! Laws of the link: what holds of every run of an access point (IEEE 802.11-2016, 10.24, 11.3 and
//! 11.5), for all events and verdicts.
//!
//! Main laws: `link_law`, for lists of events at eight shards or at one, and `history_law`, the parts
//! of which it is made. It depends only on `ap_model`. A law is a function with an empty body: its
//! contract is the theorem, which a caller has after the call.
#![tactic(auto)]

mod laws;

pub use laws::{history_law, link_law, window_law};
