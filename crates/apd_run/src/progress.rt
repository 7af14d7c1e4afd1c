//! Watching a run: by nobody, or by somebody who sees its progress on standard error.
//!
//! Main types: `Progress`, and the trait `Watcher`, which `run` tells of a run. It depends on `ap_live`, whose `Gate`
//! workers tell of each event. No clause speaks of the texts.
mod progress;
mod watcher;

pub use progress::Progress;
pub use watcher::Watcher;
