//! The settings of the tests' access points.

ghost use Rattle.std.specs.Prelude.{◌≡◌, IfSome};

use crate::frames::lab;
use crate::programs::shapes;
use ap_live::Settings;
use bpf_regions::WordWidth;
use std::alloc::Global;

/// The network `lab`, the maps of the tests, and this many workers.
pub fn settings(alloc: Global, workers: u32, width: WordWidth) -> Option<Settings>
    ensures { IfSome result (λ s. s.workers ≡ workers) }
{
    let link = lab(alloc)?;
    let shapes = shapes(alloc, width)?;
    Some(Settings {
        link,
        shapes,
        draw: 0,
        workers,
    })
}
