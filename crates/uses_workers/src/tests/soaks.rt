//! A short run of `Soak`.

use crate::tests::same::same;
use crate::tests::scene::tell;
use bpf_regions::WordWidth;
use live_scenes::Soak;
use std::test::Fail;

/// How many data frames each of four operators submits. `bench_live soak` runs the same with any number.
const EVENTS: u64 = 5000;

#[test]
fn operators_workers_and_a_publisher_beside_each_other(rt: HostRuntime) -> Result<(), Fail> {
    for workers in [2, 4, 8] {
        let mut soak = Soak::new(EVENTS);
        let totals = tell(&rt, rt.alloc(), (workers, 4), WordWidth::Eight, &mut soak);
        let fault = soak.found(&rt).fault(totals);
        same(&rt, fault, None, "the soak");
    }
    Ok(())
}
