//! Sending workers out, and collecting them with their reports.

ghost use Rattle.std.specs.Prelude.{◌≡◌, ◌+◌, length, OnOk, vec_len};
ghost use Rattle.apd_driver.specs.Crews.{Collects};

use crate::Report;
use crate::crew::{Desk, Done, Order, Serving};
use crate::operating::Operating;
use crate::setting::{Setting, Staff};
use std::alloc::AllocError;
use std::sync::Wait;

/// Leaves an order for a worker at each desk, which goes out when the desk is rung for.
pub(crate) fn send_out<W: Serving + Drop, R: Wait>(
    setting: &Setting<'_, W, R>,
    workers: &mut Vec<W>,
    interval: u64,
)
    requires all { vec_len workers.old ≡ length setting.now.desks.now }
    ensures none { vec_len workers.new ≡ 0 }
{
    for desk in setting.desks {
        let Some(worker) = workers.pop() else {
            unreachable!()
        };
        desk.leave(setting.rt, Order { worker, interval });
    }
}

/// Waits for a worker and takes it back. The reports on its events are appended to the others.
fn collect_one<W: Serving + Drop, O: Operating<W> + Drop, R: Wait>(
    rt: &R,
    desk: &Desk<W>,
    staff: &mut Staff<W, O>,
    all: &mut Vec<Report>,
) -> Result<(), AllocError>
    ensures home { OnOk result (vec_len staff.new.workers ≡ vec_len staff.old.workers + 1) }
    ensures collects { OnOk result (Collects (O.crew staff.old.operator) (O.crew staff.new.operator)
        all.old.items all.new.items) }
{
    let Staff { operator, workers } = staff;
    workers.reserve(1)?;
    let Done { worker, refused } = desk.reports.take(rt);
    if refused {
        return Err(AllocError);
    }
    let mut worker = worker;
    operator.settle(&mut worker, all)?;
    workers.push_reserved(worker);
    Ok(())
}

/// Waits for all workers and takes them back. The reports on their events are appended to the operator's; none is left.
pub(crate) fn collect<W: Serving + Drop, O: Operating<W> + Drop, R: Wait>(
    setting: &Setting<'_, W, R>,
    staff: &mut Staff<W, O>,
    all: &mut Vec<Report>,
) -> Result<(), AllocError>
    ensures home { OnOk result
        (vec_len staff.new.workers ≡ vec_len staff.old.workers + length setting.now.desks.now) }
    ensures collects { OnOk result (Collects (O.crew staff.old.operator) (O.crew staff.new.operator)
        all.old.items all.new.items) }
    ensures none_left { OnOk result (O.semantics.NoneLeft (O.crew staff.new.operator).work) }
{
    for desk in setting.desks {
        collect_one(setting.rt, desk, staff, all)?;
    }
    staff.operator.find_none_left()
}
