//! The order of reports.

ghost use Rattle.std.specs.Prelude.{◌≡◌, OnOk, OnErr};
ghost use Rattle.apd_driver.specs.Order.{IsOrdered};

use crate::reports::report::Report;
use std::alloc::AllocError;

/// Sorts reports by line, and those of one line by shard. Those of one shard and line keep their order. If an
/// allocation fails, nothing changes.
pub fn put_in_order(reports: &mut Vec<Report>) -> Result<(), AllocError>
    ensures ordered { OnOk result (IsOrdered reports.old.items reports.new.items) }
    ensures refused { OnErr result (reports.new.items ≡ reports.old.items) }
{
    reports.sort_by_key(|report| -> (u64, u16) { (report.line, report.shard) })?;
    Ok(())
}
