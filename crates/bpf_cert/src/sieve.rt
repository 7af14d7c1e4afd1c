//! Finished states, without needless ones.

ghost use Rattle.std.specs.Prelude.{◌≤◌, IfErr};
ghost use Rattle.bpf_prune.specs.Spending.{HasPassed};
ghost use Rattle.bpf_cert.specs.Limits.{IsStop};

use crate::claims::Claims;
use crate::limit::{Meter, Stop};
use bpf_decode::Program;
use bpf_prune::{Entry, Work, parts_of};
use std::alloc::{AllocError, Global};

/// With how many states of its slot a new one is compared.
const NEWEST: usize = 64;

/// Whether one finished state can replace the other: it includes it, and its budget isn't greater. The parts of the
/// state that is compared count as work.
fn serves(one: &Entry, other: &Entry, work: &mut Work) -> Result<bool, Stop>
    ensures stop { IfErr result (IsStop (HasPassed work.new)) }
{
    if one.budget > other.budget {
        return Ok(false);
    }
    work.compares()?;
    work.spends(parts_of(&other.state))?;
    Ok(other.state.is_included(&one.state))
}

/// Whether one of the newest of these states can replace a new one.
fn is_served(kept: &[Entry], entry: &Entry, work: &mut Work) -> Result<bool, Stop>
    ensures stop { IfErr result (IsStop (HasPassed work.new)) }
{
    for one in kept.iter().rev().take(NEWEST) {
        if serves(one, entry, work)? {
            return Ok(true);
        }
    }
    Ok(false)
}

/// Removes those of the newest states that a new one can replace.
fn give_up(kept: &mut Vec<Entry>, entry: &Entry, work: &mut Work) -> Result<(), Stop>
    ensures stop { IfErr result (IsStop (HasPassed work.new)) }
{
    let first = kept.len().saturating_sub(NEWEST);
    for at in (first..kept.len()).rev() {
        if at < kept.len() && serves(entry, &kept[at], work)? {
            let _needless = kept.remove(at);
        }
    }
    Ok(())
}

fn add(kept: &mut Vec<Entry>, entry: Entry, work: &mut Work) -> Result<(), Stop>
    ensures stop { IfErr result (IsStop (HasPassed work.new)) }
{
    if is_served(kept.as_slice(), &entry, work)? {
        return Ok(());
    }
    give_up(kept, &entry, work)?;
    kept.push(entry)?;
    Ok(())
}

fn empty_table(alloc: Global, slots: usize) -> Result<Vec<Vec<Entry>>, AllocError> {
    let mut table = Vec::with_capacity(alloc, slots)?;
    for _slot in 0..slots {
        table.push(Vec::new(alloc))?;
    }
    Ok(table)
}

/// The claims of a program by slot. A state is left out if another one of its slot includes it with no greater budget,
/// among 64 that were finished about the same time.
pub(crate) fn sifted(
    alloc: Global,
    program: &Program,
    claims: &Claims,
    work: &mut Work,
) -> Result<Vec<Vec<Entry>>, Stop>
    ensures stop { IfErr result (IsStop (HasPassed work.new)) }
{
    let mut table = empty_table(alloc, program.len())?;
    for place in 0..claims.len() {
        let claim = claims.claim(place)?;
        let pc = claim.state.pc();
        if pc < table.len() {
            let entry = Entry {
                state: claim.state,
                budget: claim.budget,
            };
            add(&mut table[pc], entry, work)?;
        }
    }
    Ok(table)
}
