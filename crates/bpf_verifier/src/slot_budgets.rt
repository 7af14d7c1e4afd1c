//! The greatest budgets of slots, raised as states are finished.

ghost use Rattle.std.specs.Prelude.{◌≡◌, ◌+◌, ◌-◌, ◌^◌, min, take, drop};
ghost use Rattle.bpf_verifier.specs.Budgets.{raised, raised_along};

/// A state at this slot is finished with a budget: the slot's becomes the greater of the two.
pub(crate) fn raises(budgets: &mut [u32], slot: usize, budget: u32)
    ensures is { budgets.new ≡ raised budgets.old slot budget }
{
    if slot < budgets.len() {
        budgets[slot] = budgets[slot].max(budget);
    }
}

/// A budget with so many steps more, at most 2^32 - 1.
fn with_more(budget: u32, steps: usize) -> u32
    ensures is { result ≡ min (budget + steps) (2 ^ 32 - 1) }
{
    match u32::try_from(steps) {
        Ok(steps) => budget.saturating_add(steps),
        Err(_) => u32::MAX,
    }
}

/// The states at these slots, of which each leads to the next, are finished, the last of them with this budget.
pub(crate) fn raises_along(budgets: &mut [u32], slots: &[usize], budget: u32)
    ensures is { budgets.new ≡ raised_along budgets.old slots.now budget }
{
    let mut rest = slots;
    while let Some((slot, others)) = rest.split_first() {
        raises(budgets, *slot, with_more(budget, others.len()));
        rest = others;
    }
}

/// At most so many of these slots after the first ones that are left out.
pub(crate) fn part(slots: &[usize], start: usize, count: usize) -> &[usize]
    ensures is { result.now ≡ take count (drop start slots.now) }
{
    let (_, later) = slots.split_at(start.min(slots.len()));
    let (chosen, _) = later.split_at(count.min(later.len()));
    chosen
}
