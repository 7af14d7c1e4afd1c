//! Gives out the tokens of an access point.

ghost use Rattle.std.specs.Prelude.{◌≡◌, ◌+◌, ◌≤◌, IfOk, Ok, OnOk};
ghost use Rattle.std.specs.List.{All};
ghost use Rattle.ap_live.specs.Lives.{KeepsLive};
ghost use Rattle.ap_live.specs.Opening.{parts_in_all};
ghost use Rattle.ap_live.specs.Tokens.{AreLeft};
ghost use Rattle.live_scenes.specs.Rights.{IsChiefBoxed, IsHandBoxed};

use crate::hands::{Chief, Hand};
use crate::purse::{PARTS, Purse};
use ap_books::Ledgers;
use ap_live::{LeftTokens, LiveAp, OperatorToken, WorkerToken};
use ap_locked::Journals;
use std::alloc::{AllocError, Global};

/// Puts what was made into memory of its own, since tokens have many parts.
fn boxed<T: Drop, E: Drop>(alloc: Global, made: Result<T, E>) -> Result<Box<T>, AllocError>
    ensures { IfOk result (λ b. made ≡ Ok b.value) }
{
    let Ok(value) = made else {
        return Err(AllocError);
    };
    let value = Box::new(alloc, value)?;
    Ok(value)
}

/// The tokens of all `count` workers. The first worker's comes last.
fn hire_workers<B: Ledgers + Journals>(
    ap: &mut LiveAp<B>,
    alloc: Global,
    left: &mut LeftTokens<B>,
    count: usize,
) -> Result<Vec<Box<WorkerToken<B>>>, AllocError>
    requires left { AreLeft ap.old left.old }
    requires all { ap.old.stock.workers ≡ count }
    ensures own { IfOk result (λ ws. All (IsHandBoxed ap.new) ws.items) }
    ensures parts { OnOk result (left.new.parts + count ≡ left.old.parts) }
    ensures keeps { OnOk result (KeepsLive ap.old ap.new) }
{
    let mut tokens = Vec::with_capacity(alloc, count)?;
    for hired in 0..count {
        let token = boxed(alloc, ap.worker(alloc, left, count - 1 - hired))?;
        tokens.push_reserved(token);
    }
    Ok(tokens)
}

/// The tokens of `count` operators.
fn hire_operators<B: Ledgers + Journals>(
    ap: &mut LiveAp<B>,
    alloc: Global,
    left: &mut LeftTokens<B>,
    count: usize,
) -> Result<Vec<Box<OperatorToken<B>>>, AllocError>
    requires left { AreLeft ap.old left.old }
    ensures left { OnOk result (AreLeft ap.new left.new) }
    ensures own { IfOk result (λ os. All (IsChiefBoxed ap.new) os.items) }
    ensures parts { OnOk result (left.new.parts + count ≡ left.old.parts) }
    ensures workers { OnOk result (ap.new.stock.workers ≡ ap.old.stock.workers) }
{
    let mut tokens = Vec::with_capacity(alloc, count)?;
    for _hired in 0..count {
        let token = boxed(alloc, ap.operator(alloc, left))?;
        tokens.push_reserved(token);
    }
    Ok(tokens)
}

/// The tokens of all workers, and of some operators.
#[derive(Drop)]
pub(crate) struct Crew<B: Ledgers + Journals> {
    pub workers: Vec<Box<WorkerToken<B>>>,
    pub operators: Vec<Box<OperatorToken<B>>>,
}

/// The tokens of all `many.0` workers, and of `many.1` operators.
fn hire<B: Ledgers + Journals>(
    ap: &mut LiveAp<B>,
    alloc: Global,
    left: &mut LeftTokens<B>,
    many: (usize, usize),
) -> Result<Crew<B>, AllocError>
    requires left { AreLeft ap.old left.old }
    requires all { ap.old.stock.workers ≡ many.0 }
    ensures hands { IfOk result (λ c. All (IsHandBoxed ap.new) c.workers.items) }
    ensures chiefs { IfOk result (λ c. All (IsChiefBoxed ap.new) c.operators.items) }
    ensures parts { OnOk result (left.new.parts + many.0 + many.1 ≡ left.old.parts) }
{
    let operators = hire_operators(ap, alloc, left, many.1)?;
    let workers = hire_workers(ap, alloc, left, many.0)?;
    Ok(Crew { workers, operators })
}

/// The tokens of all `many.0` workers and of `many.1` operators, and the remaining parts of the ledgers. No token may
/// have been given out yet.
pub(crate) fn deal<B: Ledgers + Journals>(
    ap: &mut LiveAp<B>,
    alloc: Global,
    left: LeftTokens<B>,
    many: (usize, usize),
) -> Result<(Crew<B>, Purse<B>), AllocError>
    requires left { AreLeft ap.old left }
    requires all { ap.old.stock.workers ≡ many.0 }
    requires few { many.0 ≤ 8 }
    requires few_operators { many.1 ≤ 8 }
    requires parts { left.parts ≡ parts_in_all }
    ensures hands { IfOk result (λ t. All (IsHandBoxed ap.new) t.0.workers.items) }
    ensures chiefs { IfOk result (λ t. All (IsChiefBoxed ap.new) t.0.operators.items) }
{
    let mut left = left;
    let Ok(crew) = hire(ap, alloc, &mut left, many) else {
        // Freed by a call, since eight shards have many parts.
        drop(left);
        return Err(AllocError);
    };
    let parts = PARTS - many.0 as u64 - many.1 as u64;
    let (shares, pages, passes) = left.into_all();
    drop(pages);
    drop(passes);
    let shares = Box::new(alloc, shares)?;
    Ok((crew, Purse { shares, parts }))
}

/// The workers of an access point, in the order of their numbers.
pub(crate) fn hands_of<'a, B: Ledgers + Journals>(
    alloc: Global,
    ap: &'a LiveAp<B>,
    tokens: Vec<Box<WorkerToken<B>>>,
) -> Result<Vec<Hand<'a, B>>, AllocError>
    requires { All (IsHandBoxed ap.now) tokens.items }
{
    let mut tokens = tokens;
    let mut hands = Vec::with_capacity(alloc, tokens.len())?;
    let mut number = 0u8;
    'tokens: while let Some(token) = tokens.pop() {
        hands.push_reserved(Hand { ap, token, number });
        number = number.wrapping_add(1);
    }
    Ok(hands)
}

/// The operators of an access point, numbered from 0.
pub(crate) fn chiefs_of<'a, B: Ledgers + Journals>(
    alloc: Global,
    ap: &'a LiveAp<B>,
    tokens: Vec<Box<OperatorToken<B>>>,
) -> Result<Vec<Chief<'a, B>>, AllocError>
    requires { All (IsChiefBoxed ap.now) tokens.items }
{
    let mut tokens = tokens;
    let mut chiefs = Vec::with_capacity(alloc, tokens.len())?;
    let mut number = 0u8;
    'tokens: while let Some(token) = tokens.pop() {
        chiefs.push_reserved(Chief { ap, token, number });
        number = number.wrapping_add(1);
    }
    Ok(chiefs)
}
