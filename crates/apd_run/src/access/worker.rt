//! The workers of a run.

use crate::access::names::Names;
use crate::access::register::Receipt;
use ap_books::Ledgers;
use ap_live::{Gate, LiveAp, Tagged, WorkerToken};
use ap_locked::Journals;
use apd_driver::Serving;
use std::alloc::{AllocError, Global};
use std::marker::{Model, PhantomData};
use std::sync::Wait;

/// A worker of a run: its token, what it needs for each event, its receipt for what the operator took over, of how many
/// loads it was told then, and what became of each item since then, which is what these count. Contracts see the access
/// point, the token, the receipt's number and batches, the number of loads and the list.
#[derive(Drop)]
pub struct LiveWorker<'a, B: Ledgers + Journals, L: Names, G: Drop> {
    pub(crate) ap: &'a LiveAp<B>,
    pub(crate) alloc: Global,
    pub(crate) gate: G,
    pub(crate) receipt: Receipt<L>,
    pub(crate) token: WorkerToken<B>,
    pub(crate) told: u64,
    pub(crate) handled: Vec<Tagged>,
    pub(crate) list: PhantomData<L>,
}

impl<'a, B: Ledgers + Journals, L: Names, G: Drop> Model for LiveWorker<'a, B, L, G> {
    ghost use Rattle.apd_run.specs.Hands.{RunWorker, IsRunWorker};

    ghost Value = { RunWorker };

    ghost view = { λ w. record { ap = w.ap.now; number = w.receipt.number; batches = w.receipt.batches; told = w.told; token = w.token; handled = w.handled.items } };

    ghost invariant = { λ w. IsRunWorker L.ap
        (record { ap = w.ap.now; number = w.receipt.number; batches = w.receipt.batches; told = w.told; token = w.token; handled = w.handled.items }) };
}

impl<'a, B: Ledgers + Journals, L: Names, G: Gate + Drop> Serving for LiveWorker<'a, B, L, G> {
    fn serve<R: Wait>(&mut self, rt: &R) -> Result<bool, AllocError> {
        let before = self.handled.len();
        let token = &mut self.token;
        let handled = &mut self.handled;
        self.ap.serve(rt, self.alloc, token, &self.gate, handled)?;
        Ok(self.handled.len() > before)
    }
}
