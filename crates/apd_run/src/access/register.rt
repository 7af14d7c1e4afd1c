//! The batches that an operator takes over from its workers.

ghost use Rattle.std.specs.Prelude.{◌≡◌, ◌<◌, [], ◌∷◌, ◌++◌, OnErr, OnOk};
ghost use Rattle.apd_run.specs.Batches.{batches_of};

use crate::access::names::Names;
use ap_journal::{Author, Describes, Entry, Known, Opened};
use ap_live::Tagged;
use std::alloc::AllocError;
use std::marker::{Model, PhantomData};

/// What became of events of a worker since it reported before, and of how many loads it had been told then. Only proofs
/// have such values.
#[derive(Drop)]
pub struct Batch {
    worker: usize,
    told: u64,
    events: Vec<Tagged>,
}

impl Model for Batch {
    ghost use Rattle.apd_run.specs.Batches.{Batch};

    ghost Value = { Batch };

    ghost view = { λ b. record { worker = b.worker; told = b.told; events = b.events.items } };
}

impl Entry for Batch {
    ghost use Rattle.std.specs.Prelude.{[]};

    ghost unwritten = { record { worker = 0; told = 0; events = [] } };
}

/// What a worker reports.
#[derive(Drop)]
struct Reported<'a> {
    worker: usize,
    told: u64,
    events: &'a [Tagged],
}

impl<'a> Describes<Batch> for Reported<'a> {
    ghost entry = { λ r. record { worker = r.worker; told = r.told; events = r.events.now } };
}

/// The batches that an operator took over, which take no memory, and how many there are of each worker. Contracts see the
/// batches.
#[derive(Drop)]
pub struct Register<L: Names> {
    author: Author<Batch>,
    known: Known<Batch>,
    counts: [u64; 8],
    list: PhantomData<L>,
}

impl<L: Names> Model for Register<L> {
    ghost use Rattle.std.specs.Prelude.{List};
    ghost use Rattle.apd_run.specs.Batches.{Batch, IsRegister};

    ghost Value = { List Batch };

    ghost view = { λ r. r.known.entries };

    ghost invariant = { λ r. IsRegister L.batches r.author r.known r.counts };
}

/// What a worker knows of its operator's batches: its number, all batches up to the last one of its own, and how many of
/// them are its own. Contracts see the number and the batches.
#[derive(Drop)]
pub struct Receipt<L: Names> {
    number: usize,
    known: Known<Batch>,
    count: u64,
    list: PhantomData<L>,
}

impl<L: Names> Model for Receipt<L> {
    ghost use Rattle.apd_run.specs.Batches.{IsReceipt, Receipt};

    ghost Value = { Receipt };

    ghost view = { λ r. record { number = r.number; batches = r.known.entries } };

    ghost invariant = { λ r. IsReceipt L.batches r.number r.known r.count };
}

impl<L: Names> Receipt<L> {
    /// The worker's number.
    pub(crate) fn number(&self) -> usize
        ensures is { result ≡ self.now.number }
    {
        self.number
    }
}

impl<L: Names> Register<L> {
    /// A register without batches.
    pub(crate) fn new(opened: Opened<Batch>) -> Register<L>
        requires named { opened ≡ L.batches }
        ensures empty { result ≡ [] }
    {
        let (author, known) = opened.into_parts();
        Register {
            author,
            known,
            counts: [0; 8],
            list: PhantomData,
        }
    }

    /// A receipt for a worker before any batch.
    pub(crate) fn receipt(&self, number: usize) -> Receipt<L>
        requires none { self.now ≡ [] }
        ensures is { result ≡ record { number = number; batches = [] } }
    {
        Receipt {
            number,
            known: self.known.again(),
            count: 0,
            list: PhantomData,
        }
    }

    /// Finds that a worker knows all batches of its own. Err: it doesn't, or the register has about 2^61 batches, neither of
    /// which can happen.
    pub(crate) fn compare(&mut self, receipt: &Receipt<L>) -> Result<(), AllocError>
        ensures same { self.new ≡ self.old }
        ensures below { OnOk result (receipt.now.number < 8) }
        ensures agree { OnOk result (batches_of receipt.now.number receipt.now.batches
            ≡ batches_of receipt.now.number self.old) }
    {
        if !self.author.prepare(&self.known) {
            return Err(AllocError);
        }
        self.author.look(&self.known, &receipt.known);
        if receipt.number >= self.counts.len() || self.counts[receipt.number] != receipt.count {
            return Err(AllocError);
        }
        Ok(())
    }

    /// Adds a batch of these events of a worker, which had been told of so many loads, and writes it on its receipt. Err: as
    /// `compare`.
    pub(crate) fn add(
        &mut self,
        receipt: &mut Receipt<L>,
        told: u64,
        events: &[Tagged],
    ) -> Result<(), AllocError>
        ensures agree { OnOk result (batches_of receipt.old.number receipt.old.batches
            ≡ batches_of receipt.old.number self.old) }
        ensures added { OnOk result (self.new ≡ self.old
            ++ record { worker = receipt.old.number; told = told; events = events.now } ∷ []) }
        ensures receipt { OnOk result (receipt.new
            ≡ record { number = receipt.old.number; batches = self.new }) }
        ensures refused { OnErr result ((self.new ≡ self.old) × (receipt.new ≡ receipt.old)) }
    {
        self.compare(receipt)?;
        if !self.author.prepare(&self.known) {
            return Err(AllocError);
        }
        let Some(count) = receipt.count.checked_add(1) else {
            return Err(AllocError);
        };
        let reported = Reported {
            worker: receipt.number,
            told,
            events,
        };
        self.author.add(&mut self.known, &reported);
        self.counts[receipt.number] = count;
        receipt.count = count;
        receipt.known = self.known.again();
        Ok(())
    }
}
