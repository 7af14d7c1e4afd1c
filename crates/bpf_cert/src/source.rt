//! Builds claims from entries, as long as they take little memory.

ghost use Rattle.std.specs.Prelude.{◌≡◌, IfOk};
ghost use Rattle.bpf_absstate.specs.WellFormed.{IsView};
ghost use Rattle.bpf_cert_format.specs.Fits.{FitsEntry};
ghost use Rattle.bpf_cert.specs.States.{claim_of};

use crate::claim::Claim;
use crate::entry_claim::claim;
use crate::states::{blank, state_of};
use bpf_absstate::AbsState;
use bpf_cert_format::Entry;
use std::alloc::{AllocError, Global};
use std::marker::Model;

/// What claims are built from, and how much memory they may take.
#[derive(Drop)]
pub struct Source {
    /// The state in which nothing is known.
    blank: AbsState,
    /// Roughly how many bytes are left.
    room: usize,
}

impl Model for Source {
    ghost use Rattle.std.specs.Prelude.{◌≡◌};
    ghost use Rattle.bpf_absstate.specs.View.{View};
    ghost use Rattle.bpf_cert.specs.Built.{blank_view};

    ghost Value = { View };

    ghost view = { λ a. a.blank };

    ghost invariant = { λ a. a.blank ≡ blank_view };
}

impl Source {
    /// Claims may take about `room` bytes.
    pub(crate) fn new(alloc: Global, room: usize) -> Result<Source, AllocError> {
        let blank = blank(alloc)?;
        Ok(Source { blank, room })
    }

    /// Whether claims may take more memory.
    pub(crate) fn has_room(&self) -> bool {
        self.room > 0
    }

    /// The claim of an entry. Its memory counts as taken.
    pub(crate) fn claim(
        &mut self,
        alloc: Global,
        maps: usize,
        entry: &Entry,
    ) -> Result<Claim, AllocError>
        requires fits { FitsEntry maps entry.now }
        ensures is { IfOk result (λ claim. claim ≡ claim_of entry.now) }
        ensures whole { IfOk result (λ claim. IsView claim.state) }
    {
        self.room = self.room.saturating_sub(entry.weight());
        let state = state_of(alloc, maps, &self.blank, entry)?;
        Ok(claim(maps, state, entry))
    }
}
