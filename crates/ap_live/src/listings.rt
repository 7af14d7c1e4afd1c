//! What an operator lists.

ghost use Rattle.std.specs.Prelude.{◌≡◌, IfOk};
ghost use Rattle.ap_core.specs.Listing.{MergesAgreements, MergesStations};
ghost use Rattle.ap_shards.specs.Listing.{Shows};
ghost use Rattle.ap_shards.specs.Tokens.{KeepOwn};

use crate::live::LiveAp;
use crate::tokens::OperatorToken;
use ap_books::Ledgers;
use ap_core::{AgreementInForce, KnownStation};
use ap_locked::Journals;
use std::alloc::{AllocError, Global};
use std::sync::Wait;

impl<B: Ledgers + Journals> LiveAp<B> {
    /// The known stations of all shards, ordered by address: each shard's at one moment, under its
    /// lock, concurrently with its worker. The token then has seen what had been decided at these
    /// moments.
    pub fn known_stations<R: Wait>(
        &self,
        rt: &R,
        alloc: Global,
        operator: &mut OperatorToken<B>,
    ) -> Result<Vec<KnownStation>, AllocError>
        ensures shown { IfOk result (λ rows. Shows MergesStations B.config
            operator.old.shards operator.new.shards rows.items) }
        ensures own { KeepOwn operator.old.shards operator.new.shards }
        ensures same { operator.new ≡ record operator.old { shards = operator.new.shards } }
    {
        self.shards.known_stations(rt, alloc, &mut operator.shards)
    }

    /// The agreements in force of all shards, ordered by address and TID: each shard's at one moment,
    /// under its lock, concurrently with its worker. The token then has seen what had been decided at
    /// these moments.
    pub fn agreements<R: Wait>(
        &self,
        rt: &R,
        alloc: Global,
        operator: &mut OperatorToken<B>,
    ) -> Result<Vec<AgreementInForce>, AllocError>
        ensures shown { IfOk result (λ rows. Shows MergesAgreements B.config
            operator.old.shards operator.new.shards rows.items) }
        ensures own { KeepOwn operator.old.shards operator.new.shards }
        ensures same { operator.new ≡ record operator.old { shards = operator.new.shards } }
    {
        self.shards.agreements(rt, alloc, &mut operator.shards)
    }
}
