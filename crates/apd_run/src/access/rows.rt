//! What the operator of a run lists.

ghost use Rattle.std.specs.Prelude.{◌≡◌, IfOk, map};
ghost use Rattle.ap_core.specs.Listing.{MergesAgreements, MergesStations};
ghost use Rattle.ap_shards.specs.Listing.{Shows};
ghost use Rattle.apd_driver.specs.Asking.{AreAgreementsInOrder, AreStationsInOrder};
ghost use Rattle.apd_driver.specs.Crews.{LooksOn};
ghost use Rattle.apd_run.specs.Hands.{crew_of};
ghost use Rattle.apd_run.specs.Listing.{ListsAgreements, ListsStations, agreement_row, station_row};

use crate::access::names::Names;
use crate::access::operator::LiveOperator;
use ap_books::Ledgers;
use ap_live::{AgreementInForce, Known, KnownStation};
use ap_locked::Journals;
use apd_driver::{AgreementRow, StationRow};
use apd_files::Files;
use std::alloc::{AllocError, Global};
use std::sync::Wait;

fn station_row(known: &KnownStation) -> StationRow
    ensures is { result ≡ station_row known.now }
{
    StationRow {
        station: known.station,
        aid: match known.known {
            Known::Authenticated => None,
            Known::Associated(aid) => Some(aid),
        },
    }
}

fn agreement_row(agreement: &AgreementInForce) -> AgreementRow
    ensures is { result ≡ agreement_row agreement.now }
{
    let AgreementInForce {
        station,
        tid,
        start,
        size,
        held,
        timeout,
    } = *agreement;
    AgreementRow {
        station,
        tid,
        start,
        size,
        held,
        timeout,
    }
}

fn station_rows(alloc: Global, known: &[KnownStation]) -> Result<Vec<StationRow>, AllocError>
    ensures are { IfOk result (λ rows. rows.items ≡ map station_row known.now) }
{
    known.iter().map(|known| station_row(known)).collect(alloc)
}

fn agreement_rows(
    alloc: Global,
    agreements: &[AgreementInForce],
) -> Result<Vec<AgreementRow>, AllocError>
    ensures are { IfOk result (λ rows. rows.items ≡ map agreement_row agreements.now) }
{
    agreements
        .iter()
        .map(|agreement| agreement_row(agreement))
        .collect(alloc)
}

impl<'a, B: Ledgers + Journals, L: Names, F: Files> LiveOperator<'a, B, L, F> {
    /// The known stations of all shards, by address.
    pub(crate) fn known_stations<R: Wait>(
        &mut self,
        rt: &R,
        alloc: Global,
    ) -> Result<Vec<StationRow>, AllocError>
        ensures looks { LooksOn (crew_of F.held self.old) (crew_of F.held self.new) }
        ensures ordered { IfOk result (λ rows. AreStationsInOrder rows.items) }
        ensures lists { IfOk result (λ rows. ListsStations B.config
            self.old.token.shards self.new.token.shards rows.items) }
    {
        let known = self.ap.known_stations(rt, alloc, &mut *self.token)?;
        station_rows(alloc, known.as_slice())
    }

    /// The agreements in force of all shards, by address and TID.
    pub(crate) fn agreements_in_force<R: Wait>(
        &mut self,
        rt: &R,
        alloc: Global,
    ) -> Result<Vec<AgreementRow>, AllocError>
        ensures looks { LooksOn (crew_of F.held self.old) (crew_of F.held self.new) }
        ensures ordered { IfOk result (λ rows. AreAgreementsInOrder rows.items) }
        ensures lists { IfOk result (λ rows. ListsAgreements B.config
            self.old.token.shards self.new.token.shards rows.items) }
    {
        let agreements = self.ap.agreements(rt, alloc, &mut *self.token)?;
        agreement_rows(alloc, agreements.as_slice())
    }
}
