//! Stations that change state (IEEE 802.11-2016, 11.3): their agreements are discarded, with what
//! they hold.

ghost use Rattle.std.specs.Prelude.{◌≡◌, ◌⊎◌, OnOk, OnErr, None, Some, IsSome};
ghost use Rattle.assoc.specs.declared.standing.Known.{Known};
ghost use Rattle.assoc.specs.Standings.{standing, IsFull, IsFree, disassociated};
ghost use Rattle.ap_model.specs.Changes.{Moves};
ghost use Rattle.ap_core.specs.Handles.{reading};

use crate::state::State;
use mac_frame::Address;
use std::alloc::AllocError;

/// The station becomes authenticated. If that fails, nothing changes.
pub(crate) fn authenticate(state: &mut State, station: Address) -> Result<(), AllocError>
    requires { IsSome (standing state.old.link station) ⊎ (IsFull (standing state.old.link) → ⊥) }
    ensures moves { OnOk result
        (Moves (reading state.old) station (Some Known.Authenticated) (reading state.new)) }
    ensures shard { state.new.link.shard ≡ state.old.link.shard }
    ensures refused { OnErr result (state.new ≡ state.old) }
{
    state.link.on_auth(station)?;
    state.agreements.discard(station);
    Ok(())
}

pub(crate) fn associate(state: &mut State, station: Address, aid: u16)
    requires known { IsSome (standing state.old.link station) }
    requires free { IsFree state.old.link.shard (standing state.old.link) station aid }
    ensures moves { Moves (reading state.old) station (Some (Known.Associated aid))
        (reading state.new) }
    ensures shard { state.new.link.shard ≡ state.old.link.shard }
{
    state.link.on_assoc(station, aid);
    state.agreements.discard(station);
}

/// A known station falls to State 2.
pub(crate) fn disassociate(state: &mut State, station: Address)
    ensures moves { Moves (reading state.old) station
        (disassociated (standing state.old.link station)) (reading state.new) }
    ensures shard { state.new.link.shard ≡ state.old.link.shard }
{
    state.link.on_disassoc(station);
    state.agreements.discard(station);
}

/// The station becomes unknown.
pub(crate) fn deauthenticate(state: &mut State, station: Address)
    ensures moves { Moves (reading state.old) station None (reading state.new) }
    ensures shard { state.new.link.shard ≡ state.old.link.shard }
{
    state.link.on_deauth(station);
    state.agreements.discard(station);
}
