//! BlockAckReq (IEEE 802.11-2016, 10.24.7.6.3): what the window passes up, then the BlockAck.

ghost use Rattle.std.specs.Prelude.{◌≡◌, [], IfOk, IfErr};
ghost use Rattle.ap_model.specs.Agreements.{RequestComes};
ghost use Rattle.ap_core.specs.Handles.{reading, ruled_by};

use crate::room::FrameRoom;
use crate::state::{Setting, State};
use crate::ups::pass_up;
use ap_agreements::Released;
use ap_model::Out;
use mac_frame::{Address, BlockAck, MacFrame, SequenceNumber, Tid};
use std::alloc::AllocError;

/// Handles a station's BlockAckReq, which leads to nothing without an agreement.
pub(crate) fn on_request(
    setting: Setting<'_>,
    state: &mut State,
    station: Address,
    tid: Tid,
    start: SequenceNumber,
) -> Result<Vec<Out>, AllocError>
    ensures step { IfOk result
        (λ outs. RequestComes (ruled_by setting.entry state.old) (reading state.old)
        station tid start [] outs.items (reading state.new)) }
    ensures shard { state.new.link.shard ≡ state.old.link.shard }
    ensures refused { IfErr result (λ _. state.new ≡ state.old) }
{
    let Setting { alloc, config } = setting;
    match state.agreements.get_placed(station, tid) {
        None => Ok(Vec::new(alloc)),
        Some((at, entry)) => {
            let mut outs = Vec::with_capacity(alloc, entry.held() + 1)?;
            let frame = FrameRoom::new(alloc)?;
            let clock = state.clock;
            let mut passed = Released::new();
            let (first, bits) = state.agreements.request(at, start, clock, &mut passed);
            pass_up(station, tid, passed, &mut outs);
            let response = BlockAck {
                tid,
                start: first,
                bitmap: bits,
            };
            let answer = MacFrame::block_ack(alloc, station, config.bssid(), response);
            outs.push_reserved(frame.send(&answer));
            Ok(outs)
        }
    }
}
