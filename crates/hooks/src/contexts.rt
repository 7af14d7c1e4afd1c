//! What a program reads of a station and its frame: 32 bytes. The layout is this access point's own.

ghost use Rattle.std.specs.Prelude.{◌≡◌};
ghost use Rattle.bpf_regions.specs.declared.hooks.Hook.{Hook};
ghost use Rattle.hooks.specs.Contexts.{context, association_context, addba_context, data_context};

use assoc::{Standing, aid_of, state_of};
use bpf_regions::{Context, Hook};
use mac_types::{Address, BufferSize, Capability, SequenceNumber, Tid};

/// The TID byte for a frame without a TID.
const NO_TID: u8 = 255;

/// The station whose frame is judged, and its standing before the frame.
#[derive(Clone, Copy)]
pub struct Asker {
    pub station: Address,
    pub standing: Standing,
}

/// What each hook adds to the station: a TID, and three numbers of its own.
#[derive(Clone, Copy)]
struct Told {
    tid: u8,
    first: u16,
    second: u16,
    third: u16,
}

/// The context of a station's frame.
fn context(hook: Hook, asker: Asker, told: Told) -> Context
    ensures { result
        ≡ context hook asker.station asker.standing told.tid told.first told.second told.third }
{
    let [a, b, c, d, e, f] = asker.station.octets();
    let [aid_low, aid_high] = aid_of(asker.standing).to_le_bytes();
    let [first_low, first_high] = told.first.to_le_bytes();
    let [second_low, second_high] = told.second.to_le_bytes();
    let [third_low, third_high] = told.third.to_le_bytes();
    Context::new([
        a,
        b,
        c,
        d,
        e,
        f,
        hook.number(),
        state_of(asker.standing),
        aid_low,
        aid_high,
        told.tid,
        0,
        first_low,
        first_high,
        second_low,
        second_high,
        third_low,
        third_high,
        0,
        0,
        0,
        0,
        0,
        0,
        0,
        0,
        0,
        0,
        0,
        0,
        0,
        0,
    ])
}

/// The context of an association or reassociation request.
pub fn association_context(
    asker: Asker,
    capability: Capability,
    listen_interval: u16,
    reassociation: bool,
) -> Context
    ensures { result ≡ association_context asker.station asker.standing capability
        listen_interval reassociation }
{
    let told = Told {
        tid: NO_TID,
        first: capability.field(),
        second: listen_interval,
        third: u16::from(reassociation),
    };
    context(Hook::Association, asker, told)
}

/// The context of an ADDBA request, with the size as sent.
pub fn addba_context(
    asker: Asker,
    tid: Tid,
    asked: BufferSize,
    timeout: u16,
    start: SequenceNumber,
) -> Context
    ensures { result ≡ addba_context asker.station asker.standing tid asked timeout start }
{
    let told = Told {
        tid: tid.number(),
        first: asked.number(),
        second: timeout,
        third: start.number(),
    };
    context(Hook::Addba, asker, told)
}

/// The context of data: its TID, if any, its sequence number, and its agreement's window start, if any.
pub fn data_context(
    asker: Asker,
    tid: Option<Tid>,
    number: SequenceNumber,
    window: Option<SequenceNumber>,
) -> Context
    ensures { result ≡ data_context asker.station asker.standing tid number window }
{
    let (second, third) = match window {
        Some(start) => (start.number(), 1),
        None => (0, 0),
    };
    let told = Told {
        tid: match tid {
            Some(tid) => tid.number(),
            None => NO_TID,
        },
        first: number.number(),
        second,
        third,
    };
    context(Hook::Data, asker, told)
}
