//! Events at access points that C keeps.

ghost use Rattle.std.specs.Prelude.{◌≡◌, ◌≢◌, ◌≤◌, ◌↔◌, Some, None, IsSome, IfSome, IfOk, IfErr, OnErr, length};
ghost use Rattle.std.specs.Option.{option_map};
ghost use Rattle.bpf_helpers.specs.Hooked.{IsFitting, shapes_of};
ghost use Rattle.ap_model.specs.declared.event.Event.TheVariants as event;
ghost use Rattle.ap_single.specs.Leading.{IsLike, Leads};
ghost use Rattle.apd_c.specs.Held.{held};
ghost use Rattle.apd_c.specs.Answers.{UnlessSome, number_in};
ghost use Rattle.apd_c.specs.Events.{HasLed, HasLedTo, event_of, IsAgainNumber, IsCloseNumber, IsEventNumber, IsFrameNumber, IsIntoNumber, IsLed, IsNumberAt, IsNumberOver, IsSame, Serves, Stays};
ghost use Rattle.apd_c.specs.Link.{link_of};

use crate::answer::{NO_MEMORY, NOT_EMPTY, OTHER_MAPS, OTHER_VALUE, OUT_OF_LIMITS};
use crate::handle::{Content, Handle};
use crate::maps::Maps;
use crate::outs::Outputs;
use crate::runs::are_alike;
use ap_core::{Event, Out};
use ap_single::AccessPoint;
use bpf_helpers::{MapTables, WorkerState};
use mac_types::{Address, Reason, Tid};
use std::alloc::Global;

/// A station, by its address.
#[repr(C)]
#[derive(Clone, Copy)]
pub struct Station {
    pub octets: [u8; 6],
}

/// An event that C gives: the bytes of a frame, which C keeps, or another event.
#[derive(Drop)]
pub(crate) enum Happening<'a> {
    Frame(&'a [u8]),
    Other(Event),
}

/// An event, and the number that its caller gives it.
#[derive(Drop)]
struct UserEvent<'a> {
    event: Happening<'a>,
    user: u64,
}

/// The event of a frame, which C numbers; `None` if it has more than 2400 bytes.
fn frame_event<'a>(bytes: &'a [u8], user: u64) -> Option<UserEvent<'a>>
    ensures frame { IfSome result (λ given. event_of given.event ≡ event.Frame bytes.entry.now) }
    ensures user { IfSome result (λ given. given.user ≡ user) }
    ensures fits { IsSome result ↔ (length bytes.entry.now ≤ 2400) }
{
    if bytes.len() > 2400 {
        return None;
    }
    Some(UserEvent {
        event: Happening::Frame(bytes),
        user,
    })
}

/// Gives an event to an access point, as `AccessPoint::handle` says.
fn give(
    alloc: Global,
    access_point: &mut AccessPoint,
    event: Happening<'_>,
    maps: &[MapTables],
    state: &mut WorkerState,
) -> Option<Vec<Out>>
    requires for_maps { access_point.old.programs.shapes ≡ shapes_of maps.now }
    requires fitting { IsFitting maps.now 0 state.old.seats }
    ensures led { Leads access_point.old (event_of event.entry) maps.now state.old
        (option_map (λ outs. outs.items) result) access_point.new state.new }
    ensures refused { result ≡ None →
        IsLike access_point.old access_point.new × (state.new ≡ state.old) }
    ensures fitting { IsFitting maps.now 0 state.new.seats }
{
    match event {
        Happening::Frame(bytes) => access_point.receive(alloc, bytes, maps, state),
        Happening::Other(event) => access_point.handle(alloc, event, maps, state),
    }
}

/// Handles an event, with verdicts over these maps. Its outputs replace those of a list.
fn lead(
    alloc: Global,
    access_point: &mut AccessPoint,
    maps: &mut Maps,
    event: Happening<'_>,
    outs: &mut Vec<Out>,
) -> u32
    ensures ok { result ≡ 0 →
        IsLed access_point.old maps.old (event_of event.entry) outs.new.items access_point.new maps.new }
    ensures kept { result ≢ 0 → IsLike access_point.old access_point.new × IsSame maps.old maps.new }
    ensures outs { result ≢ 0 → outs.new ≡ outs.old }
    ensures number { IsNumberOver maps.old access_point.old result }
{
    if !are_alike(access_point.shapes().as_slice(), maps.shapes.as_slice()) {
        return OTHER_MAPS;
    }
    let tables = maps.tables.maps();
    match give(alloc, access_point, event, tables, &mut maps.state) {
        None => NO_MEMORY,
        Some(list) => {
            *outs = list;
            0
        }
    }
}

/// The same if a content is an access point.
fn lead_in(
    alloc: Global,
    content: &mut Content,
    maps: &mut Maps,
    event: Happening<'_>,
    outs: &mut Vec<Out>,
) -> u32
    ensures ok { result ≡ 0 →
        HasLed (Some content.old) maps.old (event_of event.entry) outs.new.items (Some content.new)
        maps.new }
    ensures kept { result ≢ 0 →
        Stays (Some content.old) (Some content.new) × IsSame maps.old maps.new }
    ensures outs { result ≢ 0 → outs.new ≡ outs.old }
    ensures number { UnlessSome (link_of (Some content.old)) 91 (IsNumberOver maps.old) result }
{
    match content {
        Content::Link(access_point) => lead(alloc, access_point, maps, event, outs),
        _ => OTHER_VALUE,
    }
}

/// The same if a handle holds an access point.
fn lead_at(
    alloc: Global,
    link: &mut Handle,
    maps: &mut Maps,
    event: Happening<'_>,
    outs: &mut Vec<Out>,
) -> u32
    ensures ok { result ≡ 0 →
        HasLed (held link.old) maps.old (event_of event.entry) outs.new.items (held link.new) maps.new }
    ensures kept { result ≢ 0 →
        Stays (held link.old) (held link.new) × IsSame maps.old maps.new }
    ensures outs { result ≢ 0 → outs.new ≡ outs.old }
    ensures number { UnlessSome (link_of (held link.old)) 91 (IsNumberOver maps.old) result }
{
    match link.lent() {
        None => OTHER_VALUE,
        Some(content) => lead_in(alloc, content, maps, event, outs),
    }
}

/// The same if a content is maps.
fn lead_on(
    alloc: Global,
    link: &mut Handle,
    content: &mut Content,
    event: Happening<'_>,
    outs: &mut Vec<Out>,
) -> u32
    ensures ok { result ≡ 0 → HasLedTo (event_of event.entry) (held link.old)
        (Some content.old) outs.new.items (held link.new) (Some content.new) }
    ensures kept { result ≢ 0 → Stays (held link.old) (held link.new)
        × Stays (Some content.old) (Some content.new) }
    ensures outs { result ≢ 0 → outs.new ≡ outs.old }
    ensures number { IsNumberAt (held link.old) (Some content.old) result }
{
    match content {
        Content::Maps(maps) => lead_at(alloc, link, maps, event, outs),
        _ => OTHER_VALUE,
    }
}

/// The same if a handle holds maps.
fn lead_over(
    alloc: Global,
    link: &mut Handle,
    maps: &mut Handle,
    event: Happening<'_>,
    outs: &mut Vec<Out>,
) -> u32
    ensures ok { result ≡ 0 →
        HasLedTo (event_of event.entry) (held link.old) (held maps.old) outs.new.items
        (held link.new) (held maps.new) }
    ensures kept { result ≢ 0 →
        Stays (held link.old) (held link.new) × Stays (held maps.old) (held maps.new) }
    ensures outs { result ≢ 0 → outs.new ≡ outs.old }
    ensures number { IsNumberAt (held link.old) (held maps.old) result }
{
    match maps.lent() {
        None => OTHER_VALUE,
        Some(content) => lead_on(alloc, link, content, event, outs),
    }
}

/// The same if a content is outputs, which those of the event replace, with the caller's number. 92: it is something
/// else.
fn lead_again(
    alloc: Global,
    link: &mut Handle,
    maps: &mut Handle,
    content: &mut Content,
    given: UserEvent<'_>,
) -> u32
    ensures serves { Serves (event_of given.entry.event) given.entry.user (held link.old)
        (held maps.old) (Some content.old) result
        (held link.new) (held maps.new) (Some content.new) }
    ensures number { IsAgainNumber (held link.old) (held maps.old) (Some content.old) result }
{
    let UserEvent { event, user } = given;
    match content {
        Content::Outs(outs) => {
            let number = lead_over(alloc, link, maps, event, &mut outs.list);
            if number == 0 {
                outs.user = user;
            }
            number
        }
        _ => NOT_EMPTY,
    }
}

/// The same; an empty handle is filled, by a box that is allocated first.
fn lead_to(
    alloc: Global,
    link: &mut Handle,
    maps: &mut Handle,
    outs: &mut Handle,
    given: UserEvent<'_>,
) -> u32
    ensures serves { Serves (event_of given.entry.event) given.entry.user (held link.old)
        (held maps.old) (held outs.old) result
        (held link.new) (held maps.new) (held outs.new) }
    ensures number { IsEventNumber (held link.old) (held maps.old) (held outs.old) result }
{
    if !outs.is_empty() {
        return NOT_EMPTY;
    }
    let none = Outputs {
        user: given.user,
        list: Vec::new(alloc),
    };
    let Ok(mut boxed) = Box::new(alloc, Content::Outs(none)) else {
        return NO_MEMORY;
    };
    let number = lead_again(alloc, link, maps, &mut boxed, given);
    if number == 0 {
        outs.put(boxed);
    }
    number
}

/// The same of a handle that is empty or holds outputs.
fn lead_into(
    alloc: Global,
    link: &mut Handle,
    maps: &mut Handle,
    outs: &mut Handle,
    given: UserEvent<'_>,
) -> u32
    ensures serves { Serves (event_of given.entry.event) given.entry.user (held link.old)
        (held maps.old) (held outs.old) result
        (held link.new) (held maps.new) (held outs.new) }
    ensures number { IsAgainNumber (held link.old) (held maps.old) (held outs.old) result }
{
    match outs.lent() {
        None => lead_to(alloc, link, maps, outs, given),
        Some(content) => lead_again(alloc, link, maps, content, given),
    }
}

/// An access point receives a frame of at most 2400 bytes, without its FCS. Its programs run over the maps of the
/// second handle. The outputs fill the third, which must be empty; each is read with the number `user`.
///
/// 0: the outputs are in the third handle. 40: an allocation failed. 90: the frame is longer. 91: one of the first two
/// handles doesn't hold an access point or maps. 92: the third isn't empty. 93: the access point is for maps of other
/// shapes. All but 0 leave the access point's readings, the maps and the third handle unchanged.
#[unsafe(no_mangle)]
pub extern "C" fn apd_c_link_frame(
    alloc: Global,
    link: &mut Handle,
    maps: &mut Handle,
    outs: &mut Handle,
    bytes: &[u8],
    user: u64,
) -> u32
    ensures serves { Serves (event.Frame bytes.now) user (held link.old) (held maps.old) (held outs.old)
        result
        (held link.new) (held maps.new) (held outs.new) }
    ensures number { IsFrameNumber bytes.now (held link.old) (held maps.old) (held outs.old)
        result }
{
    let Some(given) = frame_event(bytes, user) else {
        return OUT_OF_LIMITS;
    };
    lead_to(alloc, link, maps, outs, given)
}

/// `apd_c_link_frame` with a third handle that is empty or holds the outputs of an earlier event, which those of this
/// one replace. 92: it holds something else. All but 0 leave it unchanged.
#[unsafe(no_mangle)]
pub extern "C" fn apd_c_link_frame_into(
    alloc: Global,
    link: &mut Handle,
    maps: &mut Handle,
    outs: &mut Handle,
    bytes: &[u8],
    user: u64,
) -> u32
    ensures serves { Serves (event.Frame bytes.now) user (held link.old) (held maps.old) (held outs.old)
        result
        (held link.new) (held maps.new) (held outs.new) }
    ensures number { IsIntoNumber bytes.now (held link.old) (held maps.old) (held outs.old)
        result }
{
    let Some(given) = frame_event(bytes, user) else {
        return OUT_OF_LIMITS;
    };
    lead_into(alloc, link, maps, outs, given)
}

/// `units` units of time pass at all eight shards, or at none. The rest is as for `apd_c_link_frame`.
#[unsafe(no_mangle)]
pub extern "C" fn apd_c_link_tick(
    alloc: Global,
    link: &mut Handle,
    maps: &mut Handle,
    outs: &mut Handle,
    units: u32,
    user: u64,
) -> u32
    ensures serves { Serves (event.Tick units) user (held link.old) (held maps.old) (held outs.old)
        result
        (held link.new) (held maps.new) (held outs.new) }
    ensures number { IsEventNumber (held link.old) (held maps.old) (held outs.old) result }
{
    let given = UserEvent {
        event: Happening::Other(Event::Tick(units)),
        user,
    };
    lead_to(alloc, link, maps, outs, given)
}

/// The operator deauthenticates a station with a reason code. The rest is as for `apd_c_link_frame`.
#[unsafe(no_mangle)]
pub extern "C" fn apd_c_link_kick(
    alloc: Global,
    link: &mut Handle,
    maps: &mut Handle,
    outs: &mut Handle,
    station: &Station,
    reason: u16,
    user: u64,
) -> u32
    ensures serves { Serves (event.Kick station.now.octets reason) user (held link.old) (held maps.old)
        (held outs.old) result
        (held link.new) (held maps.new) (held outs.new) }
    ensures number { IsEventNumber (held link.old) (held maps.old) (held outs.old) result }
{
    let event = Event::Kick {
        station: Address::new(station.octets),
        reason: Reason::new(reason),
    };
    let given = UserEvent {
        event: Happening::Other(event),
        user,
    };
    lead_to(alloc, link, maps, outs, given)
}

/// The operator ends a station's agreement for a TID below 8. 90: the TID isn't below 8. The rest is as for
/// `apd_c_link_frame`.
#[unsafe(no_mangle)]
pub extern "C" fn apd_c_link_close(
    alloc: Global,
    link: &mut Handle,
    maps: &mut Handle,
    outs: &mut Handle,
    station: &Station,
    tid: u8,
    user: u64,
) -> u32
    ensures serves { Serves (event.Close station.now.octets tid) user (held link.old) (held maps.old)
        (held outs.old) result
        (held link.new) (held maps.new) (held outs.new) }
    ensures number { IsCloseNumber tid (held link.old) (held maps.old) (held outs.old) result }
{
    let Some(tid) = Tid::new(tid) else {
        return OUT_OF_LIMITS;
    };
    let event = Event::Close {
        station: Address::new(station.octets),
        tid,
    };
    let given = UserEvent {
        event: Happening::Other(event),
        user,
    };
    lead_to(alloc, link, maps, outs, given)
}
