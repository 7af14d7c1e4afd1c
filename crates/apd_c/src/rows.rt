//! The stations and the agreements of access points, as C reads them.

ghost use Rattle.std.specs.Prelude.{◌≡◌, ◌≢◌, Some, IfOk, IfErr, length, slice_get};
ghost use Rattle.apd_c.specs.Held.{held};
ghost use Rattle.apd_c.specs.Answers.{number_in};
ghost use Rattle.apd_c.specs.Listing.{HasListed, IsListNumber, IsListedNumber, KeepsAgreements, KnowsStations, agreement_row, agreements_of, station_row, stations_of};

use crate::answer::{NO_MEMORY, NOT_EMPTY, OTHER_VALUE};
use crate::events::Station;
use crate::handle::{Content, Handle};
use ap_core::{AgreementInForce, KnownStation};
use assoc::{aid_of, state_of};
use std::alloc::Global;

/// A known station. State 2 is authenticated, 3 is associated, with an association identifier from 1 to 2007; 0 stands
/// for no station.
#[repr(C)]
#[derive(Clone, Copy)]
pub struct StationRow {
    pub station: Station,
    pub state: u8,
    pub aid: u16,
}

/// An agreement in force. The size is from 1 to 64; 0 stands for no agreement.
#[repr(C)]
#[derive(Clone, Copy)]
pub struct AgreementRow {
    pub station: Station,
    pub tid: u8,
    /// The first number of its window, which is awaited next.
    pub start: u16,
    /// How many numbers its window has.
    pub size: u16,
    /// In units of 1024 microseconds; 0 for none.
    pub timeout: u16,
    /// How many numbers its window holds, dropped ones included.
    pub held: usize,
}

/// Which rows of an access point are listed.
#[derive(Clone, Copy)]
enum Rows {
    Stations,
    Agreements,
}

/// A list of an access point, if a content is one.
fn listed_in(alloc: Global, content: &Content, rows: Rows) -> Result<Content, u32>
    ensures ok { IfOk result (λ list. HasListed rows (Some content.now) (Some list)) }
    ensures err { IfErr result (λ number. number ≢ 0) }
    ensures number { IsListedNumber (Some content.now) (number_in result) }
{
    let Content::Link(access_point) = content else {
        return Err(OTHER_VALUE);
    };
    match rows {
        Rows::Stations => match access_point.known_stations(alloc) {
            Err(_) => Err(NO_MEMORY),
            Ok(list) => Ok(Content::Stations(list)),
        },
        Rows::Agreements => match access_point.agreements(alloc) {
            Err(_) => Err(NO_MEMORY),
            Ok(list) => Ok(Content::Agreements(list)),
        },
    }
}

/// The same if a handle holds an access point.
fn listed_at(alloc: Global, link: &mut Handle, rows: Rows) -> Result<Content, u32>
    ensures ok { IfOk result (λ list. HasListed rows (held link.old) (Some list)) }
    ensures err { IfErr result (λ number. number ≢ 0) }
    ensures number { IsListedNumber (held link.old) (number_in result) }
    ensures kept { held link.new ≡ held link.old }
{
    match link.lent() {
        None => Err(OTHER_VALUE),
        Some(content) => listed_in(alloc, content, rows),
    }
}

/// Fills an empty handle with a list of an access point.
fn fill_listed(alloc: Global, link: &mut Handle, list: &mut Handle, rows: Rows) -> u32
    ensures listed { result ≡ 0 → HasListed rows (held link.old) (held list.new) }
    ensures kept { result ≢ 0 → held list.new ≡ held list.old }
    ensures link { held link.new ≡ held link.old }
    ensures number { IsListNumber (held link.old) (held list.old) result }
{
    if !list.is_empty() {
        return NOT_EMPTY;
    }
    match listed_at(alloc, link, rows) {
        Err(number) => number,
        Ok(listed) => list.fill(alloc, listed).number,
    }
}

/// Fills an empty handle with the stations that an access point knows, by increasing addresses.
///
/// 0: the second handle holds them. 40: an allocation failed. 91: the first holds no access point. 92: the second isn't
/// empty. All but 0 leave the second unchanged; the access point is unchanged in any case.
#[unsafe(no_mangle)]
pub extern "C" fn apd_c_link_stations(
    alloc: Global,
    link: &mut Handle,
    stations: &mut Handle,
) -> u32
    ensures listed { result ≡ 0 → KnowsStations (held link.old) (stations_of (held stations.new)) }
    ensures kept { result ≢ 0 → held stations.new ≡ held stations.old }
    ensures link { held link.new ≡ held link.old }
    ensures number { IsListNumber (held link.old) (held stations.old) result }
{
    fill_listed(alloc, link, stations, Rows::Stations)
}

/// Fills an empty handle with the agreements of an access point, by increasing addresses and TIDs.
///
/// 0: the second handle holds them. 40: an allocation failed. 91: the first holds no access point. 92: the second isn't
/// empty. All but 0 leave the second unchanged; the access point is unchanged in any case.
#[unsafe(no_mangle)]
pub extern "C" fn apd_c_link_agreements(
    alloc: Global,
    link: &mut Handle,
    agreements: &mut Handle,
) -> u32
    ensures listed { result ≡ 0 →
        KeepsAgreements (held link.old) (agreements_of (held agreements.new)) }
    ensures kept { result ≢ 0 → held agreements.new ≡ held agreements.old }
    ensures link { held link.new ≡ held link.old }
    ensures number { IsListNumber (held link.old) (held agreements.old) result }
{
    fill_listed(alloc, link, agreements, Rows::Agreements)
}

/// The stations that a content is; none if it is something else.
fn stations(content: &Content) -> &[KnownStation]
    ensures { result.now ≡ stations_of (Some content.now) }
{
    match content {
        Content::Stations(rows) => rows.as_slice(),
        _ => &[],
    }
}

/// The agreements that a content is; none if it is something else.
fn agreements(content: &Content) -> &[AgreementInForce]
    ensures { result.now ≡ agreements_of (Some content.now) }
{
    match content {
        Content::Agreements(rows) => rows.as_slice(),
        _ => &[],
    }
}

/// A station of a list.
fn station_in(rows: &[KnownStation], at: usize) -> StationRow
    ensures { result ≡ station_row (slice_get rows.now at) }
{
    match rows.get(at) {
        None => StationRow {
            station: Station {
                octets: [0, 0, 0, 0, 0, 0],
            },
            state: 0,
            aid: 0,
        },
        Some(row) => StationRow {
            station: Station {
                octets: row.station.octets(),
            },
            state: state_of(Some(row.known)),
            aid: aid_of(Some(row.known)),
        },
    }
}

/// An agreement of a list.
fn agreement_in(rows: &[AgreementInForce], at: usize) -> AgreementRow
    ensures { result ≡ agreement_row (slice_get rows.now at) }
{
    match rows.get(at) {
        None => AgreementRow {
            station: Station {
                octets: [0, 0, 0, 0, 0, 0],
            },
            tid: 0,
            start: 0,
            size: 0,
            timeout: 0,
            held: 0,
        },
        Some(row) => AgreementRow {
            station: Station {
                octets: row.station.octets(),
            },
            tid: row.tid.number(),
            start: row.start.number(),
            size: row.size,
            timeout: row.timeout,
            held: row.held,
        },
    }
}

/// The number of stations that a handle holds; 0 if it holds none.
#[unsafe(no_mangle)]
pub extern "C" fn apd_c_stations(list: &mut Handle) -> usize
    ensures count { result ≡ length (stations_of (held list.old)) }
    ensures kept { held list.new ≡ held list.old }
{
    match list.lent() {
        None => 0,
        Some(content) => stations(content).len(),
    }
}

/// The station at an index of a list; its state is 0 if there is none.
#[unsafe(no_mangle)]
pub extern "C" fn apd_c_station(list: &mut Handle, at: usize) -> StationRow
    ensures is { result ≡ station_row (slice_get (stations_of (held list.old)) at) }
    ensures kept { held list.new ≡ held list.old }
{
    match list.lent() {
        None => station_in(&[], at),
        Some(content) => station_in(stations(content), at),
    }
}

/// The number of agreements that a handle holds; 0 if it holds none.
#[unsafe(no_mangle)]
pub extern "C" fn apd_c_agreements(list: &mut Handle) -> usize
    ensures count { result ≡ length (agreements_of (held list.old)) }
    ensures kept { held list.new ≡ held list.old }
{
    match list.lent() {
        None => 0,
        Some(content) => agreements(content).len(),
    }
}

/// The agreement at an index of a list; its size is 0 if there is none.
#[unsafe(no_mangle)]
pub extern "C" fn apd_c_agreement(list: &mut Handle, at: usize) -> AgreementRow
    ensures is { result ≡ agreement_row (slice_get (agreements_of (held list.old)) at) }
    ensures kept { held list.new ≡ held list.old }
{
    match list.lent() {
        None => agreement_in(&[], at),
        Some(content) => agreement_in(agreements(content), at),
    }
}
