//! Configurations.

use crate::tally::Judged;
use apd_config::{ConfigFault, Configuration, read_configuration};
use std::alloc::{AllocError, Global};

fn are_alike(one: &Configuration, other: &Configuration) -> bool {
    one.bssid == other.bssid
        && one.ssid.as_slice() == other.ssid.as_slice()
        && one.rates.as_slice() == other.rates.as_slice()
        && one.draw == other.draw
        && one.maps.as_slice() == other.maps.as_slice()
}

/// Whether two faults have the same text, and some.
fn say_the_same(alloc: Global, one: &ConfigFault, other: &ConfigFault) -> Result<bool, AllocError> {
    let said = format!(in alloc; "{one}")?;
    let again = format!(in alloc; "{other}")?;
    Ok(said.as_str() == again.as_str() && !said.is_empty())
}

/// The result for configurations that were read twice.
fn judged_twice(one: &Configuration, other: &Configuration) -> Judged {
    if are_alike(one, other) {
        Judged::Admitted { runs: 0 }
    } else {
        Judged::Wrong("read twice it is not the same")
    }
}

/// The result for two refusals of a configuration.
fn refused_twice(
    alloc: Global,
    one: &ConfigFault,
    other: &ConfigFault,
) -> Result<Judged, AllocError> {
    if let ConfigFault::NoMemory = one {
        return Ok(Judged::Wrong("out of memory"));
    }
    if say_the_same(alloc, one, other)? {
        return Ok(Judged::Refused);
    }
    Ok(Judged::Wrong("read twice it is not the same"))
}

/// Reads a configuration twice, which must give the same result.
pub fn judged(alloc: Global, bytes: &[u8]) -> Result<Judged, AllocError> {
    let first = read_configuration(alloc, bytes);
    let second = read_configuration(alloc, bytes);
    match (&first, &second) {
        (Ok(one), Ok(other)) => Ok(judged_twice(one, other)),
        (Err(one), Err(other)) => refused_twice(alloc, one, other),
        _ => Ok(Judged::Wrong("read twice it is not the same")),
    }
}
