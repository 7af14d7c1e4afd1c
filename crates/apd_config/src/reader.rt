//! Reading a configuration from its text.

ghost use Rattle.std.specs.Prelude.{◌≡◌, true, not, IfOk, IfErr, OnOk, MatchResult, find, option_map, string_bytes};
ghost use Rattle.std.specs.List.{list_all};
ghost use Rattle.toml.specs.View.{table_view};
ghost use Rattle.apd_config.specs.Meaning.{is_key, keys_in};
ghost use Rattle.apd_config.specs.declared.configuration.Configuration.{Configuration};
ghost use Rattle.apd_config.specs.declared.fault.ConfigFault.{ConfigFault};
ghost use Rattle.apd_config.specs.Text.{AreAlike, IsTextOf, Says, Tells, TellsOfError, TellsOfText};

use crate::configuration::Configuration;
use crate::fault::ConfigFault;
use crate::{maps, values};
use std::alloc::{AllocError, Global};
use std::str;
use toml::Table;

/// Reads a configuration from its text, which is TOML, or returns a fault that the text has.
#[tactic(auto, using(crate::proofs::Faultless::only_this))]
pub fn read_configuration(alloc: Global, text: &[u8]) -> Result<Configuration, ConfigFault>
    ensures read { IfOk result (IsTextOf text.now) }
    // The text of a configuration is read, unless memory runs out.
    ensures only { (c : Configuration) → IsTextOf text.now c →
        MatchResult result (AreAlike c) (λ fault. fault ≡ ConfigFault.NoMemory) }
    ensures faulty { IfErr result (TellsOfText text.now) }
{
    let Ok(text) = str::from_utf8(text) else {
        return Err(ConfigFault::Encoding);
    };
    match toml::table_from_str(alloc, text) {
        Ok(table) => from_table(alloc, &table),
        Err(error) => Err(of_toml(alloc, &error)),
    }
}

/// The configuration that a table spells.
fn from_table(alloc: Global, table: &Table) -> Result<Configuration, ConfigFault>
    ensures says { IfOk result (Says (table_view table.now)) }
    ensures fault { IfErr result (Tells (table_view table.now)) }
{
    knows_keys(table)?;
    let bssid = values::bssid(table)?;
    let ssid = values::ssid(alloc, table)?;
    let rates = values::rates(alloc, table)?;
    let draw = values::draw(table)?;
    let maps = maps::shapes(alloc, table)?;
    Ok(Configuration {
        bssid,
        ssid,
        rates,
        draw,
        maps,
    })
}

fn is_key(text: &str) -> bool
    ensures is { result ≡ is_key text.now }
{
    text == "bssid" || text == "ssid" || text == "rates" || text == "draw" || text == "map"
}

/// The first key that no configuration has.
fn unknown_key(table: &Table) -> Option<&String>
    ensures is { option_map (λ key. string_bytes key.now) result
        ≡ find (λ key. not (is_key key)) (keys_in (table_view table.now)) }
{
    table.keys().find(|key| !is_key(key.as_str()))
}

/// Checks that the table has no other keys.
fn knows_keys(table: &Table) -> Result<(), ConfigFault>
    ensures known { OnOk result (list_all is_key (keys_in (table_view table.now)) ≡ true) }
    ensures fault { IfErr result (Tells (table_view table.now)) }
{
    match unknown_key(table) {
        None => Ok(()),
        Some(key) => {
            let key = key.clone()?;
            Err(ConfigFault::UnknownKey(key))
        }
    }
}

/// The fault of a text that isn't TOML, in one line.
fn of_toml(alloc: Global, error: &toml::de::Error) -> ConfigFault
    ensures { TellsOfError error.now result }
{
    if error.is_memory() {
        return ConfigFault::NoMemory;
    }
    match in_one_line(alloc, error) {
        Ok(text) => ConfigFault::Syntax(text),
        Err(AllocError) => ConfigFault::NoMemory,
    }
}

fn in_one_line(alloc: Global, error: &toml::de::Error) -> Result<String, AllocError> {
    let text = format!(in alloc; "{error}")?;
    let mut line = String::new(alloc);
    for part in text.as_str().lines() {
        if !line.is_empty() {
            line.push_str(": ")?;
        }
        line.push_str(part)?;
    }
    Ok(line)
}
