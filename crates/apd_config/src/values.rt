//! The values at the top of a configuration.

ghost use Rattle.std.specs.Prelude.{◌≡◌, ◌≤◌, ◌<◌, ◌^◌, IfOk, IfErr, IfSome, Some, None, vec_len, option_map, option_and_then, codes};
ghost use Rattle.std.specs.Result.{result_ok};
ghost use Rattle.toml.specs.Data.{get_member};
ghost use Rattle.toml.specs.View.{view, table_view};
ghost use Rattle.apd_config.specs.Keys.{text_of};
ghost use Rattle.apd_config.specs.Meaning.{bssid_of, ssid_of, draw_of, rates_of};
ghost use Rattle.apd_config.specs.Text.{Tells, LacksKey};

use crate::fault::ConfigFault;
use crate::keys::Key;
use crate::tables::value_at;
use hex::{FromHex, FromHexError};
use std::alloc::Global;
use toml::{Table, Value};

/// The value of a required key.
fn value(table: &Table, key: Key) -> Result<&Value, ConfigFault>
    ensures found { IfOk result
        (λ v. get_member (text_of key) (table_view table.now) ≡ Some (view v.now)) }
    ensures missing { IfErr result (λ e. e ≡ ConfigFault.Missing key) }
    ensures lacks { IfErr result (λ _. LacksKey (table_view table.now) (text_of key)) }
{
    match value_at(table, key.as_str()) {
        Some(value) => Ok(value),
        None => Err(ConfigFault::Missing(key)),
    }
}

fn as_bssid(value: &Value) -> Option<[u8; 6]>
    ensures is { result ≡ bssid_of (view value.now) }
{
    match value.as_str() {
        Some(text) => <[u8; 6] as FromHex>::from_hex(text).ok(),
        None => None,
    }
}

fn as_ssid(value: &Value) -> Option<&str>
    ensures is { option_map (λ text. text.now) result ≡ ssid_of (view value.now) }
{
    match value.as_str() {
        Some(text) if text.len() <= 32 => Some(text),
        _ => None,
    }
}

fn as_draw(value: &Value) -> Option<u64>
    ensures is { result ≡ draw_of (view value.now) }
    ensures fits { IfSome result (λ draw. draw < 2 ^ 63) }
{
    match value.as_integer() {
        Some(number) if number >= 0 => Some(number as u64),
        _ => None,
    }
}

/// The access point's address, of 12 hex digits.
pub(crate) fn bssid(table: &Table) -> Result<[u8; 6], ConfigFault>
    ensures value { IfOk result (λ bssid.
        option_and_then bssid_of (get_member (codes "bssid") (table_view table.now)) ≡ Some bssid) }
    ensures fault { IfErr result (Tells (table_view table.now)) }
{
    let value = value(table, Key::Bssid)?;
    match as_bssid(value) {
        Some(bssid) => Ok(bssid),
        None => Err(ConfigFault::Value(Key::Bssid)),
    }
}

/// The network's name, of at most 32 bytes.
pub(crate) fn ssid(alloc: Global, table: &Table) -> Result<Vec<u8>, ConfigFault>
    ensures value { IfOk result (λ name. option_and_then ssid_of
        (get_member (codes "ssid") (table_view table.now)) ≡ Some name.items) }
    ensures fits { IfOk result (λ name. vec_len name ≤ 32) }
    ensures fault { IfErr result (Tells (table_view table.now)) }
{
    let value = value(table, Key::Ssid)?;
    match as_ssid(value) {
        Some(text) => {
            let name = Vec::from_slice(alloc, text.as_bytes())?;
            Ok(name)
        }
        None => Err(ConfigFault::Value(Key::Ssid)),
    }
}

/// The rates, 1 to 8 bytes in hex.
pub(crate) fn rates(alloc: Global, table: &Table) -> Result<Vec<u8>, ConfigFault>
    ensures value { IfOk result (λ rates. option_and_then rates_of
        (get_member (codes "rates") (table_view table.now)) ≡ Some rates.items) }
    ensures some { IfOk result (λ rates. 1 ≤ vec_len rates) }
    ensures fits { IfOk result (λ rates. vec_len rates ≤ 8) }
    ensures fault { IfErr result (Tells (table_view table.now)) }
{
    let value = value(table, Key::Rates)?;
    let Some(text) = value.as_str() else {
        return Err(ConfigFault::Value(Key::Rates));
    };
    match hex::decode(alloc, text) {
        Ok(rates) if !rates.is_empty() && rates.len() <= 8 => Ok(rates),
        Err(FromHexError::OutOfMemory) => Err(ConfigFault::NoMemory),
        _ => Err(ConfigFault::Value(Key::Rates)),
    }
}

/// The first number drawn, at least 0.
pub(crate) fn draw(table: &Table) -> Result<u64, ConfigFault>
    ensures value { IfOk result (λ draw.
        option_and_then draw_of (get_member (codes "draw") (table_view table.now)) ≡ Some draw) }
    ensures fits { IfOk result (λ draw. draw < 2 ^ 63) }
    ensures fault { IfErr result (Tells (table_view table.now)) }
{
    let value = value(table, Key::Draw)?;
    match as_draw(value) {
        Some(draw) => Ok(draw),
        None => Err(ConfigFault::Value(Key::Draw)),
    }
}
