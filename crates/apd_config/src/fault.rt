//! Why a text isn't a configuration.

ghost use Rattle.std.specs.Prelude.{◌≡◌, ◌⊎◌, IfOk, IfErr, string_bytes};
ghost use Rattle.apd_config.specs.declared.fault.ConfigFault.TheVariants.{NoMemory};

use crate::keys::{Key, MapKey};
use std::alloc::{AllocError, AllocFailed, Global};
use thiserror::Error;

/// Why a text isn't a configuration. A fault of a key names it; a fault in a map has its number, counted from 0.
#[derive(Debug, Drop, Error)]
pub enum ConfigFault {
    /// The text isn't UTF-8.
    #[error("not UTF-8")]
    Encoding,
    /// The text isn't TOML: the position and the reason.
    #[error("{0}")]
    Syntax(String),
    /// A key that no configuration has.
    #[error("unknown key `{0}`")]
    UnknownKey(String),
    #[error("`{}` is missing", .0.as_str())]
    Missing(Key),
    /// The key's value isn't allowed.
    #[error("`{}` must be {}", .0.as_str(), .0.wanted())]
    Value(Key),
    /// A key that no map has.
    #[error("map {map}: unknown key `{key}`")]
    UnknownMapKey { map: usize, key: String },
    #[error("map {map}: `{}` is missing", .key.as_str())]
    MissingInMap { map: usize, key: MapKey },
    /// The key's value in a map isn't allowed.
    #[error("map {map}: `{}` must be {}", .key.as_str(), .key.wanted())]
    ValueInMap { map: usize, key: MapKey },
    #[error("out of memory")]
    NoMemory,
}

impl From<AllocError> for ConfigFault {
    ghost from_gives = { λ _ fault. fault ≡ NoMemory };

    fn from(_error: AllocError) -> ConfigFault {
        ConfigFault::NoMemory
    }
}

impl<T: Drop> From<AllocFailed<T>> for ConfigFault {
    ghost from_gives = { λ _ fault. fault ≡ NoMemory };

    fn from(_error: AllocFailed<T>) -> ConfigFault {
        ConfigFault::NoMemory
    }
}
