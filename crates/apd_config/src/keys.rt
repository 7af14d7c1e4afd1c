//! The keys of a configuration.

ghost use Rattle.std.specs.Prelude.{◌≡◌};
ghost use Rattle.apd_config.specs.Keys.{text_of, map_text_of};

/// A key at the top of a configuration.
#[derive(Clone, Copy, Debug, PartialEq, Eq)]
pub enum Key {
    Bssid,
    Ssid,
    Rates,
    Draw,
    Map,
}

impl Key {
    /// The key as a configuration spells it.
    pub fn as_str(self) -> &'static str
        ensures is { result.now ≡ text_of self }
    {
        match self {
            Key::Bssid => "bssid",
            Key::Ssid => "ssid",
            Key::Rates => "rates",
            Key::Draw => "draw",
            Key::Map => "map",
        }
    }

    /// What the key's value must be, in words for the operator.
    pub(crate) fn wanted(self) -> &'static str {
        match self {
            Key::Bssid => "12 hex digits",
            Key::Ssid => "text of 0 to 32 bytes",
            Key::Rates => "1 to 8 bytes in hex",
            Key::Draw => "an integer of 0 or more",
            Key::Map => "tables `[[map]]`, at most 16",
        }
    }
}

/// A key of one map's table.
#[derive(Clone, Copy, Debug, PartialEq, Eq)]
pub enum MapKey {
    Entries,
    Words,
    Width,
    Scope,
}

impl MapKey {
    /// The key as a configuration spells it.
    pub fn as_str(self) -> &'static str
        ensures is { result.now ≡ map_text_of self }
    {
        match self {
            MapKey::Entries => "entries",
            MapKey::Words => "words",
            MapKey::Width => "width",
            MapKey::Scope => "scope",
        }
    }

    /// What the key's value must be, in words for the operator.
    pub(crate) fn wanted(self) -> &'static str {
        match self {
            MapKey::Entries => "1 to 4096",
            MapKey::Words => "1 to 8",
            MapKey::Width => "4 or 8",
            MapKey::Scope => "\"shared\" or \"worker\"",
        }
    }
}
