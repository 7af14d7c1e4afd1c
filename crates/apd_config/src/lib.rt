//! The configuration of an access point, read from TOML.
//!
//! Main call: `read_configuration`. It depends on `toml`, `hex` and `bpf_regions`. It returns a `Configuration` only if
//! the text spells it: the access point's address, the network's name and rates, the shapes of the maps, and the first
//! number drawn. Otherwise it returns a `ConfigFault` that the text has, with the faulty key. `fault_text` says it in
//! words, with its line if found. A configuration's text is read, unless memory runs out.
#![tactic(auto)]

mod configuration;
mod fault;
mod keys;
mod maps;
mod place;
mod reader;
mod tables;
mod values;

pub use configuration::Configuration;
pub use fault::ConfigFault;
pub use keys::{Key, MapKey};
pub use place::fault_text;
pub use reader::read_configuration;
