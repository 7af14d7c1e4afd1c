//! The settings of an access point, from a configuration.

ghost use Rattle.std.specs.Prelude.{◌≡◌, ◌<◌, ◌≤◌, IfOk};
ghost use Rattle.apd_files.specs.Held.{Holds};
ghost use Rattle.apd_run.specs.NewRuns.{IsConfigurationAt, link_of};

use crate::access::Settings;
use crate::runner::fault::{RunFault, of_configuration, unreadable};
use ap_model::{LinkConfig, Octets};
use apd_config::{Configuration, read_configuration};
use apd_files::{FileKind, Files, read_whole};
use mac_types::Address;
use std::alloc::Global;

/// The bytes of a file, read whole.
pub(crate) fn read<F: Files>(
    alloc: Global,
    path: &str,
    kind: FileKind,
    files: &mut F,
) -> Result<Vec<u8>, RunFault>
    ensures text { IfOk result (λ text. Holds (F.held files.old) path.now text.items) }
    ensures same { F.held files.new ≡ F.held files.old }
{
    match read_whole(alloc, path, kind, files) {
        Ok(bytes) => Ok(bytes),
        Err(why) => Err(unreadable(alloc, path, why)),
    }
}

/// The configuration in a file.
pub(crate) fn configuration<F: Files>(
    alloc: Global,
    path: &str,
    files: &mut F,
) -> Result<Configuration, RunFault>
    ensures same { F.held files.new ≡ F.held files.old }
    ensures read { IfOk result (IsConfigurationAt (F.held files.old) path.now) }
{
    let text = read(alloc, path, FileKind::Configuration, files)?;
    match read_configuration(alloc, text.as_slice()) {
        Ok(configuration) => Ok(configuration),
        Err(fault) => Err(of_configuration(alloc, path, text.as_slice(), fault)),
    }
}

/// The settings of an access point with `workers` workers.
pub(crate) fn settings(configuration: Configuration, workers: u8) -> Settings
    ensures workers { result.workers ≡ workers }
    ensures shapes { result.shapes ≡ configuration.maps }
    ensures link { result.link ≡ link_of configuration }
{
    let Configuration {
        bssid,
        ssid,
        rates,
        draw,
        maps,
    } = configuration;
    let link = LinkConfig::new(Address::new(bssid), Octets::new(ssid), Octets::new(rates));
    match link {
        Some(link) => Settings {
            link,
            shapes: maps,
            draw,
            workers: u32::from(workers),
        },
        None => unreachable!(),
    }
}
