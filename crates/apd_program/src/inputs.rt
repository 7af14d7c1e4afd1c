//! Configurations and code from files, and frames from words.

ghost use Rattle.std.specs.Prelude.{◌≡◌, ◌^◌, Ok, [], IfOk, IfErr};
ghost use Rattle.hex.specs.Hex.{decode_of};
ghost use Rattle.apd_files.specs.Held.{Holds, Lacks, HoldsCode, HoldsKept};
ghost use Rattle.apd_words.specs.Asked.{text_of};
ghost use Rattle.apd_program.specs.Setups.{HoldsSetup, Configures, IsLoaded};
ghost use Rattle.apd_program.specs.Faults.{IsMemoryOr, HasBadCode, HasBadDigits, HasBadConfiguration, IsBadConfig, IsBadSource, IsNoFrame};

use crate::fault::{ProgramFault, of_configuration, of_digits, of_file, of_no_code};
use apd_config::read_configuration;
use apd_files::{FileKind, Files, read_certificate, read_code, read_whole};
use apd_words::Source;
use bpf_regions::Shapes;
use std::alloc::Global;

/// The maps and the first draw of a configuration.
#[derive(Drop)]
pub(crate) struct Setup {
    /// The maps' shapes; a map's number is its index.
    pub shapes: Shapes,
    /// The first number drawn.
    pub draw: u64,
}

/// What is read from a source.
#[derive(Drop)]
pub(crate) struct Loaded {
    /// What is kept of the code: as much as decides its verdict.
    pub code: Vec<u8>,
    pub setup: Setup,
}

/// Reads a file of this kind.
pub(crate) fn read<F: Files>(
    alloc: Global,
    path: &str,
    kind: FileKind,
    files: &mut F,
) -> Result<Vec<u8>, ProgramFault>
    ensures there { IfOk result (λ bytes. Holds (F.held files.old) path.now bytes.items) }
    ensures fault { IfErr result (IsMemoryOr (Lacks kind (F.held files.old) path.now)) }
    ensures same { F.held files.new ≡ F.held files.old }
{
    match read_whole(alloc, path, kind, files) {
        Ok(bytes) => Ok(bytes),
        Err(why) => Err(of_file(alloc, path, why)),
    }
}

/// No maps.
fn no_shapes(alloc: Global) -> Shapes
    ensures is { result ≡ [] }
{
    match Shapes::new(Vec::new(alloc)) {
        Some(shapes) => shapes,
        None => unreachable!(),
    }
}

/// Reads the setup of a configuration.
fn configured<F: Files>(alloc: Global, path: &str, files: &mut F) -> Result<Setup, ProgramFault>
    ensures setup { IfOk result (λ setup. HoldsSetup (F.held files.old) path.now setup) }
    ensures fault { IfErr result (IsMemoryOr (HasBadConfiguration (F.held files.old) path.now)) }
    ensures same { F.held files.new ≡ F.held files.old }
{
    let text = read(alloc, path, FileKind::Configuration, files)?;
    match read_configuration(alloc, text.as_slice()) {
        Ok(configuration) => Ok(Setup {
            draw: configuration.draw,
            shapes: configuration.maps,
        }),
        Err(fault) => Err(of_configuration(alloc, path, text.as_slice(), fault)),
    }
}

/// Reads the setup of a configuration. Without one, there are no maps, and 0 is drawn first.
fn setup_of<F: Files>(
    alloc: Global,
    config: Option<&str>,
    files: &mut F,
) -> Result<Setup, ProgramFault>
    ensures setup { IfOk result (Configures (F.held files.old) (text_of config.entry)) }
    ensures fault { IfErr result
        (IsMemoryOr (IsBadConfig (F.held files.old) (text_of config.entry))) }
    ensures same { F.held files.new ≡ F.held files.old }
{
    match config {
        Some(path) => configured(alloc, path, files),
        None => Ok(Setup {
            shapes: no_shapes(alloc),
            draw: 0,
        }),
    }
}

/// Reads code from a file, and keeps as much of it as decides its verdict.
pub(crate) fn code<F: Files>(
    alloc: Global,
    path: &str,
    files: &mut F,
) -> Result<Vec<u8>, ProgramFault>
    ensures code { IfOk result
        (λ code. HoldsKept (2 ^ 17) (F.held files.old) path.now code.items) }
    ensures fault { IfErr result (IsMemoryOr (HasBadCode (F.held files.old) path.now)) }
    ensures same { F.held files.new ≡ F.held files.old }
{
    match read_code(alloc, path, files) {
        Ok(code) => Ok(code),
        Err(fault) => Err(of_no_code(alloc, path, fault)),
    }
}

/// Reads the setup and the code of a source.
pub(crate) fn load<F: Files>(
    alloc: Global,
    source: Source<'_>,
    files: &mut F,
) -> Result<Loaded, ProgramFault>
    ensures loaded { IfOk result (λ loaded. IsLoaded (F.held files.old) source.entry loaded) }
    ensures fault { IfErr result (IsMemoryOr (IsBadSource (F.held files.old) source.entry)) }
    ensures same { F.held files.new ≡ F.held files.old }
{
    let setup = setup_of(alloc, source.config, files)?;
    let code = code(alloc, source.file, files)?;
    Ok(Loaded { code, setup })
}

/// Reads the certificate that a file spells.
pub(crate) fn certificate<F: Files>(
    alloc: Global,
    path: &str,
    files: &mut F,
) -> Result<Vec<u8>, ProgramFault>
    ensures code { IfOk result (λ bytes. HoldsCode (F.held files.old) path.now bytes.items) }
    ensures fault { IfErr result
        (IsMemoryOr (HasBadDigits FileKind.Certificate (F.held files.old) path.now)) }
    ensures same { F.held files.new ≡ F.held files.old }
{
    match read_certificate(alloc, path, files) {
        Ok(bytes) => Ok(bytes),
        Err(fault) => Err(of_no_code(alloc, path, fault)),
    }
}

/// The bytes that a word's hex digits spell.
pub(crate) fn frame(alloc: Global, word: &str) -> Result<Vec<u8>, ProgramFault>
    ensures frame { IfOk result (λ bytes. decode_of word.now ≡ Ok bytes.items) }
    ensures fault { IfErr result (IsMemoryOr (IsNoFrame word.now)) }
{
    match hex::decode(alloc, word) {
        Ok(bytes) => Ok(bytes),
        Err(fault) => Err(of_digits(alloc, "FRAME", fault)),
    }
}
