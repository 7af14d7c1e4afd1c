//! Reading files, and decoding their hex digits.
//!
//! Main calls: `Files`, `read_whole`, `read_code` and `read_certificate`. It depends on `hex`. Files are read block by
//! block, and kept only up to the limit of their kind; of code, only as much is kept as decides its verdict. A caller
//! may know files' contents. The contracts then say that results are those contents, and that a refusal names a fault
//! of them. No contract says what the system's own files hold.
mod code;
mod digits;
mod files;

pub use code::{CodeFault, DigitFault, read_certificate, read_code};
pub use files::{FileFault, FileKind, Files, path_of_word, read_whole, shown};
