//! How a run goes on, and how it prints.

use crate::Form;

/// How a run goes on, and how it prints.
#[derive(Clone, Copy)]
pub struct Manner {
    /// Whether a line at fault ends the run after its interval.
    pub strict: bool,
    /// How reports are printed.
    pub form: Form,
}
