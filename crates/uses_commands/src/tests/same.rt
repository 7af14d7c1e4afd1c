//! An assertion as a function, which is proved once; a macro is proved again in each function.

use std::fmt::Debug;
use std::process::Abort;

/// Fails if what was found isn't what was wanted.
pub fn same<T: PartialEq + Debug + Copy>(rt: &impl Abort, found: T, wanted: T, what: &str) {
    assert_eq!(rt; found, wanted, "{what}");
}
