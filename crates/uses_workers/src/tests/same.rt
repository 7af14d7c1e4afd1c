//! Assertions as functions: each is proved once, a macro anew in each function that uses it.

use std::fmt::Debug;
use std::process::Abort;

/// Fails if `found` isn't `wanted`.
pub fn same<T: PartialEq + Debug + Copy>(rt: &impl Abort, found: T, wanted: T, what: &str) {
    assert_eq!(rt; found, wanted, "{what}");
}

/// Fails unless `is_so` is true.
pub fn holds(rt: &impl Abort, is_so: bool, what: &str) {
    assert!(rt; is_so, "{what}");
}
