//! What a test rests on, as calls: what is shown where it fails is proved once, and not in each test.

use std::fmt::Debug;
use std::process::Abort;

/// Fails the test where the two differ, and shows both.
pub fn same<T: PartialEq + Debug + Drop>(rt: &impl Abort, told: T, wanted: T) {
    assert_eq!(rt; told, wanted);
}

/// Fails the test where something does not hold of a client, and shows its number.
pub fn holds(rt: &impl Abort, is_so: bool, client: u64) {
    assert!(rt; is_so, "client {client}");
}

/// Fails the test, and says why.
pub fn fail(rt: &impl Abort, why: &str) {
    assert!(rt; false, "{why}");
}
