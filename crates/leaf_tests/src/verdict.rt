//! What a test rests on, as calls: what is shown where it fails is proved once, and not in each test.

use std::fmt::Debug;
use std::process::Abort;

/// Fails the test where the two differ, and shows both.
pub fn same<T: PartialEq + Debug + Drop>(rt: &impl Abort, told: T, wanted: T) {
    assert_eq!(rt; told, wanted);
}

/// Fails the test where the two differ, and shows both and the case that they belong to.
pub fn same_for<C: Debug, T: PartialEq + Debug + Drop>(
    rt: &impl Abort,
    case: &C,
    told: T,
    wanted: T,
) {
    assert_eq!(rt; told, wanted, "{case:?}");
}

/// Fails the test, and says why.
pub fn fail(rt: &impl Abort, why: &str) {
    assert!(rt; false, "{why}");
}
