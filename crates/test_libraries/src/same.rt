// What tests compare.

use std::fmt::Debug;
use std::process::Abort;

/// Ends the test where what was found is not what was expected, and shows both.
pub(crate) fn same<T: Copy + Debug + PartialEq>(rt: &impl Abort, found: T, expected: T) {
    assert_eq!(rt; found, expected);
}
