//! What ends a test where a fact does not hold.

use std::process::Abort;

/// Ends the test where a fact does not hold, and says of which case it is.
pub fn check(rt: &impl Abort, holds: bool, case: &str) {
    assert!(rt; holds, "{case}");
}
