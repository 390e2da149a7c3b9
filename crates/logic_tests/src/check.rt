//! What ends a test where a fact does not hold.

ghost use Rattle.std.specs.Prelude.{IsTrue};

use std::fmt::Debug;
use std::process::Abort;

/// Ends the test where a fact does not hold, and says of which case it is.
pub(crate) fn check_case(rt: &impl Abort, holds: bool, case: impl Copy + Debug)
    ensures { IsTrue holds }
{
    assert!(rt; holds, "{case:?}");
}
