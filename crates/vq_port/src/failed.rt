ghost use Rattle.std.specs.Prelude.{◌≡◌, ◌≤◌, Some, codes};
ghost use Rattle.vq_port.specs.Faults.{one_more};

use std::error::Error;
use std::fmt;

/// A call of a source or a sink failed, and it counted a fault. This project's rule.
#[derive(Clone, Copy, Debug, PartialEq, Eq)]
pub struct Failed;

impl fmt::Display for Failed {
    ghost output = { λ _. Some (codes "the call failed") };

    fn fmt<W: fmt::Write>(&self, f: &mut fmt::Formatter<W>) -> fmt::Result {
        write!(f, "the call failed")
    }
}

impl Error for Failed {}

// Counts one more fault, and gives it as an error.
pub fn count_fault(faults: &mut u64) -> Failed
    ensures faults { faults.new ≡ one_more faults.old }
    ensures counted { faults.old ≤ faults.new }
{
    *faults = faults.saturating_add(1);
    Failed
}
