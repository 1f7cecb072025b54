//! Why a text isn't compiled.
ghost use Rattle.std.specs.Prelude.{◌≡◌};

use std::alloc::AllocError;
use vq_model::statement::FaultKind;

/// Why a text with blocks is no script: its first line with a fault, counted from 1, and the first kind of that line's
/// faults; or memory ran out.
#[derive(Clone, Copy, Debug, PartialEq, Eq)]
pub enum HostsFault {
    At { line: u32, kind: FaultKind },
    Memory,
}

impl From<AllocError> for HostsFault {
    ghost use Rattle.vq_hosts.specs.declared.fault.HostsFault.TheVariants.{Memory};

    ghost from_gives = { λ _ e. e ≡ Memory };

    fn from(_: AllocError) -> HostsFault {
        HostsFault::Memory
    }
}
