//! Why a text is no script.
ghost use Rattle.std.specs.Prelude.{◌≡◌};

use std::alloc::AllocError;
use vq_model::statement::FaultKind;

/// Why a text is no script: its first line with a fault, counted from 1, and the first kind of that line's faults; or
/// memory ran out.
#[derive(Clone, Copy, Debug, PartialEq, Eq)]
pub enum ScriptFault {
    At { line: u32, kind: FaultKind },
    Memory,
}

impl From<AllocError> for ScriptFault {
    ghost use Rattle.vq_script.specs.declared.fault.ScriptFault.TheVariants.{Memory};

    ghost from_gives = { λ _ e. e ≡ Memory };

    fn from(_: AllocError) -> ScriptFault {
        ScriptFault::Memory
    }
}
