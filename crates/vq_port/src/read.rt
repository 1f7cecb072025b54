ghost use Rattle.std.specs.Prelude.{◌≡◌, ◌+◌, ◌^◌, ◌<◌, ◌≤◌, [], length, drop, Some, IfOk};
ghost use Rattle.std.specs.Prelude.{OnOk, IfSome, OnSome};
ghost use Rattle.std.specs.Prelude.{IsErrOf};
ghost use Rattle.vq_port.specs.declared.read.ReadFault.TheVariants.{Failed, Memory};
ghost use Rattle.vq_port.specs.Faults.{Rose};
ghost use Rattle.vq_port.specs.Reading.{TakesAtMost};

use crate::{Source, failed};
use std::alloc::{AllocError, Global};
use std::error::Error;
use std::fmt;

/// Why a source was not read whole. This project's rule.
#[derive(Clone, Copy, Debug, PartialEq, Eq)]
pub enum ReadFault {
    /// A read failed, and the source counted a fault.
    Failed,
    /// The source has more bytes than the limit.
    TooLong,
    /// There was no memory for the bytes.
    Memory,
}

impl fmt::Display for ReadFault {
    ghost use Rattle.std.specs.Prelude.{Some};
    ghost use Rattle.vq_port.specs.FaultText.{read_fault_text};

    ghost output = { λ fault. Some (read_fault_text fault) };

    fn fmt<W: fmt::Write>(&self, f: &mut fmt::Formatter<W>) -> fmt::Result {
        match self {
            ReadFault::Failed => write!(f, "a read failed"),
            ReadFault::TooLong => write!(f, "there are more bytes than the limit"),
            ReadFault::Memory => write!(f, "out of memory"),
        }
    }
}

impl Error for ReadFault {}

impl From<failed::Failed> for ReadFault {
    ghost from_gives = { λ _ fault. fault ≡ Failed };

    fn from(_: failed::Failed) -> ReadFault {
        ReadFault::Failed
    }
}

impl From<AllocError> for ReadFault {
    ghost from_gives = { λ _ fault. fault ≡ Memory };

    fn from(_: AllocError) -> ReadFault {
        ReadFault::Memory
    }
}

// The most bytes that are asked for at once.
const PIECE: usize = 65_536;

/// Reads a source to its end, and gives its bytes. It takes at most `limit + 1` bytes, and at least
/// one with each read but the last. This project's rule.
///
/// # Errors
/// `Failed` where a read failed; `TooLong` exactly where `limit + 1` bytes were taken; `Memory` where
/// there is no memory for the bytes.
pub fn read_whole<S: Source>(
    alloc: Global,
    source: &mut S,
    limit: usize,
) -> Result<Vec<u8>, ReadFault>
    requires { limit < 2 ^ 31 }

    ensures at_most { IfOk result (λ bytes. length bytes.items ≤ limit) }
    ensures whole { IfOk result (λ bytes. IfSome (S.left source.old) (λ all. bytes.items ≡ all)) }
    ensures ended { OnOk result (OnSome (S.left source.old) (S.left source.new ≡ Some [])) }

    ensures too_long { IsErrOf result ReadFault.TooLong → IfSome (S.left source.old) (λ all. limit < length all) }
    ensures one_past { IsErrOf result ReadFault.TooLong →
        IfSome (S.left source.old) (λ all. S.left source.new ≡ Some (drop (limit + 1) all)) }

    ensures counted { S.faults source.old ≤ S.faults source.new }
    ensures failed { IsErrOf result ReadFault.Failed → Rose (S.faults source.old) (S.faults source.new) }
    ensures part { IsErrOf result ReadFault.Failed → TakesAtMost limit (S.left source.old) (S.left source.new) }
    ensures memory { IsErrOf result ReadFault.Memory → TakesAtMost limit (S.left source.old) (S.left source.new) }
{
    let mut room = vec![in alloc; 0; PIECE]?;
    let piece = room.as_mut_slice();
    let mut bytes = Vec::new(alloc);
    loop {
        let most = (limit + 1 - bytes.len()).min(PIECE);
        let count = source.read(&mut piece[..most])?;
        if count == 0 {
            return Ok(bytes);
        }
        if limit - bytes.len() < count {
            return Err(ReadFault::TooLong);
        }
        bytes.extend_from_slice(&piece[..count])?;
    }
}
