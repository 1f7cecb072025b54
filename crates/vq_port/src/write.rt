ghost use Rattle.std.specs.Prelude.{◌≡◌, ◌≤◌, [], length, IsOk, OnOk, OnErr};
ghost use Rattle.vq_port.specs.Faults.{Rose};
ghost use Rattle.vq_port.specs.Writing.{Appends, AppendsPart, StillTells};

use crate::{Failed, Sink};

/// Writes all these bytes, in their order, and takes no memory. `Failed` comes only where the sink
/// counted a fault in this call: a first part of the bytes was then written, and not all of them.
/// This project's rule.
pub fn write_whole<K: Sink>(sink: &mut K, bytes: &[u8]) -> Result<(), Failed>
    ensures whole { OnOk result (Appends bytes.now (K.written sink.old) (K.written sink.new)) }
    ensures tells { OnOk result (StillTells (length bytes.now)
        (K.written sink.old) (K.written sink.new) (K.room sink.old) (K.room sink.new)) }
    ensures part { OnErr result (AppendsPart bytes.now (K.written sink.old) (K.written sink.new)) }
    ensures empty { bytes.now ≡ [] → IsOk result }

    ensures counted { K.faults sink.old ≤ K.faults sink.new }
    ensures failed { OnErr result (Rose (K.faults sink.old) (K.faults sink.new)) }
{
    let mut rest = bytes;
    while !rest.is_empty() {
        let count = sink.write(rest)?;
        rest = &rest[count..];
    }
    Ok(())
}
