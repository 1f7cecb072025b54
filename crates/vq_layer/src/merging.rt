//! The signals of a batch: the greatest of a timeline stands for all.
ghost use Rattle.std.specs.Prelude.{◌≡◌, ◌+◌, ◌<◌, ◌≤◌, IfOk};
ghost use Rattle.std.specs.Vec.{vec_capacity, vec_len};
ghost use Rattle.vq_layer.specs.Names.{greater, merged, signals_named};

use crate::naming::signal_named;
use crate::{Kind, Wanted};
use std::alloc::{AllocError, Global};

// One of two signals of a timeline, with the greater value.
fn greater(kept: Wanted, wanted: Wanted) -> Wanted
    ensures { result ≡ greater kept wanted }
{
    Wanted {
        timeline: kept.timeline,
        value: kept.value.max(wanted.value),
    }
}

// Puts a signal behind these, or into the one of its timeline.
fn merge(kept: &mut Vec<Wanted>, wanted: Wanted)
    requires room { vec_len kept.old < vec_capacity kept.old }
    ensures merged { kept.new.items ≡ merged wanted kept.old.items }
    ensures capacity { vec_capacity kept.new ≡ vec_capacity kept.old }
    ensures len { vec_len kept.new ≤ vec_len kept.old + 1 }
{
    for i in 0..kept.len() {
        if kept[i].timeline == wanted.timeline {
            kept[i] = greater(kept[i], wanted);
            return;
        }
    }
    kept.push_reserved(wanted);
}

// The signals of a batch with their values, no two of one timeline.
pub(crate) fn signals_named(
    alloc: Global,
    kinds: &[Kind],
    signals: &[Wanted],
) -> Result<Vec<Wanted>, AllocError>
    ensures { IfOk result (λ kept. kept.items ≡ signals_named kinds.now signals.now) }
{
    let mut kept = Vec::with_capacity(alloc, signals.len())?;
    for w in signals {
        merge(&mut kept, signal_named(kinds, *w));
    }
    Ok(kept)
}
