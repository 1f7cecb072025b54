//! What C calls to get handles, and to give them up.
//!
//! Source: this project's own.
ghost use Rattle.std.specs.Prelude.{◌≡◌, None};
ghost use Rattle.vq_c.specs.Opened.{HasOpened, HasShared, verdict_by};

use crate::handle::Handle;
use crate::opening::{hand_out, opened, planned, shared};
use std::alloc::Global;
use vq_core_run::actor_count;
use vq_face::{Ending, Reply, Verdict, lawful_plan, reply_code, verdict_of};

/// A reply as a verdict.
fn verdict_by(reply: Reply) -> Verdict
    ensures { result ≡ verdict_by reply }
{
    Verdict {
        code: reply_code(reply),
        first: 0,
        second: 0,
    }
}

/// The verdict on a script, and where it is lawful, its plan at `plan`.
#[unsafe(no_mangle)]
pub extern "C" fn vq_plan(alloc: Global, text: &[u8], plan: &mut *mut u8) -> Verdict
    ensures { HasOpened text.now plan.old plan.new result }
{
    match planned(alloc, text) {
        Ok(object) => {
            *plan = Box::into_raw(object) as *mut u8;
            verdict_of(Ending::Lawful)
        }
        Err(ending) => verdict_of(ending),
    }
}

/// The verdict on a script, and where it is lawful, a run of it over one core before its first turn, at `run`. It takes
/// the memory for all turns.
#[unsafe(no_mangle)]
pub extern "C" fn vq_open(alloc: Global, text: &[u8], run: &mut *mut u8) -> Verdict
    ensures { HasOpened text.now run.old run.new result }
{
    match opened(alloc, text) {
        Ok(object) => {
            *run = Box::into_raw(object) as *mut u8;
            verdict_of(Ending::Lawful)
        }
        Err(ending) => verdict_of(ending),
    }
}

/// The verdict on a script, and where it is lawful, the actors of a run of it over a board before their first turns, each
/// at its number: 0 is the host's, and of queue q 2q + 1 its submitting thread's and 2q + 2 its ring's. `needed` is how
/// many numbers there are. It takes the memory for all turns.
#[unsafe(no_mangle)]
pub extern "C" fn vq_share(
    alloc: Global,
    text: &[u8],
    actors: &mut [*mut u8],
    needed: &mut usize,
) -> Verdict
    ensures { HasShared text.now actors.old actors.new needed.old needed.new result }
{
    let ordered = match lawful_plan(alloc, text) {
        Ok(ordered) => ordered,
        Err(ending) => return verdict_of(ending),
    };
    let count = actor_count(&ordered) as usize;
    if actors.len() < count {
        *needed = count;
        return verdict_by(Reply::NoRoom);
    }
    match shared(alloc, ordered) {
        Ok(made) => {
            hand_out(made, actors);
            *needed = count;
            verdict_of(Ending::Lawful)
        }
        Err(_) => verdict_of(Ending::NoMemory),
    }
}

/// Gives up what is held, if something is, wherever its run is. The last share of a board gives back the board's memory.
#[unsafe(no_mangle)]
pub extern "C" fn vq_close(handle: &mut Handle)
    ensures { handle.new.value ≡ None }
{
    drop(handle.slot().take());
}
