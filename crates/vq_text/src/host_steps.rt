//! The lines of a canonical text that are steps of the host.
ghost use Rattle.std.specs.Prelude.{◌≡◌, ◌++◌, ◌∷◌, codes, OnOk};
ghost use Rattle.std.specs.List.{flat_map};
ghost use Rattle.std.specs.Fmt.{decimal};
ghost use Rattle.vq_model.specs.Canonical.{pair_words, step_words, line_text};
ghost use Rattle.vq_model.specs.Naming.{semaphore_name};

use crate::batches::semaphore_name;
use crate::words::{push_name_line, push_number, push_number_line, push_word};
use std::alloc::AllocError;
use vq_model::script::{HostStep, Pair, Script};

/// Adds the name of a timeline and a value, each after a space.
fn push_pair(out: &mut Vec<u8>, script: &Script, pair: Pair) -> Result<(), AllocError>
    ensures { OnOk result (out.new.items ≡ out.old.items
        ++ (32 ∷ semaphore_name script.now pair.semaphore ++ 32 ∷ decimal pair.value)) }
{
    push_word(out, semaphore_name(script, pair.semaphore))?;
    push_number(out, pair.value)
}

/// Adds the names and the values of pairs, each after a space.
fn push_pairs(out: &mut Vec<u8>, script: &Script, pairs: &[Pair]) -> Result<(), AllocError>
    ensures { OnOk result (out.new.items ≡ out.old.items
        ++ flat_map (λ p. 32 ∷ semaphore_name script.now p.semaphore ++ 32 ∷ decimal p.value)
        pairs.now) }
{
    for pair in pairs {
        push_pair(out, script, *pair)?;
    }
    Ok(())
}

/// Adds the line of a wait or a poll, for all pairs or for any.
fn push_pairs_line(
    out: &mut Vec<u8>,
    script: &Script,
    word: &[u8],
    which: &[u8],
    pairs: &[Pair],
) -> Result<(), AllocError>
    ensures { OnOk result (out.new.items ≡ out.old.items
        ++ line_text (codes "host" ∷ word.now ∷ which.now
        ∷ flat_map (pair_words script.now) pairs.now)) }
{
    out.extend_from_slice(b"host")?;
    push_word(out, word)?;
    push_word(out, which)?;
    push_pairs(out, script, pairs)?;
    out.push(b'\n')?;
    Ok(())
}

/// Adds the line of a host step.
pub(crate) fn push_step(
    out: &mut Vec<u8>,
    script: &Script,
    step: &HostStep,
) -> Result<(), AllocError>
    ensures { OnOk result (out.new.items ≡ out.old.items
        ++ line_text (codes "host" ∷ step_words script.now step.now)) }
{
    match step {
        HostStep::Signal(pair) => {
            let name = semaphore_name(script, pair.semaphore);
            push_number_line(out, b"host signal", name, pair.value)
        }
        HostStep::WaitAll(pairs) => {
            push_pairs_line(out, script, b"wait", b"all", pairs.as_slice())
        }
        HostStep::WaitAny(pairs) => {
            push_pairs_line(out, script, b"wait", b"any", pairs.as_slice())
        }
        HostStep::PollAll(pairs) => {
            push_pairs_line(out, script, b"poll", b"all", pairs.as_slice())
        }
        HostStep::PollAny(pairs) => {
            push_pairs_line(out, script, b"poll", b"any", pairs.as_slice())
        }
        HostStep::Read(timeline) => {
            push_name_line(out, b"host read", semaphore_name(script, *timeline))
        }
        HostStep::FenceWait(fence) => {
            push_name_line(out, b"host fence wait", semaphore_name(script, *fence))
        }
        HostStep::FencePoll(fence) => {
            push_name_line(out, b"host fence poll", semaphore_name(script, *fence))
        }
        HostStep::FenceReset(fence) => {
            push_name_line(out, b"host fence reset", semaphore_name(script, *fence))
        }
        HostStep::Idle => out.extend_from_slice(b"host idle\n"),
    }
}
