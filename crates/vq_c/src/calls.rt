//! What is asked of the object that a handle holds. Where it holds none, there is no answer.
//!
//! Source: this project's own.
ghost use Rattle.std.specs.Prelude.{◌≡◌};
ghost use Rattle.std.specs.List.{slice_get};
ghost use Rattle.vq_c.specs.Answers.{AreRowsTold};
ghost use Rattle.vq_c.specs.Asked.{HasAsked, count_in, line_in};
ghost use Rattle.vq_c.specs.Bytes.{AreRead};
ghost use Rattle.vq_c.specs.Looks.{HasLooked};
ghost use Rattle.vq_c.specs.Objects.{plan_of};
ghost use Rattle.vq_c.specs.Turns.{HasActed, HasPlayed};

use crate::object::Object;
use std::alloc::Global;
use vq_core_run::actor_count;
use vq_face::{AnswerRow, Reply};
use vq_loose::Slot;
use vq_model::plan::Op;
use vq_turns::outcome::Outcome;

/// A turn of the actor that is held.
pub(crate) fn acted(slot: &mut Slot<Object>) -> Option<Result<Outcome, Reply>>
    ensures { HasAsked HasActed slot.old.value slot.new.value result }
{
    if slot.is_empty() {
        return None;
    }
    Some(slot.held().act())
}

/// A turn of the actor with a number.
pub(crate) fn played(slot: &mut Slot<Object>, actor: u32) -> Option<Result<Outcome, Reply>>
    ensures { HasAsked (λ o p a. HasPlayed o p actor a) slot.old.value slot.new.value result }
{
    if slot.is_empty() {
        return None;
    }
    Some(slot.held().play(actor))
}

/// Whether all jobs are finished.
pub(crate) fn looked(slot: &mut Slot<Object>) -> Option<Reply>
    ensures { HasAsked HasLooked slot.old.value slot.new.value result }
{
    if slot.is_empty() {
        return None;
    }
    Some(slot.held().look())
}

/// What crosses of the answers so far.
pub(crate) fn told(slot: &mut Slot<Object>, alloc: Global) -> Option<Result<Vec<AnswerRow>, Reply>>
    ensures { HasAsked (λ o p a. (p ≡ o) × AreRowsTold (λ v. v.items) o a) slot.old.value slot.new.value result }
{
    if slot.is_empty() {
        return None;
    }
    Some(slot.held().answers(alloc))
}

/// A copy of the bytes that the run has left in a buffer.
pub(crate) fn read(
    slot: &mut Slot<Object>,
    alloc: Global,
    buffer: u32,
) -> Option<Result<Vec<u8>, Reply>>
    ensures { HasAsked (λ o p a. AreRead (λ v. v.items) o p buffer a) slot.old.value slot.new.value result }
{
    if slot.is_empty() {
        return None;
    }
    Some(slot.held().read(alloc, buffer))
}

/// How many numbers actors have, 0 where no object is held.
pub(crate) fn counted(slot: &mut Slot<Object>) -> u64
    ensures same { slot.new.value ≡ slot.old.value }
    ensures count { result ≡ count_in slot.old.value }
{
    if slot.is_empty() {
        return 0;
    }
    actor_count(slot.held().ordered())
}

/// The line of a job, 0 where there is none or no object is held.
pub(crate) fn lined(slot: &mut Slot<Object>, job: u32) -> u32
    ensures same { slot.new.value ≡ slot.old.value }
    ensures line { result ≡ line_in slot.old.value job }
{
    if slot.is_empty() {
        return 0;
    }
    slot.held().line_of(job)
}

/// A signal operation.
pub(crate) fn found_op(slot: &mut Slot<Object>, op: u32) -> Option<Option<Op>>
    ensures { HasAsked (λ o p a. (p ≡ o) × (a ≡ slice_get (plan_of o).ops op)) slot.old.value slot.new.value result }
{
    if slot.is_empty() {
        return None;
    }
    Some(slot.held().op(op))
}
