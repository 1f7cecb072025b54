//! Tasks that wait for needs: for each of several, or for any of them.
ghost use Rattle.std.specs.Prelude.{◌≡◌, ◌<◌, [], true, false, length, Some, None, MatchBool};
ghost use Rattle.std.specs.List.{slice_get};
ghost use Rattle.vq_turns.specs.declared.task.Task.{Task};
ghost use Rattle.vq_turns.specs.Turns.{held_for};
ghost use Rattle.vq_model.specs.declared.plan.Need.{Need};
ghost use Rattle.vq_actor.specs.Meanings.{IsNext};
ghost use Rattle.vq_actor.specs.Waits.{is_resolved};
ghost use Rattle.vq_actor.specs.Positions.{IsAwaitable};
ghost use Rattle.vq_actor.specs.Doings.{AskedNeed, DidTo};

use crate::access::Access;
use crate::doing::Doing;
use crate::held::Held;
use vq_model::plan::Need;
use vq_model::script::ActorName;
use vq_spec::Plan;
use vq_turns::look::Found;
use vq_turns::needs::Needs;
use vq_turns::outcome::{Outcome, Want};

/// Gives back the first reference, after the waiting. The task is done with the last one.
fn give_back<A: Access>(access: &mut A, actor: ActorName, needs: &Needs) -> Doing
    requires next { IsNext (A.meaning access.old) (Task.AwaitNeeds needs.now) }
    requires actor { actor ≡ (A.meaning access.old).actor }
    requires ended { (A.meaning access.old).place.met ≡ true }
    requires some { (A.meaning access.old).place.holding ≡ [] → ⊥ }
    ensures { DidTo (A.meaning access.old) (A.meaning access.new) (Task.AwaitNeeds needs.now)
        (A.shows access.new) result }
{
    let _ = needs;
    let Some(Held { point, op }) = access.place().first() else {
        unreachable!();
    };
    match access.unrefer(actor, point, op) {
        Ok(event) => Doing::Ends(Outcome::Moved(event)),
        Err(want) => Doing::Ends(Outcome::Blocked(want)),
    }
}

/// Whether a need is looked for: a reference is held for it, or something reaches its value.
fn is_asked(plan: &Plan, need: &Need, held: Option<Held>) -> bool
    requires chain { need.now.chain < length plan.now.chains }
    ensures { MatchBool result (held ≡ None → is_resolved plan.now need.now.chain need.now.value ≡ true)
        ((held ≡ None) × (is_resolved plan.now need.now.chain need.now.value ≡ false)) }
{
    if held.is_some() {
        return true;
    }
    need.value <= plan.initial(need.chain) || plan.resolver(need.chain, need.value).is_some()
}

/// Looks for a need, and takes a reference to the pending point that is found. Where the value is past, what is
/// held is given back.
fn find_need<A: Access>(
    access: &mut A,
    actor: ActorName,
    needs: &Needs,
    k: usize,
) -> Result<Doing, Want>
    requires next { IsNext (A.meaning access.old) (Task.AwaitNeeds needs.now) }
    requires actor { actor ≡ (A.meaning access.old).actor }
    requires index { k < length needs.now }
    requires resolved { (n : Need) → slice_get needs.now k ≡ Some n →
        is_resolved (A.meaning access.old).plan n.chain n.value ≡ true }
    requires without { held_for k (A.meaning access.old).place.holding ≡ None }
    requires waiting { (A.meaning access.old).place.met ≡ false }
    ensures { (n : Need) → slice_get needs.now k ≡ Some n →
        AskedNeed (A.meaning access.old) (A.meaning access.new) k n (A.shows access.new) result }
{
    let need = needs.at(k);
    match access.find(k, need.chain, need.value) {
        Found::Past => {
            if access.place().met() {
                Ok(give_back(access, actor, needs))
            } else {
                Ok(Doing::GoesOn)
            }
        }
        Found::NotYet { op } => Err(Want::Bound { op }),
        Found::Pending { op, point } => match access.refer(actor, point, op) {
            Ok(event) => Ok(Doing::Ends(Outcome::Moved(event))),
            Err(want) => Ok(Doing::Ends(Outcome::Blocked(want))),
        },
    }
}

/// Asks for a need: looks at the reference that is held for it, or looks for it.
fn ask_need<A: Access>(
    access: &mut A,
    actor: ActorName,
    needs: &Needs,
    k: usize,
) -> Result<Doing, Want>
    requires next { IsNext (A.meaning access.old) (Task.AwaitNeeds needs.now) }
    requires actor { actor ≡ (A.meaning access.old).actor }
    requires index { k < length needs.now }
    requires resolved { (n : Need) → slice_get needs.now k ≡ Some n →
        held_for k (A.meaning access.old).place.holding ≡ None →
        is_resolved (A.meaning access.old).plan n.chain n.value ≡ true }
    requires waiting { (A.meaning access.old).place.met ≡ false }
    ensures { (n : Need) → slice_get needs.now k ≡ Some n →
        AskedNeed (A.meaning access.old) (A.meaning access.new) k n (A.shows access.new) result }
{
    let Some(reference) = access.place().held(k) else {
        return find_need(access, actor, needs, k);
    };
    match access.look(actor, reference.point, reference.op) {
        Ok(event) => Ok(Doing::Ends(Outcome::Moved(event))),
        Err(want) => Err(want),
    }
}

/// Asks for each need in order, until one is met or makes an event. Else the last one that was asked for
/// blocks the turn.
fn seek<A: Access>(access: &mut A, actor: ActorName, needs: &Needs) -> Doing
    requires next { IsNext (A.meaning access.old) (Task.AwaitNeeds needs.now) }
    requires actor { actor ≡ (A.meaning access.old).actor }
    requires awaitable { IsAwaitable (A.meaning access.old).plan needs.now }
    requires waiting { (A.meaning access.old).place.met ≡ false }
    ensures { DidTo (A.meaning access.old) (A.meaning access.new) (Task.AwaitNeeds needs.now)
        (A.shows access.new) result }
{
    let mut last = None;
    for k in 0..needs.len() {
        let held = access.place().held(k);
        if !is_asked(access.ordered().plan(), &needs.at(k), held) {
            continue;
        }
        match ask_need(access, actor, needs, k) {
            Ok(doing) => return doing,
            Err(want) => last = Some(want),
        }
    }
    let Some(want) = last else {
        unreachable!();
    };
    Doing::Ends(Outcome::Blocked(want))
}

/// Goes on once one of these needs is met, and the references that were taken for them are given back.
pub(crate) fn await_needs<A: Access>(access: &mut A, actor: ActorName, needs: &Needs) -> Doing
    requires next { IsNext (A.meaning access.old) (Task.AwaitNeeds needs.now) }
    requires actor { actor ≡ (A.meaning access.old).actor }
    requires awaitable { IsAwaitable (A.meaning access.old).plan needs.now }
    ensures { DidTo (A.meaning access.old) (A.meaning access.new) (Task.AwaitNeeds needs.now)
        (A.shows access.new) result }
{
    if access.place().met() {
        give_back(access, actor, needs)
    } else {
        seek(access, actor, needs)
    }
}
