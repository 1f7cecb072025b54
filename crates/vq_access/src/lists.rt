//! The calls that ask the lists of a chain's points, which lie under the lock of its timeline, and reads of a chain's
//! payload, which take no lock.
//!
//! Source: this project's own.
ghost use Rattle.std.specs.Prelude.{◌≡◌, ◌<◌, ◌⊎◌, ℕ, Ok, Err, Some, None, IfErr, IfSome, length, true};
ghost use Rattle.vq_access.specs.Posts.{meaning, shows};
ghost use Rattle.vq_access.specs.Asking.{HasGiven, HasTied, take_of, want_by};
ghost use Rattle.vq_access.specs.Timelines.{AreOf, HasAsked, HasAskedOr, collection};
ghost use Rattle.vq_timeline.specs.declared.timeline.LockedTimeline.{LockedTimeline as Timeline};
ghost use Rattle.vq_access.specs.Lasts.{recent_of};
ghost use Rattle.vq_access.specs.LookedBehind.{IsThere, IsUnshown};
ghost use Rattle.vq_board.specs.Named.{plan_of, view};
ghost use Rattle.vq_model.specs.declared.plan.Event.{Event as AnyEvent};
ghost use Rattle.vq_model.specs.Plan.{chain as chain_of_plan, chain_of};
ghost use Rattle.vq_ground.specs.Lists.{has};
ghost use Rattle.vq_timeline.specs.Named.{IsAt, chain_at};
ghost use Rattle.vq_timeline.specs.declared.parts.BindFault.{BindFault as AnyFault};
ghost use Rattle.vq_timeline.specs.declared.parts.Collected.{Collected as AnyCollected};
ghost use Rattle.vq_access_laws.specs.Causes.{is_of_lists};
ghost use Rattle.std.specs.List.{slice_get};
ghost use Rattle.vq_actor.specs.Answers.{AnswersTry, IsBindOf, bound_or};
ghost use Rattle.vq_actor.specs.Collections.{MayCollect, AnswersCollect, MayTake, IsTakeOf, emptied};
ghost use Rattle.vq_actor.specs.Collections.{MayLookPast, AnswersPast};
ghost use Rattle.vq_actor.specs.Meanings.{IsNext};
ghost use Rattle.vq_actor.specs.Wants.{HoldsBackBind};
ghost use Rattle.vq_turns.specs.Turns.{forward, taken};
ghost use Rattle.vq_turns.specs.declared.outcome.Want.{Want as AnyWant};
ghost use Rattle.vq_turns.specs.declared.task.Task.{Task};

use crate::asking::Lists;
use crate::behind::{sees_bound, sees_collected, sees_given};
use crate::last::Last;
use crate::post::Post;
use vq_actor::Step;
use vq_board::Board;
use vq_model::plan::{Event, Op};
use vq_order::Ordered;
use vq_timeline::{BindFault, Collected, LockedTimeline};
use vq_timeline_core::Taken;
use vq_turns::outcome::Want;

/// The event that gives an operation a point.
fn taking(op: u32, taken: Taken) -> Event
    ensures event { IsTakeOf op result }
    ensures named { result ≡ take_of op taken }
{
    match taken {
        Taken::Reused(point) => Event::Take {
            op,
            point,
            fresh: false,
        },
        Taken::Fresh(point) => Event::Take {
            op,
            point,
            fresh: true,
        },
    }
}

/// Why an operation isn't bound, by what its chain's lists answered.
fn held_back(ordered: &Ordered, op: u32, found: Op, fault: BindFault) -> Want
    requires found { slice_get ordered.now.ops op ≡ Some found }
    requires next { (n : ℕ) → fault ≡ AnyFault.NotNext n → n < found.index }
    ensures wants { HoldsBackBind ordered.now op result }
    ensures lists { is_of_lists result ≡ true }
    ensures fault { result ≡ want_by ordered.now found.chain op fault }
{
    let plan = ordered.plan();
    match fault {
        BindFault::NotTaken { .. } => Want::Listed { op },
        BindFault::NotNext { next } => Want::Next {
            op: plan.chain(found.chain)[next as usize],
        },
        BindFault::NotReleased { .. } => Want::Released { job: found.job },
    }
}

/// The timeline of a chain.
pub(crate) fn timeline_at<'t>(
    timelines: &'t [LockedTimeline],
    board: &Board,
    chain: u32,
) -> &'t LockedTimeline
    requires timelines { AreOf board.now timelines.now }
    requires exists { chain < length (plan_of board.now).chains }
    ensures board { IsAt board.now result.now }
    ensures chain { chain_at result.now ≡ chain }
    ensures there { slice_get timelines.now chain ≡ Some result.now }
{
    let _ = board;
    &timelines[chain as usize]
}

/// Collects on a chain, where it is there; nothing where its lists are in use.
fn collected_on<L: Lists>(
    lists: &L,
    board: &Board,
    timelines: &[LockedTimeline],
    chain: u32,
) -> Option<Collected>
    requires { AreOf board.now timelines.now }
    ensures completed { IfSome result (λ r. (e : ℕ) → r ≡ AnyCollected.Completed e →
        has (chain_of_plan (plan_of board.now) chain) e ≡ true) }
    ensures asked { (x : Timeline) → slice_get timelines.now chain ≡ Some x →
        HasAskedOr (L.tries lists.now) (plan_of board.now) x result }
    ensures exists { IfSome result (IsThere (plan_of board.now)) }
{
    match timelines.get(chain as usize) {
        Some(timeline) => lists.collect(timeline, board),
        None => Some(Collected::Nothing),
    }
}

/// The chain of a collection that found nothing, 0 after another call.
fn emptied_chain(last: Last) -> u32
    ensures { result ≡ emptied (recent_of last) }
{
    match last {
        Last::Collected { chain } => chain,
        Last::Other => 0,
        Last::FoundAt { .. } => 0,
    }
}

impl<'a> Post<'a> {
    /// Makes the least pending operation of a chain past, or frees a point of it; nothing where its looks found
    /// nothing to complete or to free, where another is at its lists just now, or where its own look behind what they
    /// did doesn't show it: as after a freeing whose point others have used and signaled since.
    pub(crate) fn collect<L: Lists>(&mut self, lists: &L, chain: u32) -> Option<Event>
        requires { MayCollect (meaning self.old) chain }
        ensures answer { AnswersCollect (meaning self.old) (meaning self.new) chain (shows self.new) result }
        ensures asked { (x : Timeline) → slice_get self.old.timelines.now chain ≡ Some x →
            ((collected : AnyCollected) × (result ≡ collection collected)
            × HasAsked (plan_of self.old.board.now) x collected)
            ⊎ (L.tries lists.now × (result ≡ None))
            ⊎ ((collected : AnyCollected) × HasAsked (plan_of self.old.board.now) x collected
            × IfSome (collection collected) (IsUnshown (view self.new.pass.now)) × (result ≡ None)) }
    {
        self.last = Last::Collected { chain };
        let _lawful = self.ordered.plan();
        let Some(collected) = collected_on(lists, self.board, self.timelines, chain) else {
            return None;
        };
        let Some(event) = sees_collected(self.board, self.pass, collected) else {
            return None;
        };
        self.last = Last::Other;
        Some(event)
    }

    /// Gives an operation a point, where the lists of its chain give it one, and the look behind that shows it.
    pub(crate) fn take<L: Lists>(&mut self, lists: &L, op: u32) -> Step
        requires { MayTake (meaning self.old) op }
        ensures answer { AnswersTry (meaning self.old) (meaning self.new) (forward (meaning self.old).place)
            (λ w. Ok (taken w op (emptied (meaning self.old).recent))) (IsTakeOf op) (shows self.new) result }
        ensures wants { IfErr result (λ want. want ≡ AnyWant.Listed op) }
        ensures asked { (x : Timeline) → slice_get self.old.timelines.now (emptied (meaning self.old).recent) ≡ Some x →
            HasGiven (plan_of self.old.board.now) x op result
            ⊎ (L.tries lists.now × (result ≡ Err (AnyWant.Listed op)))
            ⊎ ((event : AnyEvent) × HasGiven (plan_of self.old.board.now) x op (Ok event)
            × IsUnshown (view self.new.pass.now) event × (result ≡ Err (AnyWant.Listed op))) }
    {
        let chain = emptied_chain(self.last);
        self.last = Last::Other;
        let _lawful = self.ordered.plan();
        let timeline = timeline_at(self.timelines, self.board, chain);
        let Some(answer) = lists.take_for(timeline, self.board, op) else {
            self.refused.keep(Want::Listed { op });
            return Err(Want::Listed { op });
        };
        match answer {
            Ok(taken) => {
                if !sees_given(self.board, self.pass, op, taken) {
                    self.refused.keep(Want::Listed { op });
                    return Err(Want::Listed { op });
                }
                self.seat.forward();
                Ok(taking(op, taken))
            }
            Err(place) => {
                let _ = place;
                self.refused.keep(Want::Listed { op });
                Err(Want::Listed { op })
            }
        }
    }

    /// Binds an operation, where the lists of its chain let it be next and its job is far enough, and the look behind
    /// that shows it bound.
    pub(crate) fn bind<L: Lists>(&mut self, lists: &L, op: u32) -> Step
        requires { IsNext (meaning self.old) (Task.Bind op) }
        ensures answer { AnswersTry (meaning self.old) (meaning self.new) (forward (meaning self.old).place)
            (λ w. bound_or (meaning self.old).plan w op) (IsBindOf op) (shows self.new) result }
        ensures wants { IfErr result (HoldsBackBind (meaning self.old).plan op) }
        ensures asked { (t : ℕ) (x : Timeline) → chain_of (plan_of self.old.board.now) op ≡ Some t →
            slice_get self.old.timelines.now t ≡ Some x → HasTied (plan_of self.old.board.now) x op result
            ⊎ (L.tries lists.now × (result ≡ Err (AnyWant.Listed op)))
            ⊎ ((event : AnyEvent) × HasTied (plan_of self.old.board.now) x op (Ok event)
            × IsUnshown (view self.new.pass.now) event × (result ≡ Err (AnyWant.Listed op))) }
    {
        self.last = Last::Other;
        let _lawful = self.ordered.plan();
        let found = self.board.op(op);
        let timeline = timeline_at(self.timelines, self.board, found.chain);
        let Some(answer) = lists.bind(timeline, self.board, op) else {
            self.refused.keep(Want::Listed { op });
            return Err(Want::Listed { op });
        };
        match answer {
            Ok(point) => {
                if !sees_bound(self.board, self.pass, op, point) {
                    self.refused.keep(Want::Listed { op });
                    return Err(Want::Listed { op });
                }
                self.seat.forward();
                Ok(Event::Bind { op, point })
            }
            Err(fault) => {
                let want = held_back(self.ordered, op, found, fault);
                self.refused.keep(want);
                Err(want)
            }
        }
    }

    /// What the payload of a chain is, as far as the pass knows or its looks show it; it is compared with the value
    /// that is wanted.
    pub(crate) fn past(&mut self, chain: u32, wanted: u64) -> u64
        requires { MayLookPast (meaning self.old) chain wanted }
        ensures { AnswersPast (meaning self.old) (meaning self.new) chain wanted result }
    {
        self.last = Last::Other;
        let _lawful = self.ordered.plan();
        let past = timeline_at(self.timelines, self.board, chain).read(self.board, self.pass);
        self.seat.see(wanted, past);
        past
    }
}
