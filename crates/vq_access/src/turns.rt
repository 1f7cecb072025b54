//! One turn of an actor at a board.
//!
//! Source: this project's own.
ghost use Rattle.std.specs.Prelude.{◌≡◌, [], All, true};
ghost use Rattle.vq_access.specs.Grounding.{plan_at, board_at};
ghost use Rattle.vq_access.specs.Lasts.{IsFew};
ghost use Rattle.vq_access.specs.Seatings.{places_of};
ghost use Rattle.vq_access.specs.Served.{is_served};
ghost use Rattle.vq_access.specs.Shown.{IsShownBy};
ghost use Rattle.vq_access_laws.specs.AccessMeanings.{meaning_of};
ghost use Rattle.vq_access_laws.specs.TruePasses.{AreTrue};
ghost use Rattle.vq_access.specs.Posts.{meaning, shows};
ghost use Rattle.vq_actor.specs.Actors.{IsServed, IsTurn, acting_of};
ghost use Rattle.vq_actor.specs.Meanings.{Other};
ghost use Rattle.vq_actor.specs.Trackers.{FitsIn};
ghost use Rattle.vq_board.specs.Named.{view, IsOf};
ghost use Rattle.vq_turn_laws.specs.TruePlaces.{with_place};
ghost use Rattle.vq_turns.specs.Programs.{program};
ghost use Rattle.vq_turns.specs.declared.outcome.Outcome.{Outcome as AnyOutcome};

use crate::asking::Lists;
use crate::board_access::BoardAccess;
use crate::grounds::Grounds;
use crate::post::Post;
use crate::refused::Refused;
use crate::seats::Seats;
use std::snapshot::Snapshot;
use vq_actor::{Actor, Tracker};
use vq_board::Pass;
use vq_model::script::ActorName;
use vq_turns::outcome::Outcome;

/// One turn of an actor from its place, by the steps of a pass of the board that serves it. The places, with those
/// that the seats kept before the turn, stay true of the pass, and all that is lent goes on as the turn left it, the
/// refusals met too. What it came to, an event or a want, is shown since the turn's start. It waits for nothing but the
/// locks of timelines, and for these where its lists wait, and takes no memory.
pub fn turn_at<L: Lists>(
    grounds: &Grounds<L>,
    pass: &mut Pass,
    seat: &mut Tracker,
    refused: &mut Refused,
    owner: ActorName,
    seats: Snapshot<Seats>,
    actor: &Actor,
) -> Outcome
    requires own { actor.now ≡ acting_of (plan_at grounds.now) actor.now.name }
    requires board { IsOf (board_at grounds.now) pass.old }
    requires serves { is_served (plan_at grounds.now) owner actor.now.name ≡ true }
    requires places { AreTrue (plan_at grounds.now) owner (view pass.old)
        (with_place (places_of owner seats.value) actor.now.name seat.old.place) }
    requires fits { FitsIn (program (plan_at grounds.now) actor.now.name) seat.old }
    requires few { All IsFew (program (plan_at grounds.now) actor.now.name) }
    ensures board { IsOf (board_at grounds.now) pass.new }
    ensures places { AreTrue (plan_at grounds.now) owner (view pass.new)
        (with_place (places_of owner seats.value) actor.now.name seat.new.place) }
    ensures fits { FitsIn (program (plan_at grounds.now) actor.now.name) seat.new }
    ensures turn { IsTurn
        (meaning_of [] (plan_at grounds.now) actor.now.name seat.old.place Other (view pass.old) refused.old)
        (meaning_of [] (plan_at grounds.now) actor.now.name seat.new.place Other (view pass.new) refused.new)
        (IsShownBy pass.new refused.new) result }
    ensures untouched { result ≡ AnyOutcome.Ended →
        ((view pass.new) ≡ (view pass.old)) × (refused.new ≡ refused.old) }
{
    let mut post = Post::new(grounds, pass, seat, refused, owner, &seats, actor.name());
    turn_over(grounds.lists, &mut post, actor)
}

/// One turn of an actor at a board, which goes on to write through the same references.
fn turn_over<L: Lists>(lists: &L, post: &mut Post, actor: &Actor) -> Outcome
    requires { IsServed actor.now (meaning post.old) }
    ensures turn { IsTurn (meaning post.old) (meaning post.new) (shows post.new) result }
    ensures untouched { result ≡ AnyOutcome.Ended → post.new ≡ post.old }
    ensures keeps_pass { post.new.pass.ghost_name ≡ post.old.pass.ghost_name }
    ensures keeps_seat { post.new.seat.ghost_name ≡ post.old.seat.ghost_name }
    ensures keeps_refused { post.new.refused.ghost_name ≡ post.old.refused.ghost_name }
{
    let mut access = BoardAccess { lists, post };
    turn_through(&mut access, actor)
}

/// One turn over an access, which keeps its reference.
fn turn_through<L: Lists>(access: &mut BoardAccess<L>, actor: &Actor) -> Outcome
    requires { IsServed actor.now (meaning access.old.post.now) }
    ensures turn { IsTurn (meaning access.old.post.now) (meaning access.new.post.now) (shows access.new.post.now)
        result }
    ensures untouched { result ≡ AnyOutcome.Ended → access.new ≡ access.old }
    ensures keeps { access.new.post.ghost_name ≡ access.old.post.ghost_name }
{
    actor.turn(access)
}
