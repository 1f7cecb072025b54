//! An actor at a board.
//!
//! Source: this project's own.
ghost use Rattle.std.specs.Prelude.{◌≡◌, All, true};
ghost use Rattle.vq_access.specs.Lasts.{FindsTruly, IsFew, recent_of};
ghost use Rattle.vq_access.specs.Seatings.{places_of};
ghost use Rattle.vq_access.specs.Served.{is_served};
ghost use Rattle.vq_access.specs.Timelines.{AreOf};
ghost use Rattle.vq_access_laws.specs.TruePasses.{AreTrue};
ghost use Rattle.vq_actor.specs.Trackers.{FitsIn};
ghost use Rattle.vq_board.specs.Named.{plan_of, view, IsOf};
ghost use Rattle.vq_turn_laws.specs.TruePlaces.{with_place};
ghost use Rattle.vq_turns.specs.Programs.{program};

use crate::grounds::Grounds;
use crate::last::Last;
use crate::refused::Refused;
use crate::seats::Seats;
use std::snapshot::Snapshot;
use vq_actor::Tracker;
use vq_board::{Board, Pass};
use vq_model::script::ActorName;
use vq_order::Ordered;
use vq_timeline::LockedTimeline;

/// An actor at a board, for one turn: the pass with which it steps, and its place. Its place, and those of the
/// other actors that step with the pass, are true of the pass.
#[derive(Drop)]
pub struct Post<'a> {
    pub(crate) ordered: &'a Ordered,
    pub(crate) board: &'a Board,
    pub(crate) timelines: &'a [LockedTimeline],
    pub(crate) pass: &'a mut Pass,
    pub(crate) seat: &'a mut Tracker,
    pub(crate) refused: &'a mut Refused,
    /// Whose pass it is, and the actor that is served.
    pub(crate) owner: ActorName,
    pub(crate) actor: ActorName,
    /// The places before the turn.
    pub(crate) seats: &'a Snapshot<Seats>,
    pub(crate) last: Last,
    ghost planned: { plan_of board.now ≡ ordered.now },
    ghost of_board: { IsOf board.now pass.now },
    ghost locks: { AreOf board.now timelines.now },
    ghost serves: { is_served ordered.now owner actor ≡ true },
    ghost places: { AreTrue ordered.now owner (view pass.now)
        (with_place (places_of owner seats.now.value) actor seat.now.place) },
    ghost fits: { FitsIn (program ordered.now actor) seat.now },
    ghost few: { All IsFew (program ordered.now actor) },
    ghost finds: { FindsTruly ordered.now actor seat.now.place (recent_of last) },
}

impl<'a> Post<'a> {
    ghost use Rattle.std.specs.Prelude.{◌∷◌};
    ghost use Rattle.vq_access.specs.Pinned.{pins};
    ghost use Rattle.vq_access.specs.Posts.{meaning};
    ghost use Rattle.vq_access_laws.specs.AccessMeanings.{meaning_of};
    ghost use Rattle.vq_actor.specs.Meanings.{Other};
    ghost use Rattle.vq_board.specs.Named.{id_of};

    /// An actor at its place before one turn, with the pass that serves it.
    pub(crate) fn new<L>(
        grounds: &'a Grounds<'a, L>,
        pass: &'a mut Pass,
        seat: &'a mut Tracker,
        refused: &'a mut Refused,
        owner: ActorName,
        seats: &'a Snapshot<Seats>,
        actor: ActorName,
    ) -> Post<'a>
        requires board { IsOf grounds.now.board.now pass.old }
        requires serves { is_served grounds.now.ordered.now owner actor ≡ true }
        requires places { AreTrue grounds.now.ordered.now owner (view pass.old)
            (with_place (places_of owner seats.now.value) actor seat.old.place) }
        requires fits { FitsIn (program grounds.now.ordered.now actor) seat.old }
        requires few { All IsFew (program grounds.now.ordered.now actor) }
        ensures meaning { meaning result ≡ meaning_of
            (pass.entry.ghost_name ∷ seat.entry.ghost_name ∷ refused.entry.ghost_name
            ∷ pins owner seats.now.value (id_of grounds.now.board.now)) grounds.now.ordered.now actor seat.old.place
            Other (view pass.old) refused.old }
        ensures keeps_pass { result.pass.ghost_name ≡ pass.entry.ghost_name }
        ensures keeps_seat { result.seat.ghost_name ≡ seat.entry.ghost_name }
        ensures keeps_refused { result.refused.ghost_name ≡ refused.entry.ghost_name }
        ensures starts { (view result.pass.now ≡ view pass.old) × (result.refused.now ≡ refused.old) }
    {
        Post {
            ordered: grounds.ordered,
            board: grounds.board,
            timelines: grounds.timelines,
            pass,
            seat,
            refused,
            owner,
            actor,
            seats,
            last: Last::Other,
        }
    }

    /// How far the actor is.
    pub(crate) fn place(&self) -> &Tracker
        ensures { result.now ≡ self.now.seat.now }
    {
        self.seat
    }
}
