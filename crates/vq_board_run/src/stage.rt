//! A room as a stage of turns.
//!
//! Source: this project's own.
ghost use Rattle.std.specs.Prelude.{◌≡◌, ◌≤◌, length};
ghost use Rattle.vq_access.specs.Grounding.{plan_at, board_at};
ghost use Rattle.vq_board_run.specs.Rooming.{IsRoomOf, IsRoomTurn, ShowsBlocked, TellsBy, view_of};
ghost use Rattle.vq_actor.specs.Companies.{IsCompanyOf};
ghost use Rattle.vq_board.specs.Named.{id_of};
ghost use Rattle.vq_model.specs.Outputs.{asking};
ghost use Rattle.vq_model.specs.ValidScripts.{IsActor};

use crate::content::RoomContent;
use crate::room::AccessRoom;
use std::marker::{Brand, PhantomData};
use vq_access::{Grounds, Lists};
use vq_actor::{Actor, Company, Stage};
use vq_order::Ordered;
use vq_turns::outcome::Outcome;

/// Whose room a stage was made of, and of which board. The call that makes the stage picks it.
pub(crate) trait Lent {
    ghost use Rattle.atomic_table.specs.Seated.{TableId};
    ghost use Rattle.vq_model.specs.declared.script.ActorName.{ActorName};

    ghost owner: { ActorName };

    ghost table: { TableId };
}

impl Lent for Brand {
    ghost use Rattle.std.specs.Prelude.{[]};
    ghost use Rattle.vq_model.specs.declared.script.ActorName.{ActorName};

    ghost owner = { ActorName.Host };

    ghost table = { record { words = 0; slots = 0; views_name = 0; atom = 0; block = 0; offset = 0; slot_names = [] } };
}

/// A room with what its turns go over.
pub struct RoomStage<'a, L, J: Lent> {
    room: AccessRoom,
    grounds: &'a Grounds<'a, L>,
    of: PhantomData<J>,
    ghost board: { IsRoomOf (board_at grounds.now) room },
    ghost same_owner: { room.owner ≡ J.owner },
    ghost same_table: { id_of (board_at grounds.now) ≡ J.table },
}

impl<'a, L: Lists, J: Lent> Stage for RoomStage<'a, L, J> {
    ghost use Rattle.std.specs.Prelude.{true};
    ghost use Rattle.vq_board_run.specs.Rooming.{shown_by, staged};
    ghost use Rattle.vq_access.specs.Served.{is_served};

    ghost staged = { λ x. staged (plan_at x.grounds.now) x.room };

    ghost has = { λ x a. is_served (plan_at x.grounds.now) x.room.owner a ≡ true };

    ghost shows = { λ x. shown_by x.room };

    fn ordered(&self) -> &Ordered {
        self.grounds.ordered()
    }

    fn turn(&mut self, actor: &Actor) -> Outcome {
        self.room.turn(self.grounds, actor)
    }
}

/// One turn over a stage that is made for it.
fn turn_named<J: Lent, L: Lists>(
    room: AccessRoom,
    grounds: &Grounds<L>,
    company: &Company,
) -> (AccessRoom, Outcome)
    requires company { IsCompanyOf (plan_at grounds.now) company.now }
    requires board { IsRoomOf (board_at grounds.now) room }
    requires actor { IsActor (plan_at grounds.now).script room.owner }
    requires same_owner { room.owner ≡ J.owner }
    requires same_table { id_of (board_at grounds.now) ≡ J.table }
    ensures board { IsRoomOf (board_at grounds.now) result.0 }
    ensures owner { result.0.owner ≡ room.owner }
    ensures told { TellsBy (view_of room) (view_of result.0) result.1 }
    ensures shown { ShowsBlocked room result.0 result.1 }
    ensures turn { IsRoomTurn (plan_at grounds.now) room result.0 result.1 }
{
    let owner = room.owner();
    let mut stage = RoomStage::<L, J> {
        room,
        grounds,
        of: PhantomData,
    };
    let outcome = company.turn(&mut stage, owner);
    let RoomStage {
        room,
        grounds: _grounds,
        of: _of,
    } = stage;
    (room, outcome)
}

impl AccessRoom {
    /// One turn of the room's own actor: the room after it, with the event that was made, or why none was. The host's
    /// serves the submit actors of deferred queues too. The room shows the event, or the want where nothing could be
    /// done, since the turn's start: by the last steps of its pass, or by its lists' last refusal. All its turns together
    /// answer each host step that asks something once at most. It waits for nothing but the locks of timelines, and for
    /// these where the lists of the grounds wait, and takes no memory.
    pub fn take_turn<L: Lists>(
        self,
        grounds: &Grounds<L>,
        company: &Company,
    ) -> (AccessRoom, Outcome)
        requires company { IsCompanyOf (plan_at grounds.now) company.now }
        requires board { IsRoomOf (board_at grounds.now) self }
        requires actor { IsActor (plan_at grounds.now).script self.owner }
        ensures board { IsRoomOf (board_at grounds.now) result.0 }
        ensures owner { result.0.owner ≡ self.owner }
        ensures told { TellsBy (view_of self) (view_of result.0) result.1 }
        ensures few { length (view_of result.0).told ≤ length (asking (plan_at grounds.now)) }
        ensures shown { ShowsBlocked self result.0 result.1 }
        ensures turn { IsRoomTurn (plan_at grounds.now) self result.0 result.1 }
    {
        let (room, outcome) = turn_named::<Brand, L>(self, grounds, company);
        let content: &RoomContent = &room.content;
        let _ = &content.owner;
        (room, outcome)
    }
}
