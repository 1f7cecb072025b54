//! What a room for the turns of an actor keeps.
//!
//! Source: this project's own.
ghost use Rattle.std.specs.Prelude.{◌≡◌};
ghost use Rattle.vq_access_laws.specs.TruePasses.{role_of_actor};
ghost use Rattle.vq_board.specs.Named.{view};
ghost use Rattle.vq_board_laws.specs.Roles.{role_number};

use std::marker::Model;
use vq_access::{Refused, Seats};
use vq_board::Pass;
use vq_model::script::ActorName;

/// What a room keeps: its owner's name, the pass, the place of the owner with those of the actors that it serves, and
/// the refusals that it met. All places are true of the pass.
pub struct RoomContent {
    pub(crate) owner: ActorName,
    pub(crate) pass: Pass,
    pub(crate) seats: Seats,
    pub(crate) refused: Refused,
}

impl Drop for RoomContent {
    fn drop(self) {
        let RoomContent {
            owner: _owner,
            pass: _pass,
            seats: _seats,
            refused: _refused,
        } = self;
    }
}

impl Model for RoomContent {
    ghost use Rattle.vq_board_run.specs.Rooming.{IsKept, Room};
    ghost use Rattle.std.specs.Coded.{codes};
    ghost use Rattle.vq_board.specs.contracts.parts.Pass as pass_row;

    ghost Value = { Room };

    ghost coded = { Prim.hlevel (codes, pass_row.the_row.coded) };

    ghost view = { λ a.
        record { owner = a.owner; pass = a.pass; seats = a.seats; refused = a.refused } };

    ghost invariant = { λ a. IsKept a.owner a.pass a.seats };
}

impl RoomContent {
    /// The pass, with all that it knows and has done.
    pub(crate) fn into_pass(self) -> Pass
        ensures pass { result ≡ self.pass }
        ensures role { (view result).role
            ≡ role_number (view result).plan (role_of_actor (view result).plan self.owner) }
    {
        let RoomContent {
            owner: _owner,
            pass,
            seats: _seats,
            refused: _refused,
        } = self;
        pass
    }
}
