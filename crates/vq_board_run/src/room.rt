//! A room for the turns of an actor at a board.
//!
//! Source: this project's own.
ghost use Rattle.std.specs.Prelude.{◌≡◌};
ghost use Rattle.vq_access_laws.specs.TruePasses.{role_of_actor};
ghost use Rattle.vq_board.specs.Named.{view};
ghost use Rattle.vq_board_laws.specs.Roles.{role_number};

use crate::content::RoomContent;
use std::marker::Model;
use vq_board::Pass;

/// All that the turns of an actor need at a board: its pass, its place with those of the actors that it serves, and the
/// refusals that it met. All places are true of the pass. A turn takes the room and gives it back, so it is a word.
pub struct AccessRoom {
    pub(crate) content: Box<RoomContent>,
}

impl Drop for AccessRoom {
    fn drop(self) {
        let AccessRoom { content: _content } = self;
    }
}

impl Model for AccessRoom {
    ghost use Rattle.vq_board_run.specs.Rooming.{Room};
    ghost use Rattle.std.specs.Coded.{codes};
    ghost use Rattle.vq_board.specs.contracts.parts.Pass as pass_row;

    ghost Value = { Room };

    ghost coded = { Prim.hlevel (codes, pass_row.the_row.coded) };

    ghost view = { λ a. a.content.value };
}

impl AccessRoom {
    /// The pass, with all that it knows and has done. It takes no memory.
    pub fn into_pass(self) -> Pass
        ensures pass { result ≡ self.pass }
        ensures role { (view result).role
            ≡ role_number (view result).plan (role_of_actor (view result).plan self.owner) }
    {
        let AccessRoom { content } = self;
        Box::into_inner(content).into_pass()
    }
}
