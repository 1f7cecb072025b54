//! Turns of what a handle holds.
//!
//! Source: this project's own.
ghost use Rattle.std.specs.Prelude.{◌≡◌};
ghost use Rattle.vq_c.specs.Objects.{is_closed};
ghost use Rattle.vq_c.specs.Turns.{HasActed, HasPlayed, IsActedBy};

use crate::object::Object;
use vq_face::Reply;
use vq_shared_run::Player;
use vq_turns::outcome::Outcome;

/// Whether the board of an actor is closed.
fn is_closed(player: &Player) -> bool
    ensures { result ≡ is_closed player.now }
{
    match player {
        Player::Playing(_) => false,
        Player::Left(_) => true,
    }
}

/// A turn of an actor, unless its board is closed.
fn acted_by(player: &mut Player) -> Result<Outcome, Reply>
    ensures { IsActedBy player.old player.new result }
{
    if is_closed(player) {
        return Err(Reply::Closed);
    }
    Ok(player.turn())
}

impl Object {
    /// A turn of the actor that is held, or why it had none.
    pub(crate) fn act(&mut self) -> Result<Outcome, Reply>
        ensures { HasActed self.old self.new result }
    {
        match self {
            Object::Actor(player) => acted_by(player),
            Object::Plan(_) | Object::Run(_) => Err(Reply::WrongKind),
        }
    }

    /// A turn of the actor with a number, of the run that is held, or why it had none.
    pub(crate) fn play(&mut self, actor: u32) -> Result<Outcome, Reply>
        ensures { HasPlayed self.old self.new actor result }
    {
        match self {
            Object::Run(drive) => match drive.turn(actor) {
                Some(outcome) => Ok(outcome),
                None => Err(Reply::NoActor),
            },
            Object::Plan(_) | Object::Actor(_) => Err(Reply::WrongKind),
        }
    }
}
