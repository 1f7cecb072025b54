//! One turn of an actor of a shared run.
//!
//! Source: this project's own.
ghost use Rattle.std.specs.Prelude.{◌≡◌};
ghost use Rattle.vq_shared_run.specs.Stands.{IsAt, IsTurnOf};
ghost use Rattle.vq_shared_run.specs.declared.stand.Stand.TheVariants.{Host as HostStand};

use crate::run::Run;
use crate::stand::{Stand, Watch};
use vq_access::{Grounds, Trying};
use vq_board_run::{Lead, host_turn};
use vq_turns::outcome::Outcome;

/// A turn of the host. Where its program has ended, it watches for the end of the run.
fn led(lead: Lead, run: &Run) -> (Stand, Outcome)
    requires { IsAt run.now.board (HostStand lead) }
    ensures at { IsAt run.now.board result.0 }
    ensures turn { IsTurnOf run.now.ordered (HostStand lead) result.0 result.1 }
{
    let trying = Trying;
    let grounds = Grounds::new(&trying, &run.ordered, &run.board, run.timelines.as_slice());
    let Lead { room, mut answers } = lead;
    let (room, outcome) = host_turn(&grounds, &run.company, room, &mut answers);
    match outcome {
        Outcome::Ended => {
            let watch = Watch {
                pass: room.into_pass(),
                answers,
                seen: 0,
            };
            (Stand::Ended(watch), outcome)
        }
        Outcome::Moved(_) | Outcome::Blocked(_) => (Stand::Host(Lead { room, answers }), outcome),
    }
}

/// A turn of an actor.
pub(crate) fn acted(stand: Stand, run: &Run) -> (Stand, Outcome)
    requires { IsAt run.now.board stand }
    ensures at { IsAt run.now.board result.0 }
    ensures turn { IsTurnOf run.now.ordered stand result.0 result.1 }
{
    match stand {
        Stand::Worker(room) => {
            let trying = Trying;
            let grounds = Grounds::new(&trying, &run.ordered, &run.board, run.timelines.as_slice());
            let (room, outcome) = room.take_turn(&grounds, &run.company);
            (Stand::Worker(room), outcome)
        }
        Stand::Host(lead) => led(lead, run),
        Stand::Ended(watch) => (Stand::Ended(watch), Outcome::Ended),
    }
}
