//! The end of a shared run: the last share closes the board.
//!
//! Source: this project's own.
ghost use Rattle.std.specs.Prelude.{◌≡◌, length};
ghost use Rattle.std.specs.Arc.{arc_value};
ghost use Rattle.vq_board.specs.Named.{plan_of};
ghost use Rattle.vq_shared_run.specs.Players.{HasShut, HasShutBy};
ghost use Rattle.vq_shared_run.specs.Stands.{IsWatch};
ghost use Rattle.vq_shared_run.specs.declared.player.Player.TheVariants.{Playing as IsPlaying};

use crate::answers::Shut;
use crate::left::Left;
use crate::looks::watched;
use crate::player::{Player, Playing};
use crate::run::Run;
use crate::stand::{Stand, Watch};
use std::sync::Arc;

/// Closes the board.
fn left_by(run: Run, watch: Watch) -> Left
    requires watch { IsWatch run.board watch }
    requires all { watch.seen ≡ length (plan_of run.board).jobs }
    ensures plan { result.ordered ≡ run.ordered }
    ensures answers { result.answers ≡ watch.answers }
{
    let Run {
        ordered,
        board,
        timelines: _timelines,
        company: _company,
    } = run;
    let Watch {
        pass,
        answers,
        seen: _seen,
    } = watch;
    let closed = board.close(pass);
    Left {
        ordered,
        answers,
        closed,
    }
}

/// Closes the board, where nobody else has a share.
fn shut_by(run: Arc<Run>, watch: Watch) -> (Player, Shut)
    requires watch { IsWatch (arc_value run).board watch }
    requires all { watch.seen ≡ length (plan_of (arc_value run).board).jobs }
    ensures { HasShutBy run watch result.0 result.1 }
{
    match Arc::try_unwrap(run) {
        Ok(run) => (Player::Left(left_by(run, watch)), Shut::Closed),
        Err(run) => {
            let stand = Stand::Ended(watch);
            (Player::Playing(Playing { run, stand }), Shut::Shared)
        }
    }
}

/// Looks for the end of the run, and closes the board there, where nobody else has a share.
fn shut_playing(playing: Playing) -> (Player, Shut)
    ensures { HasShut (IsPlaying playing) result.0 result.1 }
{
    let Playing { run, stand } = playing;
    match stand {
        Stand::Worker(room) => {
            let stand = Stand::Worker(room);
            (Player::Playing(Playing { run, stand }), Shut::NotHost)
        }
        Stand::Host(lead) => {
            let stand = Stand::Host(lead);
            (Player::Playing(Playing { run, stand }), Shut::Unfinished)
        }
        Stand::Ended(watch) => {
            let (watch, is_end) = watched(watch, &run);
            if is_end {
                return shut_by(run, watch);
            }
            let stand = Stand::Ended(watch);
            (Player::Playing(Playing { run, stand }), Shut::Unfinished)
        }
    }
}

/// The same, if the board isn't closed yet.
pub(crate) fn shut(player: Player, _nothing: ()) -> (Player, Shut)
    ensures { HasShut player result.0 result.1 }
{
    match player {
        Player::Playing(playing) => shut_playing(playing),
        Player::Left(left) => (Player::Left(left), Shut::Closed),
    }
}
