//! The actors of a run, before their first turns.
//!
//! Source: this project's own.
ghost use Rattle.std.specs.Prelude.{◌≡◌, IfOk};
ghost use Rattle.std.specs.Arc.{arc_value};
ghost use Rattle.vq_shared_run.specs.Players.{actor_at, actor_of};
ghost use Rattle.vq_shared_run.specs.Shares.{AreShared, IsUnplayedAt, IsUnplayedOn};
ghost use Rattle.vq_shared_run.specs.Stands.{IsAt};

use crate::player::{Player, Playing};
use crate::run::Run;
use crate::stand::Stand;
use std::alloc::{AllocError, Global};
use std::sync::Arc;
use vq_board_run::Crew;
use vq_order::Ordered;

/// An actor that took no turn, with a share of a run, in a box of its own. The error is want of memory.
fn player_of(alloc: Global, run: &Arc<Run>, stand: Stand) -> Result<Box<Player>, AllocError>
    requires at { IsAt (arc_value run.now).board stand }
    requires unplayed { IsUnplayedAt (arc_value run.now).ordered stand }
    ensures run { IfOk result (λ x. IsUnplayedOn (arc_value run.now) x.value) }
    ensures actor { IfOk result (λ x. actor_of x.value ≡ actor_at stand) }
{
    let run = Arc::try_clone(run)?;
    let playing = Playing { run, stand };
    match Box::new(alloc, Player::Playing(playing)) {
        Ok(player) => Ok(player),
        Err(_) => Err(AllocError),
    }
}

/// A run, as its actors share it. The error is want of memory.
fn shared(alloc: Global, run: Run) -> Result<Arc<Run>, AllocError>
    ensures { IfOk result (λ x. arc_value x ≡ run) }
{
    match Arc::new(alloc, run) {
        Ok(run) => Ok(run),
        Err(_) => Err(AllocError),
    }
}

/// All actors of a run of a lawful plan, each with its share: the host, then the submitting threads of the threaded
/// queues, then the rings. It takes all memory of their turns; the error is that there is none.
pub fn share(alloc: Global, ordered: Ordered) -> Result<Vec<Box<Player>>, AllocError>
    ensures { IfOk result (λ players. AreShared ordered players.items) }
{
    let Crew {
        board,
        timelines,
        company,
        lead,
        workers,
    } = Crew::new(alloc, &ordered)?;
    let run = shared(alloc, Run::new(ordered, board, timelines, company))?;
    let mut players = Vec::with_capacity(alloc, workers.len() + 1)?;
    players.push(player_of(alloc, &run, Stand::Host(lead))?)?;
    for room in workers {
        players.push(player_of(alloc, &run, Stand::Worker(room))?)?;
    }
    Ok(players)
}
