//! How a board and a locked timeline are called together: a batch is submitted and handed on, its signal gets a point and
//! becomes pending, the device's side runs the batch, and the host finds the value and reads the timeline. Then a thread
//! waits for the signal of a second batch as a future, while another makes it and rings the timeline's bell.
#![tactic(auto)]

ghost use Rattle.std.specs.Prelude.{◌≡◌};
ghost use Rattle.vq_poll.specs.Watching.{IsWatched, plan_at};
ghost use Rattle.vq_timeline_stage.specs.Scenes.{AreIdle, IsScene};
ghost use Rattle.vq_timeline_stage.specs.TwoBatches.{IsOfTwoBatches};

mod calls;
mod waiting;

use calls::{Seen, call};
use std::alloc::AllocGlobal;
use std::io;
use std::process::ExitCode;
use std::random::RandomSource;
use std::sync::Wait;
use std::thread::Threads;
use vq_order::Ordered;
use vq_poll::{Met, WatchedBoard};
use vq_timeline_stage::watched::{
    Actors, Scene, close, planned, scene_of, timeline_of, watched_of,
};
use waiting::wait;

/// What the calls show, and what the wait finds.
fn told_on<R: Threads + Wait + RandomSource + AllocGlobal + Sync>(
    rt: &R,
    watched: WatchedBoard<'_>,
    scene: &Scene,
    actors: Actors,
) -> Option<(Seen, Met)>
    requires watched { IsWatched watched }
    requires plan { IsOfTwoBatches (plan_at watched) }
    requires board { watched.board.now ≡ scene.now.board }
    requires scene { IsScene scene.now }
    requires actors { AreIdle scene.now.board actors }
{
    let mut actors = actors;
    let seen = call(rt, &scene.board, timeline_of(scene), &mut actors)?;
    let met = wait(rt, watched, scene, actors)?;
    Some((seen, met))
}

/// The same on a board of this plan,
fn told_of<R: Threads + Wait + RandomSource + AllocGlobal + Sync>(
    rt: &R,
    ordered: &Ordered,
) -> Option<(Seen, Met)> {
    match scene_of(rt.alloc(), ordered) {
        Some((scene, actors)) => {
            let told = told_on(rt, watched_of(ordered, &scene), &scene, actors);
            close(scene);
            told
        }
        None => None,
    }
}

/// and of the script's plan.
fn told<R: Threads + Wait + RandomSource + AllocGlobal + Sync>(rt: &R) -> Option<(Seen, Met)> {
    match planned(rt.alloc()) {
        Some(ordered) => told_of(rt, &ordered),
        None => None,
    }
}

fn main(rt: HostRuntime) -> io::Result<ExitCode> {
    let Some((seen, met)) = told(&rt) else {
        return Ok(ExitCode::from(2));
    };
    println!(rt; "A is {}", seen.before)?;
    println!(rt; "A gets 2 when point {} is signaled", seen.point)?;
    println!(rt; "A is {}", seen.after)?;
    println!(rt; "the wait for 3 ends, with A at {}", met.value)?;
    Ok(ExitCode::SUCCESS)
}
