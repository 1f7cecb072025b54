//! The actors of a shared run play in threads of their own: each box goes to its thread, and comes back at the end of the
//! actor's program.
use std::alloc::Global;
use std::marker::Sync;
use std::sync::Wait;
use std::thread::{Threads, join};
use vq_board_stage::plans::checked;
use vq_model::plan::Answer;
use vq_shared_run::{Look, Player, Shut, share};
use vq_turns::outcome::Outcome;

/// The host submits, waits and reads, and the ring fills and signals: two actors.
const SCRIPT: &[u8] = b"buffer X 4
timeline A 0
queue P immediate
submit P
fill X 0 4 1
signal A 1
end
host wait all A 1
host read A
";

/// Takes the turns of an actor until nothing of it is left to do.
fn plays_to_its_end<R: Wait>(rt: &R, mut player: Box<Player>) -> Box<Player> {
    for _ in rt.forever() {
        if let Outcome::Ended = player.turn() {
            return player;
        }
    }
    unreachable!()
}

/// Two actors, each in a thread of its own.
fn play_apart<R: Threads + Wait + Sync>(
    rt: &R,
    host: Box<Player>,
    ring: Box<Player>,
) -> (Box<Player>, Box<Player>) {
    join(
        rt,
        move || -> Box<Player> { plays_to_its_end(rt, host) },
        move || -> Box<Player> { plays_to_its_end(rt, ring) },
    )
}

/// The host was told that A came to 1, and closes the board, which has the bytes of the fill.
fn is_played(host: &mut Player) -> bool {
    let is_told = match host.answers() {
        Some([first, last]) => {
            matches!(first.answer, Answer::Reached) && matches!(last.answer, Answer::Value(1))
        }
        _ => false,
    };
    is_told
        && matches!(host.finished(), Look::Finished)
        && matches!(host.close(), Shut::Closed)
        && host.bytes(0) == Some(&[1, 0, 0, 0][..])
}

/// All of that.
fn play<R: Threads + Wait + Sync>(rt: &R, alloc: Global) -> Option<bool> {
    let mut players = share(alloc, checked(alloc, SCRIPT)?).ok()?;
    let ring = players.pop()?;
    let host = players.pop()?;
    let (mut host, ring) = play_apart(rt, host, ring);
    drop(ring);
    Some(players.is_empty() && is_played(&mut host))
}

#[test]
fn actors_play_in_threads_of_their_own(rt: HostRuntime) {
    assert!(rt; play(&rt, rt.alloc()) == Some(true));
}
