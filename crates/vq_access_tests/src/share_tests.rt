//! The actors of a shared run play in turn to its end, and the last share closes the board. Threads run the same plan.
use std::alloc::Global;
use std::marker::Sync;
use std::sync::Wait;
use std::thread::Threads;
use vq_board_stage::plans::checked;
use vq_model::plan::{Answer, AnswerLine};
use vq_rings::{OpenGate, execute};
use vq_shared_run::{Look, Player, Shut, share};
use vq_turns::outcome::Outcome;

/// A deferred queue fills and signals, a threaded one waits and copies, and the host waits and reads.
const SCRIPT: &[u8] = b"buffer X 4
buffer Y 4
timeline A 0
timeline B 0
queue P deferred
queue Q threaded
submit P
fill X 0 4 1
signal A 1
end
submit Q
wait A 1
copy X 0 Y 0 4
signal B 5
end
host wait all B 5
host read B
";

/// So many rounds are enough.
const ROUNDS: u32 = 1_000;

/// A turn of each actor; true where one moved.
fn has_moved(players: &mut [Box<Player>]) -> bool {
    let mut has_moved = false;
    for k in 0..players.len() {
        if let Outcome::Moved(_) = players[k].turn() {
            has_moved = true;
        }
    }
    has_moved
}

/// Rounds of all actors, until none moves.
fn plays(players: &mut [Box<Player>]) -> bool {
    for _ in 0..ROUNDS {
        if !has_moved(players) {
            return true;
        }
    }
    false
}

/// Workers say nothing of the run's end, and the host can't close the board while they have shares.
fn is_shared(players: &mut [Box<Player>]) -> bool {
    players.len() == 4
        && matches!(players[3].finished(), Look::NotHost)
        && matches!(players[3].close(), Shut::NotHost)
        && players[3].answers().is_none()
        && matches!(players[0].finished(), Look::Finished)
        && matches!(players[0].close(), Shut::Shared)
        && players[0].bytes(0).is_none()
}

/// Whether the run has left these bytes in a buffer.
fn has_left(host: &Player, buffer: u32, bytes: &[u8]) -> bool {
    match host.bytes(buffer) {
        Some(left) => left == bytes,
        None => false,
    }
}

/// The host alone closes it, and tells what is left.
fn is_left(host: &mut Player) -> bool {
    matches!(host.close(), Shut::Closed)
        && has_left(host, 0, &[1, 0, 0, 0])
        && has_left(host, 1, &[1, 0, 0, 0])
        && host.bytes(2).is_none()
        && matches!(host.turn(), Outcome::Ended)
}

/// The answers, worked out by hand.
fn are_answered(answers: &[AnswerLine]) -> bool {
    let (Some(first), Some(last)) = (answers.first(), answers.last()) else {
        return false;
    };
    answers.len() == 2
        && first.line == 16
        && matches!(first.answer, Answer::Reached)
        && last.line == 17
        && matches!(last.answer, Answer::Value(5))
}

/// Whether the host was answered so.
fn has_answered(host: &Player) -> bool {
    match host.answers() {
        Some(answers) => are_answered(answers),
        None => false,
    }
}

/// Whether a run by threads answers the host so.
fn threads_answer<R: Threads + Wait + Sync>(rt: &R, alloc: Global) -> Option<bool> {
    let report = execute(rt, alloc, checked(alloc, SCRIPT)?, &OpenGate).ok()?;
    Some(are_answered(report.answers.as_slice()))
}

/// All of that.
fn play(alloc: Global) -> Option<bool> {
    let mut players = share(alloc, checked(alloc, SCRIPT)?).ok()?;
    let begins = matches!(players.first_mut()?.finished(), Look::Unfinished);
    let is_played = plays(players.as_mut_slice()) && is_shared(players.as_mut_slice());
    players.truncate(1);
    let host = players.first_mut()?;
    Some(begins && is_played && is_left(host) && has_answered(host))
}

#[test]
fn actors_of_a_shared_run_play_to_its_end(rt: HostRuntime) {
    assert!(rt; play(rt.alloc()) == Some(true));
}

#[test]
fn threads_run_a_plan(rt: HostRuntime) {
    assert!(rt; threads_answer(&rt, rt.alloc()) == Some(true));
}
