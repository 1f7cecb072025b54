//! The board of two batches that signal the timeline A, with the timeline under its lock and its bell.
ghost use Rattle.std.specs.Prelude.{◌≡◌, ◌<◌, [], ◌∷◌, true, length, IfSome};
ghost use Rattle.vq_board.specs.Named.{plan_of, IsOf};
ghost use Rattle.vq_board_stage.specs.Dealing.{AllFresh, AreNew, IsDealer};
ghost use Rattle.vq_timeline_stage.specs.Locked.{IsFirstAt};
ghost use Rattle.vq_timeline_stage.specs.TwoBatches.{IsOfTwoBatches};
ghost use Rattle.vq_poll.specs.Watching.{AreTimelines, IsWatched, plan_at};
ghost use Rattle.vq_timeline_stage.specs.Scenes.{AreHandedOn, AreIdle, IsScene};

use crate::plans::is_of_two_batches;
use crate::rings::ring;
use crate::submitting::submitter;
use crate::watched_steps::{hand_both_on, run_both, submit_both};
use std::alloc::Global;
use std::sync::Wait;
use vq_board::{Board, Pass, Passes, Role};
use vq_board_stage::passes::{board_of, dealt};
use vq_board_stage::plans::checked;
use vq_order::Ordered;
use vq_poll::{Bell, WatchedBoard};
use vq_timeline::LockedTimeline;

/// Two batches signal A, with 2 and then with 7.
const SCRIPT: &[u8] = b"timeline A 0
queue Q threaded
submit Q
signal A 2
end
submit Q
signal A 7
end
";

/// The board, with the timeline A under its lock and its bell.
#[derive(Drop)]
pub struct Scene {
    pub board: Board,
    pub timelines: Vec<LockedTimeline>,
    pub bells: Vec<Bell>,
}

/// The passes of the host, the submitting thread and the ring.
#[derive(Drop)]
pub struct Actors {
    pub host: Pass,
    pub submitter: Pass,
    pub ring: Pass,
}

/// A list of one timeline.
fn one_of(alloc: Global, timeline: LockedTimeline) -> Option<Vec<LockedTimeline>>
    ensures { IfSome result (λ ts. ts.items ≡ timeline ∷ []) }
{
    let Ok(timelines) = vec![in alloc; timeline] else {
        return None;
    };
    Some(timelines)
}

/// The timeline of the first chain, by the pass of its shelf.
#[tactic(auto, using(crate::proofs::Watchables::timelines_one))]
fn timelines_of(
    alloc: Global,
    ordered: &Ordered,
    board: &Board,
    shelves: &mut Vec<Pass>,
) -> Option<Vec<LockedTimeline>>
    requires plan { IsOfTwoBatches (plan_of board.now) }
    requires same { plan_of board.now ≡ ordered.now }
    requires exists { 0 < length ordered.now.chains }
    requires shelves { AllFresh board.now shelves.old.items }
    ensures { IfSome result (λ ts. AreTimelines board.now ts.items) }
{
    let shelf = dealt(board, shelves, Role::Shelf(0))?;
    let Ok(timeline) = LockedTimeline::new(alloc, ordered, board, 0, shelf) else {
        return None;
    };
    one_of(alloc, timeline)
}

/// A list of one bell.
fn one_bell(alloc: Global, bell: Bell) -> Option<Vec<Bell>>
    ensures { IfSome result (λ bells. bells.items ≡ bell ∷ []) }
{
    let Ok(bells) = vec![in alloc; bell] else {
        return None;
    };
    Some(bells)
}

/// One bell.
#[tactic(auto, using(crate::proofs::Watchables::bells_one))]
fn bells_of(alloc: Global) -> Option<Vec<Bell>>
    ensures { IfSome result (λ bells. length bells.items ≡ 1) }
{
    let Ok(bell) = Bell::new(alloc) else {
        return None;
    };
    one_bell(alloc, bell)
}

/// The timeline and its bell.
fn lent_of(
    alloc: Global,
    ordered: &Ordered,
    board: &Board,
    shelves: &mut Vec<Pass>,
) -> Option<(Vec<LockedTimeline>, Vec<Bell>)>
    requires plan { IsOfTwoBatches (plan_of board.now) }
    requires same { plan_of board.now ≡ ordered.now }
    requires exists { 0 < length ordered.now.chains }
    requires shelves { AllFresh board.now shelves.old.items }
    ensures timelines { IfSome result (λ t. AreTimelines board.now t.0.items) }
    ensures bells { IfSome result (λ t. length t.1.items ≡ 1) }
{
    let bells = bells_of(alloc)?;
    let timelines = timelines_of(alloc, ordered, board, shelves)?;
    Some((timelines, bells))
}

/// The board with both.
fn scene_at(
    alloc: Global,
    ordered: &Ordered,
    board: Board,
    shelves: &mut Vec<Pass>,
) -> Option<Scene>
    requires plan { IsOfTwoBatches (plan_of board) }
    requires same { plan_of board ≡ ordered.now }
    requires shelves { AllFresh board shelves.old.items }
    ensures scene { IfSome result IsScene }
    ensures board { IfSome result (λ s. s.board ≡ board) }
{
    match lent_of(alloc, ordered, &board, shelves) {
        Some((timelines, bells)) => Some(Scene {
            board,
            timelines,
            bells,
        }),
        None => None,
    }
}

/// The passes as they are dealt.
fn actors_of(
    board: &Board,
    host: Pass,
    submits: &mut Vec<Pass>,
    rings: &mut Vec<Pass>,
) -> Option<Actors>
    requires host { IsDealer board.now host }
    requires submits { AllFresh board.now submits.old.items }
    requires rings { AllFresh board.now rings.old.items }
    ensures { IfSome result (AreIdle board.now) }
{
    let submitter = submitter(board, submits)?;
    let ring = ring(board, rings)?;
    Some(Actors {
        host,
        submitter,
        ring,
    })
}

/// The board with its passes.
fn set_up(alloc: Global, ordered: &Ordered, board: Board, passes: Passes) -> Option<(Scene, Actors)>
    requires plan { IsOfTwoBatches (plan_of board) }
    requires same { plan_of board ≡ ordered.now }
    requires passes { AreNew board passes }
    ensures scene { IfSome result (λ t. IsScene t.0) }
    ensures same { IfSome result (λ t. plan_of t.0.board ≡ ordered.now) }
    ensures actors { IfSome result (λ t. AreIdle t.0.board t.1) }
{
    let Passes {
        host,
        mut submits,
        mut rings,
        mut shelves,
    } = passes;
    let actors = actors_of(&board, host, &mut submits, &mut rings)?;
    let scene = scene_at(alloc, ordered, board, &mut shelves)?;
    Some((scene, actors))
}

/// A board of the plan, where that is the script's, with its passes.
pub fn scene_of(alloc: Global, ordered: &Ordered) -> Option<(Scene, Actors)>
    ensures scene { IfSome result (λ t. IsScene t.0) }
    ensures same { IfSome result (λ t. plan_of t.0.board ≡ ordered.now) }
    ensures actors { IfSome result (λ t. AreIdle t.0.board t.1) }
{
    if !is_of_two_batches(ordered.plan()) {
        return None;
    }
    let (board, passes) = board_of(alloc, ordered)?;
    set_up(alloc, ordered, board, passes)
}

/// The plan of the script.
pub fn planned(alloc: Global) -> Option<Ordered> {
    checked(alloc, SCRIPT)
}

/// The timeline of the first chain.
#[tactic(auto, using(crate::proofs::Watchables::some_timelines, crate::proofs::Watchables::first_at, crate::proofs::Watchables::first_is))]
pub fn timeline_of(scene: &Scene) -> &LockedTimeline
    requires { IsScene scene.now }
    ensures { IsFirstAt scene.now.board result.now }
{
    &scene.timelines[0]
}

/// Its bell.
pub fn bell_of(scene: &Scene) -> &Bell
    requires { IsScene scene.now }
{
    &scene.bells[0]
}

/// Submits both batches and hands them on, and binds their signals. It says whether each state was found that is
/// worked out.
pub fn hand_on<R: Wait>(rt: &R, scene: &Scene, actors: &mut Actors) -> bool
    requires scene { IsScene scene.now }
    requires actors { AreIdle scene.now.board actors.old }
    ensures { result ≡ true → AreHandedOn scene.now.board actors.new }
{
    submit_both(&scene.board, &mut actors.host);
    hand_both_on(rt, &scene.board, timeline_of(scene), &mut actors.submitter)
}

/// And then all steps of the ring, with the bell rung after each signal.
pub fn make_all<R: Wait>(rt: &R, scene: &Scene, actors: &mut Actors) -> bool
    requires scene { IsScene scene.now }
    requires actors { AreIdle scene.now.board actors.old }
    ensures { result ≡ true → IsOf scene.now.board actors.new.host }
{
    hand_on(rt, scene, actors) && run_both(&scene.board, bell_of(scene), &mut actors.ring)
}

/// The board of a scene, to be waited on.
#[tactic(auto, using(crate::proofs::Watchables::one_bell_each, crate::proofs::Watchables::plan_kept, crate::proofs::Watchables::timelines_kept))]
pub fn watched_of<'a>(ordered: &Ordered, scene: &'a Scene) -> WatchedBoard<'a>
    requires scene { IsScene scene.now }
    requires same { plan_of scene.now.board ≡ ordered.now }
    ensures watched { IsWatched result }
    ensures plan { IsOfTwoBatches (plan_at result) }
    ensures board { result.board.now ≡ scene.now.board }
{
    let (timelines, bells) = (scene.timelines.as_slice(), scene.bells.as_slice());
    WatchedBoard::new(ordered, &scene.board, timelines, bells)
}

/// The end of a board. Its timelines and bells are dropped here, so that crates above need not prove that anew.
pub fn close(scene: Scene) {
    drop(scene);
}
