//! Laws over the programs of the actors and their places. The functions do nothing: their contracts are
//! the laws.
ghost use Rattle.std.specs.Prelude.{◌≡◌, [], List, Some, None};
ghost use Rattle.std.specs.List.{slice_get};
ghost use Rattle.vq_model.specs.Plan.{Plan};
ghost use Rattle.vq_model.specs.Checks.{IsLawful};
ghost use Rattle.vq_model.specs.LoweredPlans.{IsPlan};
ghost use Rattle.vq_model.specs.declared.plan.Event.{Event};
ghost use Rattle.vq_model.specs.declared.script.ActorName.{ActorName};
ghost use Rattle.vq_point_laws.specs.Points.{PointState, CanCome, after_event, opening_points, HistoryFrom};
ghost use Rattle.vq_turns.specs.declared.task.Task.{Task};
ghost use Rattle.vq_turns.specs.declared.outcome.Outcome.TheVariants.{Blocked, Moved};
ghost use Rattle.vq_turns.specs.declared.outcome.Want.{Want};
ghost use Rattle.vq_turns.specs.Programs.{program};
ghost use Rattle.vq_turns.specs.Turns.{Place, first_place, does, turn_of, world_after};
ghost use Rattle.vq_turns.specs.Turns.{Scene, first_scene, plays, played_from};
ghost use Rattle.vq_turns.specs.Wants.{IsNotSo};
ghost use Rattle.vq_turn_laws.specs.Tasks.{Among, AreApart, IsOf, IsEventOf};
ghost use Rattle.vq_turn_laws.specs.Places.{IsDone};
ghost use Rattle.vq_turn_laws.specs.Orders.{InOrder};
ghost use Rattle.vq_turn_laws.specs.PlanParts.{HasOwnProgram, IsOrderly};
ghost use Rattle.vq_turn_laws.specs.Running.{IsRunnerOf, RunInTurn};
ghost use Rattle.vq_turn_laws.specs.Worlds.{InEachWorld, KeepsMade, KeepsStarts, RefersInTurn, RisesIn};
ghost use Rattle.vq_turn_laws.specs.TruePlaces.{IsTrueFor, IsTrueDid, IsTrueTurn, AreTrueFor, with_place};
ghost use Rattle.vq_turn_laws.specs.Scenes.{IsPlayer, ArePlayers, IsTrueScene, HasPlayed, events_made};

/// Each lawful plan of a script that was read keeps what the laws on programs and places ask of a plan.
pub fn lawful_plans_are_orderly()
    ensures { (p : Plan) → IsPlan p → IsLawful p → IsOrderly p }
{}

/// Each actor's program is in order: what a task asks of the actor's other tasks stands before it, or is
/// left behind it.
pub fn programs_are_in_order()
    ensures { (p : Plan) → IsPlan p → (a : ActorName) → InOrder p a [] (program p a) }
{}

/// Each actor's program runs one job of its lane after another: it starts the job, applies its commands in order,
/// makes its signals in order, answers where the job asks, and finishes it, before it starts the next one.
pub fn programs_run_in_turn()
    ensures { (p : Plan) → IsPlan p → (a : ActorName) →
        RunInTurn p (IsRunnerOf p a) None (program p a) }
{}

/// No two tasks of a program have an event in common, and no two actors' programs have.
pub fn programs_are_apart()
    ensures own { (p : Plan) → IsPlan p → (a : ActorName) → AreApart (program p a) }
    ensures others { (p : Plan) → IsPlan p → (a b : ActorName) → HasOwnProgram p a → HasOwnProgram p b →
        (t u : Task) → Among t (program p a) → Among u (program p b) → (x : Event) →
        IsOf x t → IsOf x u → a ≡ b }
{}

/// What was done stays done, whatever event comes.
pub fn what_is_done_stays_done()
    ensures { (p : Plan) → IsPlan p → IsLawful p → InEachWorld p (λ w. (x : Event) → CanCome p w x →
        (t : Task) → IsDone w t → IsDone (after_event p w x) t) }
{}

/// What each world keeps: signaled operations are bound and past ones signaled; where something was referred
/// to for a job, the jobs before it in its lane are finished; the payloads at the start of a job lie between the
/// initial ones and those now; and a signal that may come raises its payload.
pub fn worlds_keep()
    ensures made { (p : Plan) → IsPlan p → IsLawful p → InEachWorld p KeepsMade }
    ensures in_turn { (p : Plan) → IsPlan p → IsLawful p → InEachWorld p (RefersInTurn p) }
    ensures starts { (p : Plan) → IsPlan p → IsLawful p → InEachWorld p (KeepsStarts p) }
    ensures rises { (p : Plan) → IsPlan p → IsLawful p → InEachWorld p (λ w. (x : Event) →
        CanCome p w x → RisesIn p w x) }
{}

/// At the opening each actor's first place is true.
pub fn first_places_are_true()
    ensures { (p : Plan) → (a : ActorName) → IsTrueFor p (opening_points p) a first_place }
{}

/// Where an actor's place is true, the event of its next task may come, and the place that the actor goes to
/// is true. So it is with a whole turn. A look that finds its thing so leads to a true place without an
/// event.
pub fn turns_keep_places_true()
    ensures task { (p : Plan) → IsPlan p → IsLawful p → InEachWorld p (λ w. (a : ActorName) →
        (x : Place) → IsTrueFor p w a x → (t : Task) → slice_get (program p a) x.done ≡ Some t →
        IsTrueDid p w a (does p w a x t)) }
    ensures turn { (p : Plan) → IsPlan p → IsLawful p → InEachWorld p (λ w. (a : ActorName) →
        (x : Place) → IsTrueFor p w a x →
        IsTrueTurn p w a (turn_of p w a x).outcome (turn_of p w a x).place) }
{}

/// An event of one actor leaves the true places of the others true.
pub fn others_keep_places_true()
    ensures { (p : Plan) → IsPlan p → IsLawful p → InEachWorld p (λ w. (a b : ActorName) →
        HasOwnProgram p a → HasOwnProgram p b → ¬ (a ≡ b) → (x : Place) → IsTrueFor p w a x →
        (e : Event) → CanCome p w e → IsEventOf p b e → IsTrueFor p (after_event p w e) a x) }
{}

/// A turn of one actor leaves the places of all actors true.
pub fn turns_keep_all_places_true()
    ensures { (p : Plan) → IsPlan p → IsLawful p → InEachWorld p (λ w. (places : ActorName → Place) →
        AreTrueFor p w places → (a : ActorName) → HasOwnProgram p a →
        AreTrueFor p (world_after p w (turn_of p w a (places a)).outcome)
        (with_place places a (turn_of p w a (places a)).place)) }
{}

/// A schedule of players begins with true places, each turn keeps all places true, and the events of its turns
/// are a history. The host's turns are those of the deferred queues too.
pub fn schedules_make_histories()
    ensures opening { (p : Plan) → IsTrueScene p (first_scene (opening_points p)) }
    ensures turn { (p : Plan) → IsPlan p → IsLawful p → InEachWorld p (λ w. (s : Scene) → s.world ≡ w →
        IsTrueScene p s → (a : ActorName) → IsPlayer p a →
        HasPlayed p w (plays p s a).0 (plays p s a).1) }
    ensures history { (p : Plan) → IsPlan p → IsLawful p → (turns : List ActorName) →
        ArePlayers p turns → HistoryFrom p (opening_points p)
        (events_made (played_from p (first_scene (opening_points p)) turns)) }
{}

/// A turn is blocked only where the thing that it names isn't so in that world, whatever the plan, the world
/// and the place. So it is with one actor's turn, and with a turn in a scene, where the host serves the
/// deferred queues too.
pub fn blocked_turns_name_what_is_not_so()
    ensures turn { (p : Plan) → (w : PointState) → (a : ActorName) → (x : Place) → (want : Want) →
        (turn_of p w a x).outcome ≡ Blocked want → IsNotSo w want }
    ensures scene { (p : Plan) → (s : Scene) → (a : ActorName) → (want : Want) →
        (plays p s a).0 ≡ Blocked want → IsNotSo s.world want }
{}
