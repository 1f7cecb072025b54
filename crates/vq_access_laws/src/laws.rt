//! Laws on the places that are true of a pass of the board. The functions do nothing: their contracts are the laws.
ghost use Rattle.std.specs.Prelude.{ℕ, ◌≡◌, ◌<◌, ◌≤◌, List, [], ◌∷◌, Some, None, true, false, length};
ghost use Rattle.std.specs.List.{slice_get, list_all, list_any};
ghost use Rattle.atomic_table.specs.Seated.{TableId};
ghost use Rattle.vq_model.specs.LoweredPlans.{IsPlan};
ghost use Rattle.vq_model.specs.Memory.{Memory};
ghost use Rattle.vq_model.specs.Outputs.{asking};
ghost use Rattle.vq_model.specs.Plan.{Plan, signals_of};
ghost use Rattle.vq_model.specs.declared.plan.Answer.{Answer};
ghost use Rattle.vq_model.specs.declared.plan.Need.{Need};
ghost use Rattle.vq_model.specs.declared.plan.Question.{Question};
ghost use Rattle.vq_model.specs.declared.script.ActorName.{ActorName};
ghost use Rattle.vq_point_laws.specs.PointWord.{parts};
ghost use Rattle.vq_turns.specs.declared.look.Holding.{Holding};
ghost use Rattle.vq_turns.specs.declared.task.Task.{Task};
ghost use Rattle.vq_turns.specs.declared.outcome.Want.{Want};
ghost use Rattle.vq_turns.specs.Programs.{program};
ghost use Rattle.vq_turns.specs.Turns.{Place, first_place, forward, answer_by, held_for, holding_also, seeing};
ghost use Rattle.vq_actor.specs.Answers.{answered};
ghost use Rattle.vq_actor.specs.Waits.{met_at, looked_at, given_back};
ghost use Rattle.vq_board_laws.specs.declared.view.JobState.{JobState};
ghost use Rattle.vq_board_laws.specs.declared.view.OpState.{OpState};
ghost use Rattle.vq_board_laws.specs.declared.view.OwnStep.{OwnStep};
ghost use Rattle.vq_board_laws.specs.declared.view.View.{View};
ghost use Rattle.vq_board_laws.specs.Knowledge.{state_number};
ghost use Rattle.vq_board_laws.specs.May.{MaySubmit, MayRelease, MayStart, MayEnter, MayFinish};
ghost use Rattle.vq_board_laws.specs.MayPoints.{MaySignal, MayRefer};
ghost use Rattle.vq_board_laws.specs.PointSteps.{answers, signals, recalls, sees, refers, unrefers};
ghost use Rattle.vq_board_laws.specs.Points.{reference, Lists};
ghost use Rattle.vq_board_laws.specs.Roles.{role_number};
ghost use Rattle.vq_board_laws.specs.Rule.{fresh};
ghost use Rattle.vq_board_laws.specs.Shows.{MayAnswer};
ghost use Rattle.vq_board_laws.specs.Steps.{looks, submits, releases, starts, finishes};
ghost use Rattle.vq_board_laws.specs.Steps.{takes_turn, enters, gives_turn};
ghost use Rattle.vq_board_laws.specs.Words.{Carries};
ghost use Rattle.vq_access_laws.specs.AccessMeanings.{names_of};
ghost use Rattle.vq_access_laws.specs.Causes.{Refusals, IsShown};
ghost use Rattle.vq_board_laws.specs.Learning.{Grows, Learns};
ghost use Rattle.vq_access_laws.specs.Premises.{Stand, StandsTruly, IsNext};
ghost use Rattle.vq_access_laws.specs.Tests.{knows_taken, saw_value, shows_reached};
ghost use Rattle.vq_access_laws.specs.TruePasses.{AreTrue, Moves, is_for, role_of_actor};

/// The first places are true of a pass that has done nothing: of each role, and of the host's after it was cut.
pub fn first_places_are_true_of_passes()
    ensures { (p : Plan) → (a : ActorName) → (n : ℕ) →
        AreTrue p a (record (fresh p (role_number p (role_of_actor p a))) { given = n }) (λ b. first_place) }
{}

/// Where the places are true of a pass, the pass may make the step of the next task of an actor that it serves. It
/// may release a batch once it knows that each signal of the batch has a point, enter a command once it has the turn
/// over the buffers, and take a reference for a need to a point that it found for it.
pub fn true_places_permit_steps()
    ensures submit { (s : Stand) → StandsTruly s → (j : ℕ) → IsNext s (Task.Submit j) → MaySubmit s.plan s.view j }
    ensures release { (s : Stand) → StandsTruly s → (j : ℕ) → IsNext s (Task.Release j) →
        list_all (knows_taken s.view.known) (signals_of s.plan j) ≡ true → MayRelease s.plan s.view j }
    ensures start { (s : Stand) → StandsTruly s → (j : ℕ) → IsNext s (Task.Start j) → MayStart s.plan s.view j }
    ensures enter { (s : Stand) → StandsTruly s → (j c n : ℕ) → (bytes : Memory) → IsNext s (Task.Apply j c) →
        MayEnter s.plan (takes_turn s.view n bytes) c }
    ensures signal { (s : Stand) → StandsTruly s → (e : ℕ) → IsNext s (Task.Signal e) → MaySignal s.plan s.view e }
    ensures finish { (s : Stand) → StandsTruly s → (j : ℕ) → IsNext s (Task.Finish j) → MayFinish s.plan s.view j }
    ensures answer { (s : Stand) → StandsTruly s → (j : ℕ) → (asks : Question) → IsNext s (Task.Answer j asks) →
        MayAnswer s.plan s.view j (answer_by asks (s.places s.actor).seen) }
    ensures refer { (s : Stand) → StandsTruly s → (ns : List Need) → IsNext s (Task.AwaitNeeds ns) → (k q e : ℕ) →
        is_for s.plan ns (record { need = k; point = q; op = e }) ≡ true →
        held_for k (s.places s.actor).holding ≡ None → MayRefer s.plan s.view }
{}

/// A look of a pass keeps the places true, and so does each step with the place to which the actor goes that made
/// it: of all actors that the pass serves.
pub fn steps_keep_places_true()
    ensures look { (s : Stand) → StandsTruly s → (w : View) → Learns s.view w → AreTrue s.plan s.owner w s.places }
    ensures submit { (s : Stand) → StandsTruly s → (after : ActorName → Place) → (j : ℕ) → IsNext s (Task.Submit j) →
        Moves s.places s.actor (forward (s.places s.actor)) after → AreTrue s.plan s.owner (submits s.view j) after }
    ensures release { (s : Stand) → StandsTruly s → (after : ActorName → Place) → (j : ℕ) → IsNext s (Task.Release j) →
        Moves s.places s.actor (forward (s.places s.actor)) after → AreTrue s.plan s.owner (releases s.view j) after }
    ensures start { (s : Stand) → StandsTruly s → (after : ActorName → Place) → (j : ℕ) → IsNext s (Task.Start j) →
        Moves s.places s.actor (forward (s.places s.actor)) after → AreTrue s.plan s.owner (starts s.view j) after }
    ensures apply { (s : Stand) → StandsTruly s → (after : ActorName → Place) → (j c n m : ℕ) → (bytes more : Memory) →
        IsNext s (Task.Apply j c) → Moves s.places s.actor (forward (s.places s.actor)) after →
        AreTrue s.plan s.owner (gives_turn (enters (takes_turn s.view n bytes) c m more)) after }
    ensures finish { (s : Stand) → StandsTruly s → (after : ActorName → Place) → (j : ℕ) → IsNext s (Task.Finish j) →
        Moves s.places s.actor (forward (s.places s.actor)) after → AreTrue s.plan s.owner (finishes s.view j) after }
    ensures answer { (s : Stand) → StandsTruly s → (after : ActorName → Place) → (j : ℕ) → (asks : Question) →
        (a : Answer) → IsNext s (Task.Answer j asks) → Moves s.places s.actor (answered (s.places s.actor)) after →
        AreTrue s.plan s.owner (answers s.view j a) after }
    ensures take { (s : Stand) → StandsTruly s → (after : ActorName → Place) → (e t : ℕ) → IsNext s (Task.Take e t) →
        Moves s.places s.actor (forward (s.places s.actor)) after → AreTrue s.plan s.owner s.view after }
    ensures bind { (s : Stand) → StandsTruly s → (after : ActorName → Place) → (e : ℕ) → IsNext s (Task.Bind e) →
        Moves s.places s.actor (forward (s.places s.actor)) after → AreTrue s.plan s.owner s.view after }
    ensures signal { (s : Stand) → StandsTruly s → (after : ActorName → Place) → (e q n : ℕ) → (r : OpState) →
        IsNext s (Task.Signal e) → Moves s.places s.actor (forward (s.places s.actor)) after →
        AreTrue s.plan s.owner (signals (recalls s.view e r) e q n) after }
    ensures compare { (s : Stand) → StandsTruly s → (after : ActorName → Place) → (w : View) → (t wanted past : ℕ) →
        IsNext s (Task.Compare t wanted) → Learns s.view w →
        saw_value s.plan w (t, wanted) (record { wanted = wanted; past = past }) ≡ true →
        Moves s.places s.actor (seeing (s.places s.actor) wanted past) after → AreTrue s.plan s.owner w after }
{}

/// Waits keep the places true: where what is waited for was seen; and of a wait for needs, where a need was seen
/// reached, where a reference was taken or given back, and where its point was seen signaled.
pub fn waits_keep_places_true()
    ensures submitted { (s : Stand) → StandsTruly s → (after : ActorName → Place) → (j : ℕ) → (r : JobState) →
        IsNext s (Task.AwaitSubmitted j) → 1 ≤ state_number r →
        Moves s.places s.actor (forward (s.places s.actor)) after → AreTrue s.plan s.owner (looks s.view j r) after }
    ensures released { (s : Stand) → StandsTruly s → (after : ActorName → Place) → (j : ℕ) → (r : JobState) →
        IsNext s (Task.AwaitReleased j) → 2 ≤ state_number r →
        Moves s.places s.actor (forward (s.places s.actor)) after → AreTrue s.plan s.owner (looks s.view j r) after }
    ensures finished { (s : Stand) → StandsTruly s → (after : ActorName → Place) → (j : ℕ) → (r : JobState) →
        IsNext s (Task.AwaitFinished j) → 4 ≤ state_number r →
        Moves s.places s.actor (forward (s.places s.actor)) after → AreTrue s.plan s.owner (looks s.view j r) after }
    ensures bound { (s : Stand) → StandsTruly s → (after : ActorName → Place) → (e : ℕ) → (r : OpState) →
        IsNext s (Task.AwaitBound e) → (r ≡ OpState.Unbound → ⊥) →
        Moves s.places s.actor (forward (s.places s.actor)) after → AreTrue s.plan s.owner (recalls s.view e r) after }
    ensures past { (s : Stand) → StandsTruly s → (after : ActorName → Place) → (ns : List Need) → (w : View) →
        IsNext s (Task.AwaitNeeds ns) → Learns s.view w → (s.places s.actor).met ≡ false →
        list_any (shows_reached s.plan w.known) ns ≡ true →
        Moves s.places s.actor (met_at (s.places s.actor) (s.places s.actor).holding) after →
        AreTrue s.plan s.owner w after }
    ensures refer { (s : Stand) → StandsTruly s → (after : ActorName → Place) → (ns : List Need) → (k q e n : ℕ) →
        IsNext s (Task.AwaitNeeds ns) → is_for s.plan ns (record { need = k; point = q; op = e }) ≡ true →
        held_for k (s.places s.actor).holding ≡ None →
        Moves s.places s.actor (holding_also (s.places s.actor) k e q) after →
        AreTrue s.plan s.owner (refers (sees s.view q n) q e n) after }
    ensures look { (s : Stand) → StandsTruly s → (after : ActorName → Place) → (ns : List Need) → (k q e n : ℕ) →
        IsNext s (Task.AwaitNeeds ns) →
        held_for k (s.places s.actor).holding ≡ Some (record { need = k; point = q; op = e }) → Carries n e →
        (parts n).signaled ≡ true → Moves s.places s.actor (looked_at (s.places s.actor)) after →
        AreTrue s.plan s.owner (sees s.view q n) after }
    ensures unrefer { (s : Stand) → StandsTruly s → (after : ActorName → Place) → (ns : List Need) → (k q e n : ℕ) →
        (rest : List Holding) → IsNext s (Task.AwaitNeeds ns) → (s.places s.actor).met ≡ true →
        (s.places s.actor).holding ≡ record { need = k; point = q; op = e } ∷ rest →
        Moves s.places s.actor (given_back (s.places s.actor) (s.places s.actor).holding) after →
        AreTrue s.plan s.owner (unrefers (sees s.view q n) q e n) after }
{}

/// A pass of which places are true gave each host step that asks something one answer at most, so no more answers than
/// there are such steps.
pub fn passes_tell_few_answers()
    ensures { (s : Stand) → StandsTruly s → length s.view.told ≤ length (asking s.plan) }
{}

/// What is held for a need is a reference of the pass, to a point that may be.
pub fn references_are_the_passes()
    ensures { (s : Stand) → StandsTruly s → (ns : List Need) → (k q e : ℕ) → IsNext s (Task.AwaitNeeds ns) →
        held_for k (s.places s.actor).holding ≡ Some (record { need = k; point = q; op = e }) →
        Lists s.view.refs (reference q e) × (q < length s.plan.ops) }
{}

/// What is shown stays shown while the pass goes on and no lists refuse.
pub fn wants_stay_shown()
    ensures { (steps more : List OwnStep) → (r : Refusals) → (want : Want) → (since : ℕ × ℕ) → Grows steps more →
        IsShown steps r want since → IsShown more r want since }
{}

/// No wait is for more than 16 needs.
pub fn waits_have_few_needs()
    ensures { (p : Plan) → IsPlan p → (a : ActorName) → (n : ℕ) → (ns : List Need) →
        slice_get (program p a) n ≡ Some (Task.AwaitNeeds ns) → length ns ≤ 16 }
{}

/// A table that has the same numbers is the same.
pub fn tables_are_known_by_their_numbers()
    ensures { (y z : TableId) → names_of y ≡ names_of z → y ≡ z }
{}
