//! Laws on the board's rule, which holds between any two atomic steps, and on the runs that its words
//! show. The functions do nothing: their contracts are the laws.
ghost use Rattle.std.specs.Prelude.{◌≡◌, ◌<◌, ◌≤◌, ◌+◌, ◌-◌, ◌^◌, ℕ, Some, true, false};
ghost use Rattle.std.specs.Prelude.{[], slice_set, sum_by, length};
ghost use mathlib.Core.Option.{some};
ghost use lib.ListN.{get_elem?};
ghost use Rattle.atomic_table.specs.Table.{State};
ghost use Rattle.vq_model.specs.Checks.{IsLawful};
ghost use Rattle.vq_model.specs.HappensBefore.{HappensBefore};
ghost use Rattle.vq_model.specs.LoweredPlans.{IsPlan};
ghost use Rattle.vq_model.specs.Machine.{StartStep, ApplyStep, SignalStep, FinishStep};
ghost use Rattle.vq_model.specs.Plan.{Plan, chain, signals_of, job_of};
ghost use Rattle.vq_ground.specs.Lists.{has};
ghost use Rattle.vq_model.specs.SlowRun.{bytes_after};
ghost use Rattle.vq_point_laws.specs.PointWord.{parts};
ghost use Rattle.vq_board_laws.specs.declared.view.View.{View};
ghost use Rattle.vq_board_laws.specs.declared.view.Fact.{Fact};
ghost use Rattle.vq_board_laws.specs.declared.view.Fact.TheVariants.{BoundTo};
ghost use Rattle.vq_board_laws.specs.declared.view.LoggedBuffers.{LoggedBuffers};
ghost use Rattle.vq_board_laws.specs.declared.view.Role.TheVariants.{Shelf};
ghost use Rattle.vq_board_laws.specs.Roles.{role_number, share_of};
ghost use Rattle.vq_board_laws.specs.Words.{words_of, shown, log_of, made_of, Carries};
ghost use Rattle.vq_board_laws.specs.Words.{turn_word, count_word, job_word, op_word, point_word};
ghost use Rattle.vq_board_laws.specs.Words.{place_word};
ghost use Rattle.vq_board_laws.specs.Knowledge.{Knows, KnowsMade, IsSo};
ghost use Rattle.vq_board_laws.specs.Log.{AtHome};
ghost use Rattle.vq_board_laws.specs.MachineSteps.{IsMachineStep, ShowsTheSame};
ghost use Rattle.vq_board_laws.specs.May.{MaySubmit, MayRelease, MayStart, MayEnter, MayFinish};
ghost use Rattle.vq_board_laws.specs.MayPoints.{MayAssign, MayBind, MaySignal, MayComplete};
ghost use Rattle.vq_board_laws.specs.MayPoints.{MayRetire};
ghost use Rattle.vq_board_laws.specs.Points.{Lists, reference};
ghost use Rattle.vq_board_laws.specs.PointSteps.{carrying_word};
ghost use Rattle.vq_board_laws.specs.References.{refs_to};
ghost use Rattle.vq_board_laws.specs.Reached.{IsReached};
ghost use Rattle.vq_board_laws.specs.Rule.{Kept};
ghost use Rattle.vq_board_laws.specs.RunLaws.{RunLaws};

use vq_run_laws::laws::{made_as_payloads_say, none_after_a_running_job, sure_in_time};

/// In each state of a run what is made is as the payloads say, with what is made with it, and before
/// a job is finished. The steps of the board need this of the plan's runs.
pub fn runs_keep()
    ensures { (p : Plan) → IsPlan p → IsLawful p → RunLaws p }
{
    made_as_payloads_say();
    sure_in_time();
}

/// The words show a state to which a run of the machine leads, whose answers are those that the host
/// told.
pub fn words_show_a_run()
    ensures { (p : Plan) → (s : State LoggedBuffers View) → Kept p s →
        IsReached p (shown p (words_of s.words)) (words_of s.words).job s.views }
{}

/// What a pass knows is so.
pub fn passes_know_what_is()
    ensures { (p : Plan) → (s : State LoggedBuffers View) → Kept p s → (i : ℕ) → (v : View) →
        (f : Fact) → get_elem? s.views i ≡ some v → Knows v.known f → IsSo (words_of s.words) f }
{}

/// Only one pass runs a job, and only one has the turn over the buffers.
pub fn one_pass_runs()
    ensures job { (p : Plan) → (s : State LoggedBuffers View) → Kept p s → (i k j : ℕ) → (v w : View) →
        get_elem? s.views i ≡ some v → get_elem? s.views k ≡ some w → v.runs ≡ Some j →
        w.runs ≡ Some j → i ≡ k }
    ensures turn { (p : Plan) → (s : State LoggedBuffers View) → Kept p s → (i k m n : ℕ) →
        (v w : View) → get_elem? s.views i ≡ some v → get_elem? s.views k ≡ some w →
        v.held ≡ Some m → w.held ≡ Some n → i ≡ k }
{}

/// While the turn is free, the buffers in their slot hold what the commands of the log leave; while a
/// pass has it, what that pass has in hand does.
pub fn buffers_hold_the_log()
    ensures free { (p : Plan) → (s : State LoggedBuffers View) → Kept p s →
        (words_of s.words).turn ≡ 0 → AtHome p (log_of p (words_of s.words)) s.homes }
    ensures held { (p : Plan) → (s : State LoggedBuffers View) → Kept p s → (i n : ℕ) → (v : View) →
        get_elem? s.views i ≡ some v → v.held ≡ Some n →
        v.bytes ≡ bytes_after p (log_of p (words_of s.words)) }
{}

/// While a pass runs a job without signals, as each host step is that asks something, no operation of
/// a job after it is made, and no pass knows one made. So no answer comes of what is after its step.
pub fn no_answer_is_early()
    ensures made { (p : Plan) → (s : State LoggedBuffers View) → Kept p s → (i h j e : ℕ) →
        (v : View) → get_elem? s.views i ≡ some v → v.runs ≡ Some h → signals_of p h ≡ [] →
        HappensBefore p h j → job_of p e ≡ Some j → made_of (words_of s.words) e ≡ false }
    ensures known { (p : Plan) → (s : State LoggedBuffers View) → Kept p s → (i k h j e : ℕ) →
        (v w : View) → get_elem? s.views i ≡ some v → get_elem? s.views k ≡ some w →
        v.runs ≡ Some h → signals_of p h ≡ [] → HappensBefore p h j → job_of p e ≡ Some j →
        ¬ KnowsMade p w.known e }
{
    runs_keep();
    none_after_a_running_job();
}

/// A point serves one operation as long as anyone needs it. Who has a reference to the point finds its
/// operation there, and the word counts the references; an operation is put only on a point that
/// carries none and to which no pass has a reference, and what is taken off is past. Each point that
/// was made is owned by one pass at most.
pub fn points_are_kept_for_references()
    ensures carried { (p : Plan) → (s : State LoggedBuffers View) → Kept p s → (i q e : ℕ) → (v : View) →
        get_elem? s.views i ≡ some v → Lists v.refs (reference q e) →
        Carries ((words_of s.words).point q) e }
    ensures counted { (p : Plan) → (s : State LoggedBuffers View) → Kept p s → (q : ℕ) →
        (parts ((words_of s.words).point q)).refs ≡ sum_by (refs_to q) s.views }
    ensures none_left { (p : Plan) → (s : State LoggedBuffers View) → Kept p s → (i q e : ℕ) →
        (v : View) → get_elem? s.views i ≡ some v →
        (parts ((words_of s.words).point q)).refs ≡ 0 → ¬ Lists v.refs (reference q e) }
    ensures given { (p : Plan) → (s : State LoggedBuffers View) → Kept p s → (i q e f : ℕ) → (v : View) →
        get_elem? s.views i ≡ some v → MayAssign p v q e →
        ¬ Carries ((words_of s.words).point q) f }
    ensures unreferred { (p : Plan) → (s : State LoggedBuffers View) → Kept p s → (i k q e f : ℕ) →
        (v w : View) → get_elem? s.views i ≡ some v → get_elem? s.views k ≡ some w →
        MayAssign p v q e → ¬ Lists w.refs (reference q f) }
    ensures freed { (p : Plan) → (s : State LoggedBuffers View) → Kept p s → (i q e : ℕ) → (v : View) →
        get_elem? s.views i ≡ some v → MayRetire p v q e →
        Carries ((words_of s.words).point q) e × ((words_of s.words).op e ≡ 1) }
    ensures owned { (p : Plan) → (s : State LoggedBuffers View) → Kept p s → (i k q : ℕ) →
        (v w : View) → get_elem? s.views i ≡ some v → get_elem? s.views k ≡ some w →
        has v.owned q ≡ true → has w.owned q ≡ true → i ≡ k }
    ensures below { (p : Plan) → (s : State LoggedBuffers View) → Kept p s → (i q : ℕ) → (v : View) →
        get_elem? s.views i ≡ some v → has v.owned q ≡ true → q < (words_of s.words).count }
    ensures unmade { (p : Plan) → (s : State LoggedBuffers View) → Kept p s → (q : ℕ) →
        (words_of s.words).count ≤ q → (words_of s.words).point q ≡ 0 }
{}

/// The share of a shelf, which is how many points it may make, is the length of its chain.
pub fn shares_are_chains()
    ensures { (p : Plan) → IsPlan p → (t : ℕ) →
        share_of p (role_number p (Shelf t)) ≡ length (chain p t) }
{}

/// A look at a point tells of the operation for which the pass has a reference to it: that is made
/// where the point is signaled, and unmade where it isn't. And what a pass knows made is made.
pub fn looks_tell_of_operations()
    ensures signaled { (p : Plan) → (s : State LoggedBuffers View) → Kept p s → (i q e : ℕ) → (v : View) →
        get_elem? s.views i ≡ some v → Lists v.refs (reference q e) →
        (parts ((words_of s.words).point q)).signaled ≡ true → made_of (words_of s.words) e ≡ true }
    ensures unsignaled { (p : Plan) → (s : State LoggedBuffers View) → Kept p s → (i q e : ℕ) → (v : View) →
        get_elem? s.views i ≡ some v → Lists v.refs (reference q e) →
        (parts ((words_of s.words).point q)).signaled ≡ false →
        made_of (words_of s.words) e ≡ false }
    ensures made { (p : Plan) → (s : State LoggedBuffers View) → Kept p s → (i e : ℕ) → (v : View) →
        get_elem? s.views i ≡ some v → KnowsMade p v.known e → made_of (words_of s.words) e ≡ true }
{
    runs_keep();
}

/// A start, a command, a signal and a finish are steps of the machine: where a pass may make one, the
/// machine may in the state that the words show, and with the one word changed they show what the
/// machine leaves.
pub fn steps_are_the_machines()
    ensures start { (p : Plan) → (s : State LoggedBuffers View) → Kept p s → (i j : ℕ) → (v : View) →
        get_elem? s.views i ≡ some v → MayStart p v j →
        IsMachineStep p s.words (slice_set s.words (job_word j) 3) (StartStep j) }
    ensures enter { (p : Plan) → (s : State LoggedBuffers View) → Kept p s → (i c : ℕ) → (v : View) →
        get_elem? s.views i ≡ some v → (may : MayEnter p v c) →
        IsMachineStep p s.words (slice_set s.words (place_word may.filled) (c + 1)) (ApplyStep c) }
    ensures signal { (p : Plan) → (s : State LoggedBuffers View) → Kept p s → (i e q : ℕ) → (v : View) →
        get_elem? s.views i ≡ some v → MaySignal p v e → Knows v.known (BoundTo e q) →
        IsMachineStep p s.words
        (slice_set s.words (point_word q) ((words_of s.words).point q + 2 ^ 48)) (SignalStep e) }
    ensures finish { (p : Plan) → (s : State LoggedBuffers View) → Kept p s → (i j : ℕ) → (v : View) →
        get_elem? s.views i ≡ some v → MayFinish p v j →
        IsMachineStep p s.words (slice_set s.words (job_word j) 4) (FinishStep j) }
{
    runs_keep();
}

/// The other steps that change a word leave the run where it is: the words show the same before and
/// after. So the run is the same whichever point carries an operation, and whoever has a reference.
pub fn other_steps_show_the_same()
    ensures submit { (p : Plan) → (s : State LoggedBuffers View) → Kept p s → (i j : ℕ) → (v : View) →
        get_elem? s.views i ≡ some v → MaySubmit p v j →
        ShowsTheSame p s.words (slice_set s.words (job_word j) 1) }
    ensures release { (p : Plan) → (s : State LoggedBuffers View) → Kept p s → (i j : ℕ) → (v : View) →
        get_elem? s.views i ≡ some v → MayRelease p v j →
        ShowsTheSame p s.words (slice_set s.words (job_word j) 2) }
    ensures assign { (p : Plan) → (s : State LoggedBuffers View) → Kept p s → (i q e : ℕ) → (v : View) →
        get_elem? s.views i ≡ some v → MayAssign p v q e →
        ShowsTheSame p s.words (slice_set s.words (point_word q) (carrying_word e)) }
    ensures bind { (p : Plan) → (s : State LoggedBuffers View) → Kept p s → (i e q : ℕ) → (v : View) →
        get_elem? s.views i ≡ some v → MayBind p v e q →
        ShowsTheSame p s.words (slice_set s.words (op_word e) (q + 2)) }
    ensures complete { (p : Plan) → (s : State LoggedBuffers View) → Kept p s → (i e : ℕ) → (v : View) →
        get_elem? s.views i ≡ some v → MayComplete p v e →
        ShowsTheSame p s.words (slice_set s.words (op_word e) 1) }
    ensures retire { (p : Plan) → (s : State LoggedBuffers View) → Kept p s → (i q e : ℕ) → (v : View) →
        get_elem? s.views i ≡ some v → MayRetire p v q e →
        ShowsTheSame p s.words (slice_set s.words (point_word q) 0) }
    ensures refer { (p : Plan) → (s : State LoggedBuffers View) → Kept p s → (q e : ℕ) →
        Carries ((words_of s.words).point q) e → ShowsTheSame p s.words
        (slice_set s.words (point_word q) ((words_of s.words).point q + 2 ^ 32)) }
    ensures unrefer { (p : Plan) → (s : State LoggedBuffers View) → Kept p s → (i q e : ℕ) → (v : View) →
        get_elem? s.views i ≡ some v → Lists v.refs (reference q e) → ShowsTheSame p s.words
        (slice_set s.words (point_word q) ((words_of s.words).point q - 2 ^ 32)) }
    ensures count { (p : Plan) → (s : State LoggedBuffers View) → Kept p s → (n : ℕ) →
        ShowsTheSame p s.words (slice_set s.words count_word n) }
    ensures turn { (p : Plan) → (s : State LoggedBuffers View) → Kept p s → (n : ℕ) →
        ShowsTheSame p s.words (slice_set s.words turn_word n) }
{
    runs_keep();
}
