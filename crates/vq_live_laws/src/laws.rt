//! The function does nothing: its contract is the law.
ghost use Rattle.std.specs.Prelude.{ℕ, List};
ghost use Rattle.vq_point_laws.specs.Timeline.{new_timeline};
ghost use Rattle.vq_ground.specs.Lists.{AreRisingFrom};
ghost use Rattle.vq_live.specs.Live.{opened};
ghost use Rattle.vq_live.specs.Runs.{IsRun, after_all};
ghost use Rattle.vq_live_laws.specs.Feeds.{Call, AreCalls, after_calls, fed, Shows};

/// A live timeline that is fed with the calls of a timeline of known values refuses none of them, and
/// shows that timeline's payload, pending operations and free points after each.
pub fn live_timelines_follow_plans()
    ensures run { (initial : ℕ) → (values : List ℕ) → (calls : List Call) → AreRisingFrom initial values →
        AreCalls (new_timeline initial values) calls →
        IsRun (opened initial) (fed (new_timeline initial values) calls) }
    ensures shows { (initial : ℕ) → (values : List ℕ) → (calls : List Call) → AreRisingFrom initial values →
        AreCalls (new_timeline initial values) calls →
        Shows (after_calls (new_timeline initial values) calls)
        (after_all (opened initial) (fed (new_timeline initial values) calls)) }
{}
