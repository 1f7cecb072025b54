//! Laws over histories of events. The functions do nothing: their contracts are the laws.
ghost use Rattle.std.specs.Prelude.{◌≡◌, ◌≤◌, ◌+◌, ◌++◌, ◌∷◌, [], List, length};
ghost use Rattle.vq_model.specs.Plan.{Plan};
ghost use Rattle.vq_model.specs.WellFormed.{IsWellFormed, KeepsHostOrder};
ghost use Rattle.vq_model.specs.declared.plan.Event.{Event};
ghost use Rattle.vq_point_laws.specs.Points.{CanCome, after_event, HistoryFrom, opening_points};
ghost use Rattle.vq_history_laws.specs.Histories.{points_after, acts};
ghost use Rattle.vq_history_laws.specs.KeptFacts.{KeepsFacts};
ghost use Rattle.vq_history_laws.specs.Measure.{measure};

/// What each world of a history keeps of its points, its jobs and its references.
pub fn histories_keep_facts()
    ensures { (p : Plan) → (events : List Event) → HistoryFrom p (opening_points p) events →
        KeepsFacts p (points_after p events) }
{}

/// A history with one event more, that may come, is a history, and leads to what the event leaves.
pub fn histories_go_on()
    ensures history { (p : Plan) → (events : List Event) → HistoryFrom p (opening_points p) events →
        (x : Event) → CanCome p (points_after p events) x →
        HistoryFrom p (opening_points p) (events ++ x ∷ []) }
    ensures world { (p : Plan) → (events : List Event) → (x : Event) →
        points_after p (events ++ x ∷ []) ≡ after_event p (points_after p events) x }
{}

/// Each event of a history does one act of the plan more.
pub fn each_event_is_one_act()
    ensures counted { (p : Plan) → IsWellFormed p → (events : List Event) →
        HistoryFrom p (opening_points p) events → measure p (points_after p events) ≡ length events }
    ensures next { (p : Plan) → IsWellFormed p → (events : List Event) →
        HistoryFrom p (opening_points p) events → (x : Event) → CanCome p (points_after p events) x →
        measure p (after_event p (points_after p events) x)
        ≡ measure p (points_after p events) + 1 }
{}

/// No history is longer than the acts of its plan.
pub fn histories_are_bounded()
    ensures { (p : Plan) → IsWellFormed p → KeepsHostOrder p → (events : List Event) →
        HistoryFrom p (opening_points p) events → length events ≤ acts p }
{}
