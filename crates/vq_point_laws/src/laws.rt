//! Laws over events on points, the lists of a timeline and the word of a point. The functions do
//! nothing: their contracts are the laws.
ghost use Rattle.std.specs.Prelude.{List, ◌≡◌, ℕ, true, ◌++◌, IsPermutation, Some};
ghost use Rattle.vq_model.specs.Plan.{Plan};
ghost use Rattle.vq_point_laws.specs.Points.{HistoryFrom, opening_points};
ghost use Rattle.vq_point_laws.specs.HistoryLaws.{PointLaw, PendingLaw};
ghost use Rattle.vq_model.specs.declared.plan.Event.{Event};
ghost use Rattle.vq_model.specs.WellFormed.{IsWellFormed};
ghost use Rattle.vq_point_laws.specs.Timeline.{Timeline, KeepsLists, new_timeline, MayTake, after_take};
ghost use Rattle.vq_ground.specs.Lists.{AreRisingFrom};
ghost use Rattle.vq_point_laws.specs.Timeline.{MayBind, is_next, after_bind, after_complete, MayFree, after_free};
ghost use Rattle.vq_point_laws.specs.Timeline.{all_points, fresh_points};
ghost use Rattle.vq_point_laws.specs.PointWord.{PointWord, IsPointWord, pack, unpack};

/// Every history keeps the point law: no point is used again before its operation is signaled and
/// completed and its last reference given back.
pub fn points_in_turn()
    ensures { (p : Plan) → (events : List Event) → HistoryFrom p (opening_points p) events →
        PointLaw p events }
{}

/// Every history keeps the pending law: a batch is released when its waits have pending signals and
/// its signals have points, and operations are bound in order.
pub fn pending_in_order()
    ensures { (p : Plan) → IsWellFormed p → (events : List Event) →
        HistoryFrom p (opening_points p) events → PendingLaw p events }
{}

/// A new timeline keeps its lists, and so does each call.
pub fn calls_keep_lists()
    ensures opened { (initial : ℕ) → (values : List ℕ) → AreRisingFrom initial values →
        KeepsLists (new_timeline initial values) }
    ensures take { (t : Timeline) → (index fresh : ℕ) → KeepsLists t → MayTake t index fresh →
        KeepsLists (after_take t index fresh) }
    ensures bind { (t : Timeline) → (index point : ℕ) → KeepsLists t → MayBind t index point →
        is_next t index ≡ true → KeepsLists (after_bind t) }
    ensures complete { (t : Timeline) → KeepsLists t → KeepsLists (after_complete t) }
    ensures free { (t : Timeline) → (point : ℕ) → KeepsLists t → MayFree t point →
        KeepsLists (after_free t point) }
{}

/// No call loses a point or puts another in its place: a take adds the fresh point where none is free,
/// and each other call only moves points.
pub fn calls_lose_no_point()
    ensures take { (t : Timeline) → (index fresh : ℕ) → KeepsLists t → MayTake t index fresh →
        IsPermutation (fresh_points t.free fresh ++ all_points t)
        (all_points (after_take t index fresh)) }
    ensures bind { (t : Timeline) → (index point : ℕ) → KeepsLists t → MayBind t index point →
        is_next t index ≡ true → IsPermutation (all_points t) (all_points (after_bind t)) }
    ensures complete { (t : Timeline) → KeepsLists t →
        IsPermutation (all_points t) (all_points (after_complete t)) }
    ensures free { (t : Timeline) → (point : ℕ) → KeepsLists t → MayFree t point →
        IsPermutation (all_points t) (all_points (after_free t point)) }
{}

/// Packing and unpacking the word of a point undo each other.
pub fn point_words_are_exact()
    ensures unpacked { (w : PointWord) → IsPointWord w → unpack (pack w) ≡ Some w }
    ensures packed { (word : ℕ) → (w : PointWord) → unpack word ≡ Some w →
        (pack w ≡ word) × IsPointWord w }
{}
