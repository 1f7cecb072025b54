//! Laws on a shelf while its lock is free. The function does nothing: its contract is the law.
ghost use Rattle.std.specs.Prelude.{◌≡◌, ◌<◌, ◌≤◌, ℕ, Some, true, false, length};
ghost use Rattle.std.specs.List.{slice_get};
ghost use Rattle.vq_model.specs.Plan.{Plan, chain};
ghost use Rattle.vq_ground.specs.Lists.{has};
ghost use Rattle.vq_point_laws.specs.Timeline.{Timeline, all_points};
ghost use Rattle.vq_board_laws.specs.declared.view.View.{View};
ghost use Rattle.vq_timeline_laws.specs.Shelves.{HasPoint, IsKept};

/// The lists of a shelf say what its own pass did. An operation of the chain was bound by the pass exactly
/// where its index is below the number of bound ones, and completed likewise. The pass owns the points of
/// the lists and no others, and each point that an operation has exists.
pub fn lists_are_those_of_the_pass()
    ensures bound { (p : Plan) → (t : ℕ) → (c : Timeline) → (v : View) → IsKept p t c v → (i e : ℕ) →
        slice_get (chain p t) i ≡ Some e → i < c.bound → has v.bound e ≡ true }
    ensures unbound { (p : Plan) → (t : ℕ) → (c : Timeline) → (v : View) → IsKept p t c v → (i e : ℕ) →
        slice_get (chain p t) i ≡ Some e → c.bound ≤ i → has v.bound e ≡ false }
    ensures past { (p : Plan) → (t : ℕ) → (c : Timeline) → (v : View) → IsKept p t c v → (i e : ℕ) →
        slice_get (chain p t) i ≡ Some e → i < c.completed → has v.past e ≡ true }
    ensures pending { (p : Plan) → (t : ℕ) → (c : Timeline) → (v : View) → IsKept p t c v → (i e : ℕ) →
        slice_get (chain p t) i ≡ Some e → c.completed ≤ i → has v.past e ≡ false }
    ensures owned { (p : Plan) → (t : ℕ) → (c : Timeline) → (v : View) → IsKept p t c v → (q : ℕ) →
        has v.owned q ≡ has (all_points c) q }
    ensures exists { (p : Plan) → (t : ℕ) → (c : Timeline) → (v : View) → IsKept p t c v → (i q : ℕ) →
        HasPoint c i q → q < length p.ops }
{}
