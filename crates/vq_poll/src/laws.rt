//! The law of a stream of arrivals. The function does nothing: its contract is the law.
ghost use Rattle.std.specs.Prelude.{ℕ, ◌≡◌, ◌<◌, ◌==◌, List, None, length, count_by};
ghost use Rattle.std.specs.List.{range_with_len};
ghost use Rattle.vq_model.specs.Plan.{Plan};
ghost use Rattle.vq_poll.specs.declared.pairs.Met.{Met};
ghost use Rattle.vq_poll.specs.declared.pairs.Pair.{Pair};
ghost use Rattle.vq_poll.specs.Arriving.{Comes};

/// The items of a stream of arrivals, collected to its end, have the index of each pair exactly once.
pub fn each_arrives_once()
    ensures { (p : Plan) → (ps : List Pair) → (ms : List Met) →
        Comes p ps (range_with_len 0 (length ps)) ms None → (i : ℕ) → i < length ps →
        count_by (λ m. m.index == i) ms ≡ 1 }
{}
