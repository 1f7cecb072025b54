//! Laws over whole runs of calls. A run is a list of calls that weren't refused (`specs/Runs`); a refused call changes
//! nothing. The functions do nothing: their contracts are the laws.
ghost use Rattle.std.specs.Prelude.{◌≡◌, ◌⊎◌, ◌++◌, ℕ, List, [], None, Some};
ghost use Rattle.vq_layer.specs.declared.answers.Signal.{Signal};
ghost use Rattle.vq_layer.specs.declared.answers.Wanted.{Wanted};
ghost use Rattle.vq_layer.specs.Layer.{Layer, Batch, no_layer, queue_at};
ghost use Rattle.vq_layer.specs.Waits.{waits_all};
ghost use Rattle.vq_layer.specs.Queues.{next_batch};
ghost use Rattle.vq_layer.specs.Calls.{completed_of, blocked_of, stuck_of};
ghost use Rattle.vq_layer_laws.specs.Runs.{Call, AreCalls, after_calls};
ghost use Rattle.vq_layer_laws.specs.Lived.{HaveLived};
ghost use Rattle.vq_layer_laws.specs.Ledger.{tokens_in, listed, finished};
ghost use Rattle.vq_layer_laws.specs.Referred.{AreReferred, IsUnreferred};
ghost use Rattle.vq_layer_laws.specs.Standing.{AllStood};
ghost use Rattle.vq_layer_laws.specs.Tied.{IsTied};
ghost use Rattle.vq_layer_laws.specs.Stuck.{IsAmong, IsHeldBack, IsStuck, IsMissing, HasRing, Awaits, Brings};

/// Each timeline of a layer is where a run of calls of a live timeline led from an opening: so each law of live timelines
/// holds of it.
pub fn timelines_are_runs()
    ensures { (calls : List Call) → AreCalls no_layer calls → HaveLived (after_calls no_layer calls).timelines }
{}

/// The batches of a queue are finished in the order of their submission: those that are finished, and then those that
/// aren't, are those that were submitted and not taken back. None is lost, and none stands twice.
pub fn batches_stay_in_order()
    ensures { (queue : ℕ) → (calls : List Call) → AreCalls no_layer calls →
        finished queue [] no_layer calls ++ tokens_in queue (after_calls no_layer calls) ≡ listed queue [] calls }
{}

/// What is taken on a timeline and not installed is what the held-back batches signal on it, each as often; no two signals
/// of a batch are of one timeline, and no held-back batch signals what is closed.
pub fn what_is_taken_is_held_back()
    ensures { (calls : List Call) → AreCalls no_layer calls → IsTied (after_calls no_layer calls) }
{}

/// An operation is completed only after its batch is released: while its batch is held back, it isn't the one that a
/// complete would complete.
pub fn completed_after_released()
    ensures { (calls : List Call) → AreCalls no_layer calls → (queue : ℕ) → (b : Batch) → (s : Signal) →
        IsHeldBack (after_calls no_layer calls) queue b → IsAmong s b.signals →
        completed_of (after_calls no_layer calls) s.timeline ≡ Some s.given → ⊥ }
{}

/// Where no queue is ready and a batch is held back, some queue waits for a value that no held-back batch signals, or
/// queues wait for each other in a ring.
pub fn stuck_layers_miss_a_signal_or_wait_in_a_ring()
    ensures { (calls : List Call) → AreCalls no_layer calls → IsStuck (after_calls no_layer calls) → (queue : ℕ) → (b : Batch) →
        IsHeldBack (after_calls no_layer calls) queue b →
        IsMissing (after_calls no_layer calls) ⊎ HasRing (after_calls no_layer calls) }
{}

/// Each reference of a batch that is released and unfinished is counted at its point.
pub fn references_are_counted()
    ensures { (calls : List Call) → AreCalls no_layer calls → AreReferred (after_calls no_layer calls) }
{}

/// No point is given while its operation isn't completed or taken back, or while a batch that is released and unfinished,
/// or the host, refers to it: the point that a take would give next carries nothing, and nobody holds it.
pub fn points_are_given_unreferred()
    ensures { (calls : List Call) → AreCalls no_layer calls → (n : ℕ) → IsUnreferred (after_calls no_layer calls) n }
{}

/// A batch is held back until all that it waits for is past or pending. In its release each wait whose value is past holds
/// nothing, and each other one holds exactly the point of the pending operation that is found for it, the one of least
/// value at or above: no count of references is full there.
pub fn releases_hold_what_is_pending()
    ensures { (calls : List Call) → AreCalls no_layer calls → (queue : ℕ) → blocked_of (after_calls no_layer calls) queue ≡ None →
        AllStood (after_calls no_layer calls).timelines
        (next_batch (queue_at (after_calls no_layer calls).queues queue)).waits
        (waits_all (after_calls no_layer calls).timelines (next_batch (queue_at (after_calls no_layer calls).queues queue)).waits) }
{}

/// What `stuck` names, the queue's first held-back batch waits for, and no held-back batch signals it. And where a queue
/// waits for such a value, `stuck` names one of it.
pub fn stuck_names_what_is_missing()
    ensures names { (l : Layer) → (queue : ℕ) → (w : Wanted) → stuck_of l queue ≡ Some w →
        Awaits l queue w × ((r : ℕ) → Brings l r w → ⊥) }
    ensures finds { (l : Layer) → (missing : IsMissing l) → (w : Wanted) × (stuck_of l missing.queue ≡ Some w) }
{}
