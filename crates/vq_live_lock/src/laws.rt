//! The law of the bell. The function does nothing: its contract is the law.
ghost use Rattle.vq_live_lock.specs.Wakes.{LosesNoWake};

/// No wake is lost: where a gauge shows a value for which a note was left, the bell was rung since it was left.
pub fn no_wake_is_lost()
    ensures { LosesNoWake }
{}
