//! What each kind of step tells its caller.
ghost use Rattle.std.specs.Prelude.{◌+◌};
ghost use Rattle.vq_board_laws.specs.Moments.{in_load, in_store, in_change};
ghost use Rattle.vq_board_laws.specs.Rule.{fresh};
ghost use Rattle.vq_board_laws.specs.Steps.{looked, submitted, released, started, finished};
ghost use Rattle.vq_board_laws.specs.Steps.{took_turn, gave_turn, entered};
ghost use Rattle.vq_board_laws.specs.PointSteps.{recalled, saw, made_point, assigned, bound_op, signaled};
ghost use Rattle.vq_board_laws.specs.PointSteps.{completed, retired, referred, unreferred, answered};

use atomic_table::{Play, Split};
use vq_board_laws::view::{LoggedBuffers, View};

pub(crate) struct LookAtJob;

impl Play<LoggedBuffers, View> for LookAtJob {
    ghost then = { in_load looked };
}

pub(crate) struct Submit;

impl Play<LoggedBuffers, View> for Submit {
    ghost then = { in_store submitted };
}

pub(crate) struct Release;

impl Play<LoggedBuffers, View> for Release {
    ghost then = { in_store released };
}

pub(crate) struct Start;

impl Play<LoggedBuffers, View> for Start {
    ghost then = { in_store started };
}

pub(crate) struct Finish;

impl Play<LoggedBuffers, View> for Finish {
    ghost then = { in_store finished };
}

pub(crate) struct TakeTurn;

impl Play<LoggedBuffers, View> for TakeTurn {
    ghost then = { in_change took_turn };
}

pub(crate) struct GiveTurn;

impl Play<LoggedBuffers, View> for GiveTurn {
    ghost then = { in_store gave_turn };
}

pub(crate) struct Enter;

impl Play<LoggedBuffers, View> for Enter {
    ghost then = { in_store entered };
}

pub(crate) struct Recall;

impl Play<LoggedBuffers, View> for Recall {
    ghost then = { in_load recalled };
}

pub(crate) struct LookAtPoint;

impl Play<LoggedBuffers, View> for LookAtPoint {
    ghost then = { in_load saw };
}

pub(crate) struct Make;

impl Play<LoggedBuffers, View> for Make {
    ghost then = { in_change made_point };
}

pub(crate) struct Assign;

impl Play<LoggedBuffers, View> for Assign {
    ghost then = { in_store assigned };
}

pub(crate) struct Bind;

impl Play<LoggedBuffers, View> for Bind {
    ghost then = { in_store bound_op };
}

pub(crate) struct Signal;

impl Play<LoggedBuffers, View> for Signal {
    ghost then = { in_change signaled };
}

pub(crate) struct Complete;

impl Play<LoggedBuffers, View> for Complete {
    ghost then = { in_store completed };
}

pub(crate) struct Retire;

impl Play<LoggedBuffers, View> for Retire {
    ghost then = { in_change retired };
}

pub(crate) struct Refer;

impl Play<LoggedBuffers, View> for Refer {
    ghost then = { in_change referred };
}

pub(crate) struct Unrefer;

impl Play<LoggedBuffers, View> for Unrefer {
    ghost then = { in_change unreferred };
}

pub(crate) struct Tell;

impl Play<LoggedBuffers, View> for Tell {
    ghost then = { in_change answered };
}

/// A fresh pass is cut off the first one.
pub(crate) struct Deal;

impl Split<View> for Deal {
    ghost left = { λ v. record v { given = v.given + 1 } };

    ghost right = { λ v. fresh v.plan (v.given + 1) };
}
