//! An actor's room in a cell that threads and the caller reach by reference.
use std::snapshot::Snapshot;
use vq_board::Board;
use vq_board_run::AccessRoom;
use vq_lock::{Fits, KeyedLock};
use vq_model::script::ActorName;

/// Which board and which of its actors a berth was made for.
#[derive(Drop)]
pub struct Home {
    pub board: Snapshot<Board>,
    pub actor: ActorName,
}

impl Fits<Home> for Option<AccessRoom> {
    ghost use Rattle.vq_rings.specs.Berths.{fits};

    ghost fits = { fits };
}

/// An actor's room under a lock; nothing while the room is taken out for a turn.
pub(crate) type Berth = KeyedLock<Home, Option<AccessRoom>>;
