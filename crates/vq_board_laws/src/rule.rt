//! The rule of the board's table.
//!
//! Source: this project's own, where an item names no other.
use crate::view::{LoggedBuffers, View};
use atomic_table::TableRule;
use vq_spec::Plan;

/// The rule of the board.
pub struct Ruled;

impl TableRule<LoggedBuffers, View, Plan> for Ruled {
    ghost use Rattle.vq_board_laws.specs.Rule.{Kept, fresh};

    ghost holds = { Kept };

    ghost first = { λ p. fresh p 0 };
}
