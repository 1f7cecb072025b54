//! The tables of a run, each with what it says of the world: what jobs, points, chains, lanes and
//! references have come to, and all of them before the first event.
#![tactic(auto)]

mod answer_state;
mod lanes;
mod needs;
mod notes;
mod opening;
mod table;
mod waits;

pub use answer_state::AnswerState;
pub use lanes::{JobList, LaneState, LaneTable, is_host};
pub use needs::{any_resolved, count_resolved, place_among};
pub use notes::{Note, NoteRow, NoteTable};
pub use opening::{Chains, Journal, Lanes, Marks, Opening, open};
pub use table::{JobRecord, PointSlot, Table};
pub use waits::{one_reached_after, reached_after};
