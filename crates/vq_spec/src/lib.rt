//! Plans: what a script asks for, job by job, and what it means.
#![tactic(auto)]

mod answers;
mod chains;
mod edges;
mod fences;
mod heads;
mod host_steps;
mod lowering;
mod numbers;
mod order;
mod owners;
mod payloads;
mod plan;
mod progress;
mod reached;
mod signals;
mod slow;
mod text;
mod text_room;
mod uses;

pub use answers::answer_text;
pub use order::{SlowOrder, slow_order};
pub use plan::Plan;
pub use reached::{all_reached, any_reached, is_reached};
pub use slow::{SlowRun, apply_in_order, slow_run, zero_buffers};
pub use text::{buffers_text, push_buffers};
pub use text_room::{TextRoom, asking};
pub use vq_model::plan::{Answer, AnswerLine, Event, Lane, Need, Op, PlanFault, PlanJob, Question};
pub use vq_transfer::Buffers;
