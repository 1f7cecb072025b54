//! What crosses to C, whichever run it is told of: verdicts with their codes and words, turns, answers and signal
//! operations. Nothing here knows of a run.
#![tactic(auto)]

mod codes;
mod ending;
mod explanation;
mod kinds;
mod reply;
mod rows;
mod turn;
mod verdict;

pub use ending::{Ending, ending_of, lawful_plan};
pub use explanation::{NO_MEMORY, explained, put};
pub use kinds::reply_code;
pub use reply::Reply;
pub use rows::{AnswerRow, OpRow, fit_reply, op_reply, put_rows, rows_of, tell_op};
pub use turn::{Turn, reply_of, told};
pub use verdict::{Verdict, verdict_of};
