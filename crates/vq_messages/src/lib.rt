//! The lines that say why an input is refused, and what mends each fault.
#![tactic(auto)]

mod limit;
mod mends;
mod refusals;

pub use limit::INPUT_LIMIT;
pub use mends::{mend_of_line, mend_of_order, mend_of_plan, mend_of_size};
pub use refusals::{line_refusal, no_trace_refusal, order_refusal, plan_refusal, trace_refusal};
