//! The lists of one timeline: which operation has which point, which operations are bound and completed,
//! which points wait to be freed and which are free. One place says what each call leaves of them; who
//! calls, and under which lock, is left to others.
#![tactic(auto)]

mod answers;
mod timeline;

pub use answers::{Found, NotNext, OpPlace, Taken};
pub use timeline::TimelineCore;
