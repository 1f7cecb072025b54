//! A run over a board that several share: each has one actor with a share of the run, and takes its turns by itself,
//! from a thread of its own. No turn waits or takes memory, and the last share closes the board.
#![tactic(auto)]

mod answers;
mod calls;
mod end;
mod left;
mod looks;
mod opening;
mod player;
mod run;
mod stand;
mod turns;

pub use answers::{Look, Shut};
pub use calls::number_of;
pub use left::Left;
pub use opening::share;
pub use player::{Player, Playing};
pub use run::Run;
pub use stand::{Stand, Watch};
