//! One live timeline: points are taken for values as submissions come, with no plan known before. It
//! waits for nobody and has no lock of its own: the caller's lock is the borrow.
#![tactic(auto)]

mod answers;
pub mod laws;
mod live;

pub use answers::{
    CancelFault, Found, Given, Held, InstallFault, ReferFault, ReserveFault, SignalFault, Slot,
    TakeFault,
};
pub use live::LiveTimeline;
