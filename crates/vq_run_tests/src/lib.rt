//! Run tests of the top call, over ports in memory. Expected texts are worked out by hand.
#![tactic(auto)]

#[cfg(test)]
mod audit_tests;
#[cfg(test)]
mod cases;
#[cfg(test)]
mod gate_tests;
#[cfg(test)]
mod host_tests;
#[cfg(test)]
mod hosts_tests;
#[cfg(test)]
mod limit_tests;
#[cfg(test)]
mod mode_tests;
#[cfg(test)]
mod pieces;
#[cfg(test)]
mod port_tests;
#[cfg(test)]
mod run_tests;
#[cfg(test)]
mod version_tests;
