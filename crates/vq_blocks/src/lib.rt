//! Texts in which host threads stand beside a script: what their lines say, as data, and the definitions of what is
//! read, of the script that such a text is compiled to, and of the machine with several host threads.
//!
//! Source: this project's own, where an item names no other.
#![tactic(auto)]

pub mod block;
