//! What may hold an actor back before its turns.
//!
//! Source: this project's own, where an item names no other.
use std::marker::Sync;
use vq_model::script::ActorName;

/// What is called before each turn of each actor, in the thread that takes the turn. Turns are counted from 0. It tells
/// nothing and can't fail; it may take its time, so a test can hold one actor until another has come to some turn. A
/// gate that never lets go holds the whole run.
pub trait Gate: Sync {
    fn at(&self, actor: ActorName, turn: u64);

    /// Whether it may hold an actor until another one has moved. Then each actor's turns are taken by its own thread, or
    /// by the caller where it has none; else also by threads that let it go on, so that fewer are woken.
    fn may_hold(&self) -> bool {
        true
    }
}

/// A gate that holds nobody.
#[derive(Clone, Copy)]
pub struct OpenGate;

impl Gate for OpenGate {
    fn at(&self, _actor: ActorName, _turn: u64) {}

    fn may_hold(&self) -> bool {
        false
    }
}
