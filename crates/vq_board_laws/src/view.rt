//! What a pass of the board knows and has done, as contracts see it.
//!
//! Source: this project's own, where an item names no other.
use std::collections::LinkedList;
use vq_model::plan::Answer;
use vq_spec::Plan;
use vq_transfer::Buffers;

/// How far a job is.
#[derive(Clone, Copy, Debug, PartialEq, Eq)]
pub enum JobState {
    /// Nothing has happened to it.
    Waiting,
    /// The host has submitted the batch.
    Submitted,
    /// It is handed to the device.
    Released,
    Started,
    Finished,
}

/// What the word of an operation says.
#[derive(Clone, Copy, Debug, PartialEq, Eq)]
pub enum OpState {
    /// It isn't bound to a point yet.
    Unbound,
    /// It is bound to a point, whose number is below the plan's number of operations.
    Bound { point: u32 },
    /// It is completed.
    Past,
}

/// What a pass may know. No value of it is made.
pub enum Fact {
    /// The job is at least so far.
    Job(u32, JobState),
    /// The operation has or had a point.
    Taken(u32),
    /// The operation is bound to a point, or past.
    Bound(u32),
    /// The operation is bound to this point, or past.
    BoundTo(u32, u32),
    /// The operation is made.
    Made(u32),
    /// The operation is completed.
    Past(u32),
}

/// A point, and the operation that it carries.
#[derive(Clone, Copy)]
pub struct Reference {
    pub point: u32,
    pub op: u32,
}

/// A host step with the answer that the host gave it.
#[derive(Clone, Copy)]
pub struct Told {
    pub job: u32,
    pub answer: Answer,
}

/// An atomic step of a pass: on which word it was, and the number found there, or at a store the
/// number stored.
#[derive(Clone, Copy)]
pub struct OwnStep {
    pub word: u64,
    pub found: u64,
}

/// What a pass knows, has and has done. No value of it is made.
pub struct View {
    /// The number of its role.
    pub role: u64,
    /// Of the host's pass: how many other roles are given out.
    pub given: u64,
    /// The plan of the board.
    pub plan: Plan,
    pub known: LinkedList<Fact>,
    /// The batches that it submitted, and those that it released, each with the last one first.
    pub submitted: LinkedList<u32>,
    pub released: LinkedList<u32>,
    /// The jobs that it started, with the last one first.
    pub begun: LinkedList<u32>,
    /// The job that it runs: started and not finished.
    pub runs: Option<u32>,
    /// How many commands, and how many signals, of that job are made.
    pub entered: u64,
    pub signaled: u64,
    /// While it has the turn over the buffers: how many places of the log are filled.
    pub held: Option<u64>,
    /// What the buffers hold then.
    pub bytes: Buffers,
    /// The points that it owns, and what they carry.
    pub owned: LinkedList<u32>,
    pub carrying: LinkedList<Reference>,
    /// Its operations that are bound or past, and those that are past.
    pub bound: LinkedList<u32>,
    pub past: LinkedList<u32>,
    /// The references that it holds.
    pub refs: LinkedList<Reference>,
    /// The operations that its steps showed unmade since it started the job that it runs.
    pub unmade: LinkedList<u32>,
    /// The host steps that it answered, with the last one first.
    pub told: LinkedList<Told>,
    /// Its steps, with the last one first. No part of the rule reads them.
    pub steps: LinkedList<OwnStep>,
}

/// The buffers, with the number of filled places of the log.
#[derive(Drop)]
pub struct LoggedBuffers {
    pub buffers: Buffers,
    pub filled: u64,
}

/// Who makes the steps of a pass.
#[derive(Clone, Copy, Debug, PartialEq, Eq)]
pub enum Role {
    /// The host, which also submits to the queues without a thread.
    Host,
    /// The submitting thread of a threaded queue.
    Submit(u32),
    /// The device's side of a queue.
    Ring(u32),
    /// The owner of the points of a chain.
    Shelf(u32),
}
