//! The tasks of an actor's program.
use crate::needs::Needs;
use vq_model::plan::Question;

/// A part of an actor's program. It has all that a turn needs of the plan, whose jobs, operations, chains and
/// commands it names by number. Source: this project's own, over Vulkan 1.3, "Queue Submission" and
/// "Semaphores".
#[derive(Drop)]
pub enum Task {
    /// Waits until the host has submitted a batch.
    AwaitSubmitted { job: u32 },
    /// Waits until a batch is released to the device.
    AwaitReleased { job: u32 },
    /// Waits until a job is finished.
    AwaitFinished { job: u32 },
    /// Waits until a signal operation is pending.
    AwaitBound { op: u32 },
    /// Waits until one of these needs is met, and gives back the references that were taken for them. A wait
    /// for all of several needs is one such task for each of them.
    AwaitNeeds { needs: Needs },
    /// Submits a batch.
    Submit { job: u32 },
    /// Gives a signal operation of this chain a point.
    Take { op: u32, chain: u32 },
    /// Releases a batch to the device.
    Release { job: u32 },
    /// Makes a signal operation pending.
    Bind { op: u32 },
    /// Starts a job.
    Start { job: u32 },
    /// Applies a command of a job.
    Apply { job: u32, command: u32 },
    /// Signals an operation.
    Signal { op: u32 },
    /// Reads a chain's past value, to compare a value with it.
    Compare { chain: u32, wanted: u64 },
    /// Answers what a host step asks, by what it compared.
    Answer { job: u32, question: Question },
    /// Finishes a job.
    Finish { job: u32 },
}
