//! The limits of a script, by its version. They are this project's own.
ghost use Rattle.std.specs.Prelude.{◌≡◌};
ghost use Rattle.vq_model.specs.Limits.{limits_of};

/// The most of each thing that a script of a version has.
#[derive(Clone, Copy, Debug, PartialEq, Eq)]
pub struct Limits {
    pub buffers: u32,
    /// The bytes of all buffers together.
    pub bytes: u32,
    /// Timelines, binary semaphores and fences together.
    pub semaphores: u32,
    pub queues: u32,
    pub jobs: u32,
    /// The commands of all batches together, and those of one batch.
    pub commands: u32,
    pub batch_commands: u32,
    /// The waits, and the signals, of one batch.
    pub waits: u32,
    pub signals: u32,
    /// The pairs of one host step.
    pub pairs: u32,
    /// The turns of a schedule.
    pub turns: u32,
}

/// The most bytes of one update, in each version. Source: Vulkan 1.3, vkCmdUpdateBuffer.
pub const UPDATE_BYTES: u64 = 65_536;

impl Limits {
    /// The limits of a version.
    pub fn of(version: u32) -> Limits
        ensures { result ≡ limits_of version }
    {
        Limits {
            buffers: 64,
            bytes: 1_048_576,
            semaphores: 256,
            queues: if version == 2 { 16 } else { 8 },
            jobs: if version == 2 { 8192 } else { 4096 },
            commands: 8192,
            batch_commands: 64,
            waits: 16,
            signals: 16,
            pairs: 16,
            turns: 65_536,
        }
    }
}
