//! The parts of a script, to which others may be added.
ghost use Rattle.std.specs.Prelude.{◌≡◌, ◌≤◌, length};

use vq_model::list::List;
use vq_model::script::{Buffer, Job, Queue, Script, Semaphore, Turn};

/// The parts of a script that was read, to which others may be added.
#[derive(Drop)]
pub struct ScriptParts {
    pub version: u32,
    pub buffers: Vec<Buffer>,
    pub semaphores: Vec<Semaphore>,
    pub queues: Vec<Queue>,
    pub jobs: Vec<Job>,
    pub scheduled: bool,
    pub turns: Vec<Turn>,
    ghost few_queues: { length queues.items ≤ 16 },
}

impl ScriptParts {
    ghost use Rattle.vq_script.specs.Parts.{script_of_parts};

    /// The script of these parts.
    pub fn into_script(self) -> Script
        ensures { result ≡ script_of_parts self }
    {
        Script {
            version: self.version,
            buffers: List::of(self.buffers),
            semaphores: List::of(self.semaphores),
            queues: List::of(self.queues),
            jobs: List::of(self.jobs),
            scheduled: self.scheduled,
            turns: List::of(self.turns),
        }
    }
}
