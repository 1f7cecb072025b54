//! A step, and what releases it.
ghost use Rattle.std.specs.Prelude.{◌≡◌};

use std::marker::Model;
use vq_capture::capture::Step;

/// A step of a capture, with the lines that release it.
#[derive(Drop)]
pub struct Told {
    step: Step,
    released: Vec<u64>,
}

impl Model for Told {
    ghost use Rattle.vq_capture_check.specs.Watching.{ToldStep};

    ghost Value = { ToldStep };

    ghost view = { λ t. record { step = t.step; released = t.released.items } };
}

impl Told {
    /// A step, with the lines that release it. It takes no memory.
    pub fn new(step: Step, released: Vec<u64>) -> Told
        ensures { result ≡ record { step = step; released = released.items } }
    {
        Told { step, released }
    }

    /// The step.
    pub fn step(&self) -> Step
        ensures { result ≡ self.now.step }
    {
        self.step
    }

    /// The step, where it lies.
    pub fn as_step(&self) -> &Step
        ensures { result.now ≡ self.now.step }
    {
        &self.step
    }

    /// The lines that release it.
    pub fn released(&self) -> &[u64]
        ensures { result.now ≡ self.now.released }
    {
        &self.released
    }
}
