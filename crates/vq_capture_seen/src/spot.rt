//! A point of a capture, and what releases it.
use std::marker::Model;
use vq_capture::capture::Step;
use vq_capture::stage::Stage;

/// A point: a step, of an access of a command one of its stages, and the lines that release it.
#[derive(Drop)]
pub struct Spot {
    pub step: Step,
    pub stage: Option<Stage>,
    pub released: Vec<u64>,
}

impl Model for Spot {
    ghost use Rattle.vq_capture_seen.specs.Ways.{ToldPoint};

    ghost Value = { ToldPoint };

    ghost view = { λ s. record { point = record { step = s.step; stage = s.stage }; released = s.released.items } };
}
