//! An actor with its share of a run.
//!
//! Source: this project's own.
ghost use Rattle.std.specs.Arc.{arc_value};
ghost use Rattle.vq_shared_run.specs.Stands.{IsAt, at_prop};

use crate::left::Left;
use crate::run::Run;
use crate::stand::Stand;
use std::sync::Arc;

/// An actor, and a share of the run that it is of.
#[derive(Drop)]
pub struct Playing {
    pub(crate) run: Arc<Run>,
    pub(crate) stand: Stand,
    ghost at: { IsAt (arc_value run).board stand } by { at_prop (arc_value run).board stand },
}

/// An actor with a share of its run, or what the run has left.
#[derive(Drop)]
pub enum Player {
    Playing(Playing),
    Left(Left),
}
