//! What all actors of a run have in common.
//!
//! Source: this project's own.
use crate::bells::Bells;
use crate::progress::Progress;
use vq_actor::Company;

/// What all actors of a run have in common, beside what their turns go over.
#[derive(Drop)]
pub(crate) struct Common {
    /// Their programs.
    pub(crate) company: Company,
    /// Where they wait, and where their threads sleep.
    pub(crate) bells: Bells,
    /// How far each worker has come.
    pub(crate) progress: Vec<Progress>,
}
