//! The queues and the threads that came, which no memory holds: clauses alone read them.
use crate::sites::Site;
use std::snapshot::Snapshot;

/// Some sites: those that came before, and one more.
#[derive(Drop)]
pub enum PastSites {
    NoSites,
    OneMore {
        before: Snapshot<PastSites>,
        site: Site,
    },
}
