//! The queues and the threads that came, each with its number among those of its kind.
ghost use Rattle.std.specs.Prelude.{◌≡◌, IfOk, ◌++◌, ◌∷◌, [], false};
ghost use Rattle.vq_capture_check.specs.PastSites.{AreNumbered, numbered, of_kind, sites_before};
ghost use Rattle.vq_capture_check.specs.Sites.{has_site, site_number, with_site};
ghost use Rattle.vq_capture_check.specs.declared.sites.Site.TheVariants.{OnQueue, OnThread};

use crate::past_sites::PastSites;
use crate::sites::Site;
use std::alloc::{AllocError, Global};
use std::collections::BTreeMap;
use std::snapshot::Snapshot;

/// No sites, as clauses see them.
fn no_sites() -> Snapshot<PastSites>
    ensures { sites_before result.value ≡ [] }
{
    Snapshot::of(&PastSites::NoSites)
}

/// Some sites and one more, as clauses see them.
fn sites_with(before: Snapshot<PastSites>, site: Site) -> Snapshot<PastSites>
    ensures { sites_before result.value ≡ sites_before before.value ++ site ∷ [] }
{
    Snapshot::of(&PastSites::OneMore { before, site })
}

/// The sites that came, each with its number among those of its kind.
#[derive(Drop)]
pub struct NumberedSites {
    queues: BTreeMap<u64, usize>,
    threads: BTreeMap<u64, usize>,
    queue_count: usize,
    thread_count: usize,
    past: Snapshot<PastSites>,
    ghost told: { AreNumbered (sites_before past.value) queues threads queue_count thread_count },
}

impl NumberedSites {
    ghost use Rattle.vq_capture_check.specs.SiteMaps.{sites_of};

    /// No sites.
    pub fn new(alloc: Global) -> NumberedSites
        ensures { sites_of result ≡ [] }
    {
        NumberedSites {
            queues: BTreeMap::new(alloc),
            threads: BTreeMap::new(alloc),
            queue_count: 0,
            thread_count: 0,
            past: no_sites(),
        }
    }

    /// The number of a site, if it came.
    pub fn find(&self, site: Site) -> Option<usize>
        ensures { result ≡ numbered (sites_of self.now) site }
    {
        match site {
            Site::OnQueue(queue) => self.queues.get(&queue).copied(),
            Site::OnThread(thread) => self.threads.get(&thread).copied(),
        }
    }

    /// Puts a queue that is new behind the others.
    fn add_queue(&mut self, queue: u64) -> Result<usize, AllocError>
        requires { has_site (sites_of self.old) (OnQueue queue) ≡ false }
        ensures { IfOk result (λ number. (sites_of self.new ≡ sites_of self.old ++ OnQueue queue ∷ [])
            × (number ≡ of_kind (sites_of self.old) (OnQueue queue))) }
    {
        let number = self.queue_count;
        let Some(count) = number.checked_add(1) else {
            return Err(AllocError);
        };
        self.queues.insert(queue, number)?;
        let before = std::mem::replace(&mut self.past, no_sites());
        self.past = sites_with(before, Site::OnQueue(queue));
        self.queue_count = count;
        Ok(number)
    }

    /// Puts a thread that is new behind the others.
    fn add_thread(&mut self, thread: u64) -> Result<usize, AllocError>
        requires { has_site (sites_of self.old) (OnThread thread) ≡ false }
        ensures { IfOk result (λ number. (sites_of self.new ≡ sites_of self.old ++ OnThread thread ∷ [])
            × (number ≡ of_kind (sites_of self.old) (OnThread thread))) }
    {
        let number = self.thread_count;
        let Some(count) = number.checked_add(1) else {
            return Err(AllocError);
        };
        self.threads.insert(thread, number)?;
        let before = std::mem::replace(&mut self.past, no_sites());
        self.past = sites_with(before, Site::OnThread(thread));
        self.thread_count = count;
        Ok(number)
    }

    /// The number of a site among those of its kind. It is put behind the others where it is new.
    pub fn number(&mut self, site: Site) -> Result<usize, AllocError>
        ensures { IfOk result (λ number. (sites_of self.new ≡ with_site (sites_of self.old) site)
            × (number ≡ site_number (sites_of self.new) site)) }
    {
        if let Some(number) = self.find(site) {
            return Ok(number);
        }
        match site {
            Site::OnQueue(queue) => Ok(self.add_queue(queue)?),
            Site::OnThread(thread) => Ok(self.add_thread(thread)?),
        }
    }
}
