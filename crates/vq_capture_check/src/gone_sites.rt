//! Queues and threads that are gone: what was brought to their lanes is taken no more.
ghost use Rattle.std.specs.Prelude.{◌≡◌, ◌<◌, ◌+◌, ◌%◌, ◌||◌, false, true, ℕ, IsTrue, OnOk};
ghost use Rattle.vq_capture_check.specs.GoneSites.{IsOpen, gone_with, has_site_lane, is_gone};
ghost use Rattle.vq_capture_check.specs.SiteMaps.{sites_of};
ghost use Rattle.vq_capture_check.specs.declared.sites.Site.TheVariants.{OnQueue, OnThread};

use crate::lanes::is_told;
use crate::numbered_sites::NumberedSites;
use crate::sites::Site;
use crate::watch::is_command_access;
use std::alloc::AllocError;
use vq_capture::capture::Step;
use vq_capture::statement::Statement;
use vq_capture_clocks::gone::{GoneLanes, end_queue, end_thread, is_lane_gone, is_queue_gone};
use vq_capture_touched::touch::StepLanes;

/// Whether the lanes of a queue aren't gone, if a test holds.
fn is_open_queue(gone: &[GoneLanes], test: bool, first: usize) -> bool
    requires { first % 15 ≡ 0 }
    ensures { IsTrue result → test ≡ true → (p : ℕ) → p < 14 → is_gone gone.now (first + p) ≡ false }
{
    !test || !is_queue_gone(gone, first / 15)
}

/// Whether the last lane of a site isn't gone, if a test holds.
fn is_open_last(gone: &[GoneLanes], test: bool, first: usize) -> bool
    ensures { IsTrue result → test ≡ true → is_gone gone.now (first + 13) ≡ false }
{
    let place = first % 15 + 13;
    !test || !is_lane_gone(gone, first / 15 + place / 15, place % 15)
}

/// Whether no lane that a step takes is gone.
pub fn is_open(gone: &[GoneLanes], at: StepLanes, step: &Step) -> bool
    requires { at.queue % 15 ≡ 0 }
    ensures { IsTrue result → IsOpen (is_gone gone.now) at step.now }
{
    let of_queue = step.queue.is_some() || is_command_access(&step.statement);
    is_open_queue(gone, of_queue, at.queue)
        && is_open_last(gone, step.thread.is_some(), at.thread)
        && is_open_last(gone, is_told(&step.statement), at.after)
}

/// A queue is gone, if it came.
fn forget_queue(
    sites: &NumberedSites,
    gone: &mut Vec<GoneLanes>,
    queue: u64,
) -> Result<(), AllocError>
    ensures { OnOk result ((k : ℕ) → is_gone gone.new.items k ≡
        (is_gone gone.old.items k || has_site_lane (sites_of sites.now) (OnQueue queue) k)) }
{
    match sites.find(Site::OnQueue(queue)) {
        Some(number) => end_queue(gone, number),
        None => Ok(()),
    }
}

/// A thread is gone, if it came.
fn forget_thread(
    sites: &NumberedSites,
    gone: &mut Vec<GoneLanes>,
    thread: u64,
) -> Result<(), AllocError>
    ensures { OnOk result ((k : ℕ) → is_gone gone.new.items k ≡
        (is_gone gone.old.items k || has_site_lane (sites_of sites.now) (OnThread thread) k)) }
{
    match sites.find(Site::OnThread(thread)) {
        Some(number) => end_thread(gone, number),
        None => Ok(()),
    }
}

/// The queue or the thread that a line forgets is gone, if it came. The error is want of memory.
pub fn forget_sites(
    sites: &NumberedSites,
    gone: &mut Vec<GoneLanes>,
    said: &Statement,
) -> Result<(), AllocError>
    ensures { OnOk result ((k : ℕ) → is_gone gone.new.items k ≡
        gone_with (sites_of sites.now) (is_gone gone.old.items) said.now k) }
{
    match said {
        Statement::Forget { declared } => {
            forget_queue(sites, gone, *declared)?;
            forget_thread(sites, gone, *declared)
        }
        _ => Ok(()),
    }
}
