//! The queues and the threads of a capture, each kind numbered as they come.
ghost use Rattle.std.specs.Prelude.{◌≡◌, IfOk, ◌*◌, ◌%◌};
ghost use Rattle.vq_capture_check.specs.SiteMaps.{sites_of};
ghost use Rattle.vq_capture_check.specs.Sites.{after_site, lane_from, lanes_of, queue_site};
ghost use Rattle.vq_capture_check.specs.Sites.{some_lane, thread_site, with_sites, with_some};

use crate::numbered_sites::NumberedSites;
use std::alloc::AllocError;
use vq_capture::capture::Step;
use vq_capture::statement::Statement;
use vq_capture_touched::touch::StepLanes;

/// A queue, or a thread of the host, by the line that declared it.
#[derive(Clone, Copy)]
pub enum Site {
    OnQueue(u64),
    OnThread(u64),
}

/// The first lane of a site of a number, if there is one.
fn lane_from(site: Site, number: usize) -> Result<usize, AllocError>
    ensures { IfOk result (λ lane. lane ≡ lane_from site number) }
{
    let Some(first) = number.checked_mul(15) else {
        return Err(AllocError);
    };
    match site {
        Site::OnQueue(_) => Ok(first),
        Site::OnThread(_) => match first.checked_add(1) {
            Some(lane) => Ok(lane),
            None => Err(AllocError),
        },
    }
}

/// The first lane of a site, if there is one.
fn lane(sites: &mut NumberedSites, site: Option<Site>) -> Result<usize, AllocError>
    ensures { IfOk result (λ lane.
        (sites_of sites.new ≡ with_some (sites_of sites.old) site) × (lane ≡ some_lane (sites_of sites.new) site)) }
{
    let Some(site) = site else {
        return Ok(0);
    };
    let number = sites.number(site)?;
    lane_from(site, number)
}

fn queue_site(queue: Option<u64>) -> Option<Site>
    ensures { result ≡ queue_site queue }
{
    match queue {
        Some(queue) => Some(Site::OnQueue(queue)),
        None => None,
    }
}

fn thread_site(thread: Option<u64>) -> Option<Site>
    ensures { result ≡ thread_site thread }
{
    match thread {
        Some(thread) => Some(Site::OnThread(thread)),
        None => None,
    }
}

fn after_site(said: &Statement) -> Option<Site>
    ensures { result ≡ after_site said.now }
{
    match said {
        Statement::After { thread } => Some(Site::OnThread(*thread)),
        _ => None,
    }
}

/// The first lanes of the sites of a step, of which those that are new are put behind the others. The error is want of
/// memory.
pub fn lanes_of(sites: &mut NumberedSites, step: &Step) -> Result<StepLanes, AllocError>
    ensures { IfOk result (λ lanes.
        (sites_of sites.new ≡ with_sites (sites_of sites.old) step.now)
        × (lanes ≡ lanes_of (sites_of sites.old) step.now) × (lanes.queue % 15 ≡ 0)) }
{
    let queue = lane(sites, queue_site(step.queue))?;
    let thread = lane(sites, thread_site(step.thread))?;
    let after = lane(sites, after_site(&step.statement))?;
    Ok(StepLanes {
        queue,
        thread,
        after,
    })
}
