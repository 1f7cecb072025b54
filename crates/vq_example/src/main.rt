//! How the library is called: reads a script, checks it, and prints what comes before what.
#![tactic(auto)]

ghost use Rattle.std.specs.Prelude.{IsTrue, ◌↔◌, ◌⊎◌, ◌<◌, length};
ghost use Rattle.vq_model.specs.HappensBefore.{HappensBefore};

use std::alloc::Global;
use std::io;
use std::process::ExitCode;
use vq_order::{Ordered, check};
use vq_script::{Form, is_short, parse};
use vq_spec::Plan;

const SCRIPT: &str = "timeline A 3
queue P threaded
queue Q threaded
submit P
signal A 5
end
submit Q
wait A 4
signal A 7
end
submit P
end
";

/// Whether a chain of waits and queues puts one of two jobs before the other.
fn are_ordered(order: &Ordered, i: u32, j: u32) -> bool
    requires first { i < length order.now.jobs }
    requires second { j < length order.now.jobs }
    ensures { IsTrue result ↔ (HappensBefore order.now i j ⊎ HappensBefore order.now j i) }
{
    order.before(i, j) || order.before(j, i)
}

/// The script of a text, checked; none where it is refused.
fn checked(alloc: Global, text: &[u8]) -> Option<Ordered> {
    if !is_short(text) {
        return None;
    }
    let script = parse(alloc, text, Form::Plain).ok()?;
    check(alloc, Plan::lower(alloc, script).ok()?).ok()
}

/// Prints what comes before a job and after it, and between which payloads it runs.
fn print_job(rt: &HostRuntime, order: &Ordered, j: u32) -> io::Result<()>
    requires { j < length order.now.jobs }
{
    for i in 0..j {
        let ordered = are_ordered(order, i, j);
        println!(rt; "jobs {i} and {j} are ordered: {ordered}")?;
    }
    for t in 0..order.plan().chains() {
        let (floor, ceiling) = (order.floor(j, t), order.ceiling(j, t));
        println!(rt; "at job {j} semaphore {t} is at {floor} to {ceiling}")?;
    }
    Ok(())
}

fn main(rt: HostRuntime) -> io::Result<ExitCode> {
    let Some(order) = checked(rt.alloc(), SCRIPT.as_bytes()) else {
        return Ok(ExitCode::from(2));
    };
    for j in 0..order.plan().jobs() {
        print_job(&rt, &order, j)?;
    }
    Ok(ExitCode::SUCCESS)
}
