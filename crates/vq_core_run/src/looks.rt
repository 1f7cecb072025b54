//! Looks at a core, for numbers that may be out of range, and events that are made over it.
ghost use Rattle.std.specs.Prelude.{◌≡◌, ◌||◌, Some, nat_le, is_some, true};
ghost use Rattle.vq_model.specs.Plan.{initial, resolver, chain_of};
ghost use Rattle.vq_turns.specs.Turns.{collected, found, past_value, taken, unbound_before};
ghost use Rattle.vq_point_laws.specs.Points.{CanCome};
ghost use Rattle.vq_core.specs.CoreState.{IsCourse, world};
ghost use Rattle.vq_core_run.specs.CoreAccesses.{with_event};

use vq_core::Core;
use vq_spec::Event;
use vq_turns::look::Found;

/// Does nothing: what a core keeps.
pub(crate) fn keeps(core: &Core)
    ensures { IsCourse core.now }
{
    let _lawful = core.ordered();
}

/// Makes an event that may come. What the core keeps is told with it.
pub(crate) fn make(core: &mut Core, event: Event)
    requires { IsCourse core.old → CanCome core.old.plan (world core.old) event }
    ensures course { IsCourse core.old }
    ensures made { core.new ≡ with_event core.old event }
{
    keeps(core);
    core.apply(event);
}

/// Whether there is an operation of this number, and it is bound.
pub(crate) fn is_bound(core: &Core, op: u32) -> bool
    ensures { result ≡ (world core.now).bound op }
{
    if op >= core.ordered().plan().ops() {
        return false;
    }
    core.is_bound(op)
}

/// The point of an operation, if there is one.
pub(crate) fn point_of(core: &Core, op: u32) -> Option<u32>
    ensures { result ≡ (world core.now).point_of op }
{
    if op >= core.ordered().plan().ops() {
        return None;
    }
    core.point_of(op)
}

/// The first operation before this one in its chain that isn't bound.
pub(crate) fn unbound_before(core: &Core, op: u32) -> Option<u32>
    ensures { result ≡ unbound_before core.now.plan (world core.now) op }
{
    if op >= core.ordered().plan().ops() {
        return None;
    }
    core.unbound_before(op)
}

/// What is found for a value that something reaches.
pub(crate) fn found(core: &Core, chain: u32, value: u64) -> Found
    requires { (nat_le value (initial core.now.plan chain) || is_some (resolver core.now.plan chain value)) ≡ true }
    ensures { found core.now.plan (world core.now) chain value ≡ Some result }
{
    if chain >= core.ordered().plan().chains() {
        return Found::Past;
    }
    core.found(chain, value)
}

/// The past value of a chain, 0 for a chain that isn't there.
pub(crate) fn past_value(core: &Core, chain: u32) -> u64
    ensures { result ≡ past_value core.now.plan (world core.now) chain }
{
    if chain >= core.ordered().plan().chains() {
        return 0;
    }
    core.timeline(chain).past()
}

/// What a collection on a chain makes.
pub(crate) fn collected(core: &Core, chain: u32) -> Option<Event>
    ensures { result ≡ collected core.now.plan (world core.now) chain }
{
    if chain >= core.ordered().plan().chains() {
        return None;
    }
    core.next_collected(chain)
}

/// The event that gives an operation a point.
pub(crate) fn taken(core: &Core, op: u32, chain: u32) -> Event
    requires { chain_of core.now.plan op ≡ Some chain }
    ensures { result ≡ taken (world core.now) op chain }
{
    let _lawful = core.ordered().plan();
    core.next_taken(op, chain)
}
