//! What an actor finds on a chain, and the events that it may try there next.
//!
//! Source: this project's own, where an item names no other.
ghost use Rattle.std.specs.Prelude.{◌≡◌, ◌<◌, ◌||◌, not, true, length, nat_le, is_some, find, Some};
ghost use Rattle.std.specs.List.{slice_get, filter_map};
ghost use Rattle.vq_model.specs.Plan.{chain as ops_of, initial, resolver};
ghost use Rattle.vq_point_laws.specs.Points.{is_pending};
ghost use Rattle.vq_turns.specs.Turns.{found, found_by, unbound_before, taken, has_reference_to};
ghost use Rattle.vq_turns.specs.Turns.{waiting_point, to_complete, to_free, collected};
ghost use Rattle.vq_core.specs.CoreState.{world};

use crate::state::Core;
use vq_spec::{Event, Op};
use vq_timeline_core::OpPlace;
use vq_turns::look::Found;

impl Core {
    /// What a look for a value of a chain finds: where the operation stands that resolves it. A value
    /// that isn't above the initial one is past.
    ///
    /// Source: this project's own, over Vulkan 1.3, "Semaphore Waiting".
    pub fn found(&self, chain: u32, value: u64) -> Found
        requires exists { chain < length self.now.plan.chains }
        requires resolved { (nat_le value (initial self.now.plan chain)
            || is_some (resolver self.now.plan chain value)) ≡ true }
        ensures { found self.now.plan (world self.now) chain value ≡ Some result }
    {
        if value <= self.plan().initial(chain) {
            return Found::Past;
        }
        let op = self.plan().resolver(chain, value).unwrap();
        self.standing(op)
    }

    /// Where an operation stands.
    fn standing(&self, op: u32) -> Found
        requires { op < length self.now.plan.ops }
        ensures { found_by (world self.now) (Some op) ≡ Some result }
    {
        let Op { chain, index, .. } = self.op(op);
        match self.timeline(chain).place_of(index) {
            OpPlace::Past => Found::Past,
            OpPlace::Pending { point } => Found::Pending { op, point },
            OpPlace::Taken { .. } => Found::NotYet { op },
            OpPlace::Without => Found::NotYet { op },
        }
    }

    /// The operation at an index of a chain.
    fn op_at(&self, chain: u32, index: u32) -> u32
        requires exists { chain < length self.now.plan.chains }
        requires within { index < length (ops_of self.now.plan chain) }
        ensures { slice_get (ops_of self.now.plan chain) index ≡ Some result }
    {
        self.plan().chain(chain)[index as usize]
    }

    /// The least operation before this one in its chain that isn't bound, if there is one: until then
    /// this one can't be bound.
    pub fn unbound_before(&self, op: u32) -> Option<u32>
        requires { op < length self.now.plan.ops }
        ensures { result ≡ unbound_before self.now.plan (world self.now) op }
    {
        let Op { chain, index, .. } = self.op(op);
        let bound = self.timeline(chain).bound();
        if bound >= index {
            return None;
        }
        Some(self.op_at(chain, bound))
    }

    /// The event that gives an operation of a chain a point: the free one that was freed last, or a new
    /// one, named by the number of points made, where none is free.
    pub fn next_taken(&self, op: u32, chain: u32) -> Event
        requires { chain < length self.now.plan.chains }
        ensures { result ≡ taken (world self.now) op chain }
    {
        match self.free_point(chain) {
            Some(point) => Event::Take {
                op,
                point,
                fresh: false,
            },
            None => Event::Take {
                op,
                point: self.points_made(),
                fresh: true,
            },
        }
    }

    /// The least pending operation of a chain.
    fn first_pending(&self, chain: u32) -> Option<u32>
        requires { chain < length self.now.plan.chains }
        ensures { result ≡ find (is_pending (world self.now)) (ops_of self.now.plan chain) }
    {
        let timeline = self.timeline(chain);
        let index = timeline.completed();
        if index >= timeline.bound() {
            return None;
        }
        Some(self.op_at(chain, index))
    }

    /// The least pending operation of a chain, if it is signaled.
    fn op_to_complete(&self, chain: u32) -> Option<u32>
        requires { chain < length self.now.plan.chains }
        ensures { result ≡ to_complete self.now.plan (world self.now) chain }
    {
        let op = self.first_pending(chain)?;
        if self.is_signaled(op) { Some(op) } else { None }
    }

    /// The first of these points to which no reference is held.
    fn first_unreferenced(&self, points: &[u32]) -> Option<u32>
        ensures { result ≡ find (λ q. not (has_reference_to (world self.now) q)) points.now }
    {
        for point in points {
            if !self.is_referenced(*point) {
                return Some(*point);
            }
        }
        None
    }

    /// The points of a chain that wait to be freed, in the order of their operations.
    fn waiting_points(&self, chain: u32) -> &[u32]
        requires { chain < length self.now.plan.chains }
        ensures { result.now ≡ filter_map (waiting_point (world self.now)) (ops_of self.now.plan chain) }
    {
        self.timelines[chain as usize].waiting_free()
    }

    /// The first point of a chain that waits to be freed and to which no reference is held.
    fn point_to_free(&self, chain: u32) -> Option<u32>
        requires { chain < length self.now.plan.chains }
        ensures { result ≡ to_free self.now.plan (world self.now) chain }
    {
        self.first_unreferenced(self.waiting_points(chain))
    }

    /// What may be collected on a chain: its least pending operation becomes past if it is signaled;
    /// else the first point is freed that waits for it and to which no reference is held, if there is
    /// one.
    pub fn next_collected(&self, chain: u32) -> Option<Event>
        requires { chain < length self.now.plan.chains }
        ensures { result ≡ collected self.now.plan (world self.now) chain }
    {
        if let Some(op) = self.op_to_complete(chain) {
            return Some(Event::Complete { op });
        }
        let point = self.point_to_free(chain)?;
        Some(Event::Free { point })
    }
}
