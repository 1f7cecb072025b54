//! The access round a board.
//!
//! Source: this project's own, where an item names no other.
use crate::asking::Lists;
use crate::post::Post;
use vq_actor::{Access, Step, Tracker};
use vq_model::plan::{Answer, Event};
use vq_model::script::ActorName;
use vq_order::Ordered;
use vq_turns::look::Found;

/// An access of one actor over a board, for one turn. It makes the actor's events by steps of the pass that serves
/// the actor, and waits for nothing but the lock of a timeline, if its lists wait for that.
#[derive(Drop)]
pub struct BoardAccess<'a, 'b, L> {
    pub(crate) lists: &'a L,
    pub(crate) post: &'a mut Post<'b>,
}

impl<'a, 'b, L: Lists> Access for BoardAccess<'a, 'b, L> {
    ghost use Rattle.vq_access.specs.Posts.{held_by, meaning as post_meaning, shows as post_shows};

    ghost meaning = { λ x. held_by x.post.ghost_name (post_meaning x.post.now) };

    ghost shows = { λ x. post_shows x.post.now };

    fn ordered(&self) -> &Ordered {
        self.post.ordered
    }

    fn place(&self) -> &Tracker {
        self.post.place()
    }

    fn submitted(&mut self, job: u32) -> bool {
        self.post.submitted(job)
    }

    fn released(&mut self, job: u32) -> bool {
        self.post.released(job)
    }

    fn finished(&mut self, job: u32) -> bool {
        self.post.finished(job)
    }

    fn bound(&mut self, op: u32) -> bool {
        self.post.bound(op)
    }

    fn find(&mut self, need: usize, chain: u32, value: u64) -> Found {
        self.post.find(need, chain, value)
    }

    fn past(&mut self, chain: u32, wanted: u64) -> u64 {
        self.post.past(chain, wanted)
    }

    fn submit(&mut self, job: u32) -> Event {
        self.post.submit(job)
    }

    fn collect(&mut self, chain: u32) -> Option<Event> {
        self.post.collect(self.lists, chain)
    }

    fn take(&mut self, op: u32) -> Step {
        self.post.take(self.lists, op)
    }

    fn release(&mut self, job: u32) -> Step {
        self.post.release(self.lists, job)
    }

    fn bind(&mut self, op: u32) -> Step {
        self.post.bind(self.lists, op)
    }

    fn refer(&mut self, actor: ActorName, point: u32, op: u32) -> Step {
        self.post.refer(actor, point, op)
    }

    fn look(&mut self, actor: ActorName, point: u32, op: u32) -> Step {
        self.post.look(actor, point, op)
    }

    fn unrefer(&mut self, actor: ActorName, point: u32, op: u32) -> Step {
        self.post.unrefer(actor, point, op)
    }

    fn start(&mut self, job: u32) -> Event {
        self.post.start(job)
    }

    fn apply(&mut self, job: u32, command: u32) -> Step {
        self.post.apply(job, command)
    }

    fn signal(&mut self, op: u32) -> Step {
        self.post.signal(op)
    }

    fn finish(&mut self, job: u32) -> Event {
        self.post.finish(job)
    }

    fn answer(&mut self, job: u32, answer: Answer) -> Event {
        self.post.answer(job, answer)
    }
}
