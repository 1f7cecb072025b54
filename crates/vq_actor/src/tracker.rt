//! An actor's place, as the access that serves the actor keeps it.
//!
//! Source: this project's own, where an item names no other.
ghost use Rattle.std.specs.Prelude.{◌≡◌, ◌<◌, ◌-◌, ◌^◌, [], None, true, All, map, length, IfOk};
ghost use Rattle.std.specs.List.{range_with_len};
ghost use Rattle.std.specs.Option.{option_map};
ghost use Rattle.vq_turns.specs.Turns.{first_place, forward, held_for, holding_also, seeing};
ghost use Rattle.vq_actor.specs.Answers.{answered};
ghost use Rattle.vq_actor.specs.Positions.{HasRoom, IsFirstOf, compares, holding_of, needs_of};
ghost use Rattle.vq_actor.specs.Waits.{given_back, looked_at, met_at};
ghost use Rattle.vq_actor.specs.Trackers.{FitsIn};

use crate::held::{Held, first_held};
use std::alloc::{AllocError, Global};
use std::marker::Model;
use vq_turns::look::Seen;
use vq_turns::task::Task;

/// An actor's place in its program: how many tasks are done, and what is kept for the next one. The access that
/// serves the actor keeps it, and no one else does. No call takes memory; each says how the place changes, and
/// what has to have room for that. Where the waiting for needs has ended, a reference is still held.
#[derive(Drop)]
pub struct Tracker {
    done: usize,
    /// For each need of the next task, the reference that is held for it.
    held: Vec<Option<Held>>,
    /// Whether the waiting has ended, and the references are given back.
    met: bool,
    /// What was compared for the next answer.
    seen: Vec<Seen>,
}

impl Model for Tracker {
    ghost use Rattle.std.specs.Prelude.{length};
    ghost use Rattle.std.specs.Vec.{vec_capacity};
    ghost use Rattle.vq_actor.specs.Trackers.{Tracked};

    ghost Value = { Tracked };

    ghost use Rattle.vq_actor.specs.Positions.{IsSound, holding_from};

    ghost view = { λ a. record {
      place = record { done = a.done; holding = holding_from 0 a.held.items; met = a.met; seen = a.seen.items };
      slots = length a.held.items;
      room = vec_capacity a.seen;
    } };

    ghost invariant = { λ a. IsSound a.met a.held.items };
}

impl Tracker {
    /// The place before the first of these tasks, with room for all that they may add.
    pub(crate) fn at_first(alloc: Global, tasks: &[Task]) -> Result<Tracker, AllocError>
        ensures place { IfOk result (λ t. t.place ≡ first_place) }
        ensures fits { IfOk result (λ t. FitsIn tasks.now t) }
    {
        let held = no_references(alloc, most_needs(tasks))?;
        let seen = Vec::with_capacity(alloc, count_compares(tasks))?;
        Ok(Tracker {
            done: 0,
            held,
            met: false,
            seen,
        })
    }

    /// How many tasks are done.
    pub(crate) fn done(&self) -> usize
        ensures { result ≡ self.now.place.done }
    {
        self.done
    }

    /// Whether the waiting of the next task has ended, and what is held is given back.
    pub(crate) fn met(&self) -> bool
        ensures is { result ≡ self.now.place.met }
        ensures sound { result ≡ true → self.now.place.holding ≡ [] → ⊥ }
    {
        self.met
    }

    /// The reference that is held for a need of the next task.
    pub(crate) fn held(&self, need: usize) -> Option<Held>
        ensures { held_for need self.now.place.holding ≡ option_map (holding_of need) result }
    {
        let held = self.held.as_slice();
        if need < held.len() { held[need] } else { None }
    }

    /// The first reference that is held.
    pub(crate) fn first(&self) -> Option<Held>
        ensures { IsFirstOf self.now.place.holding result }
    {
        match first_held(self.held.as_slice()) {
            Some((_, reference)) => Some(reference),
            None => None,
        }
    }

    /// What was compared for the next answer.
    pub(crate) fn seen(&self) -> &[Seen]
        ensures { result.now ≡ self.now.place.seen }
    {
        self.seen.as_slice()
    }

    /// One task more is done.
    pub fn forward(&mut self)
        requires { self.old.place.done < 2 ^ 64 - 1 }
        ensures { self.new ≡ record self.old { place = forward self.old.place } }
    {
        self.done += 1;
    }

    /// A reference is held for a need of the next task.
    pub fn refer(&mut self, need: usize, point: u32, op: u32)
        requires slot { need < self.old.slots }
        requires free { held_for need self.old.place.holding ≡ None }
        ensures { self.new ≡ record self.old { place = holding_also self.old.place need op point } }
    {
        self.held[need] = Some(Held { point, op });
    }

    /// A reference was looked at with success: the waiting has ended.
    pub fn meet(&mut self)
        requires { self.old.place.holding ≡ [] → ⊥ }
        ensures { self.new ≡ record self.old { place = looked_at self.old.place } }
    {
        self.met = true;
    }

    /// A need was found past: the waiting has ended, and where nothing is held the task is done.
    pub fn pass(&mut self)
        requires { self.old.place.done < 2 ^ 64 - 1 }
        ensures { self.new ≡ record self.old { place = met_at self.old.place self.old.place.holding } }
    {
        match first_held(self.held.as_slice()) {
            Some(_) => self.met = true,
            None => self.done += 1,
        }
    }

    /// The first reference was given back. The task is done with the last one.
    pub fn give_back(&mut self)
        requires { self.old.place.done < 2 ^ 64 - 1 }
        ensures { self.new ≡ record self.old { place = given_back self.old.place self.old.place.holding } }
    {
        let Some((need, _)) = first_held(self.held.as_slice()) else {
            return;
        };
        self.held[need] = None;
        match first_held(self.held.as_slice()) {
            Some(_) => self.met = true,
            None => {
                self.done += 1;
                self.met = false;
            }
        }
    }

    /// A value was compared with a chain's past value: the task is done.
    pub fn see(&mut self, wanted: u64, past: u64)
        requires short { self.old.place.done < 2 ^ 64 - 1 }
        requires room { length self.old.place.seen < self.old.room }
        ensures { self.new ≡ record self.old { place = seeing self.old.place wanted past } }
    {
        self.seen.push_reserved(Seen { wanted, past });
        self.done += 1;
    }

    /// What was compared was answered: the task is done.
    pub fn answer(&mut self)
        requires { self.old.place.done < 2 ^ 64 - 1 }
        ensures { self.new ≡ record self.old { place = answered self.old.place } }
    {
        self.seen.clear();
        self.done += 1;
    }
}

/// The most needs of a task.
fn most_needs(tasks: &[Task]) -> usize
    ensures { All (HasRoom result) tasks.now }
{
    let mut most = 0;
    for task in tasks {
        most = most.max(needs_of(task));
    }
    most
}

/// How many needs a task waits for.
fn needs_of(task: &Task) -> usize
    ensures { result ≡ needs_of task.now }
{
    match task {
        Task::AwaitNeeds { needs } => needs.len(),
        _ => 0,
    }
}

/// No reference for each of so many needs.
fn no_references(alloc: Global, needs: usize) -> Result<Vec<Option<Held>>, AllocError>
    ensures { IfOk result (λ held. held.items ≡ map (λ k. None) (range_with_len 0 needs)) }
{
    let mut held = Vec::with_capacity(alloc, needs)?;
    for _ in 0..needs {
        held.push(None)?;
    }
    Ok(held)
}

/// How many tasks compare a value.
fn count_compares(tasks: &[Task]) -> usize
    ensures { result ≡ compares tasks.now }
{
    let mut count = 0;
    for task in tasks {
        if let Task::Compare { .. } = task {
            count += 1;
        }
    }
    count
}
