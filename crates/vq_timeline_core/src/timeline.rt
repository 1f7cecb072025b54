ghost use Rattle.std.specs.Prelude.{◌≡◌, ◌↔◌, ℕ, ◌^◌, ◌<◌, ◌≤◌, length, None, IsErr, IfOk};
ghost use Rattle.std.specs.Prelude.{IfErr, OnOk, OnErr};
ghost use Rattle.std.specs.List.{slice_get};
ghost use Rattle.std.specs.List.Sorted.{IsPartitionPoint};
ghost use Rattle.std.specs.Option.{option_map};
ghost use Rattle.vq_point_laws.specs.Timeline.{KeepsLists, new_timeline, point_at, past_value};
ghost use Rattle.vq_ground.specs.Lists.{AreRisingFrom};
ghost use Rattle.vq_point_laws.specs.Timeline.{pending_value, pending, first_pending, MayTake, after_take, MayBind};
ghost use Rattle.vq_point_laws.specs.Timeline.{next_unbound, after_bind, after_complete, MayFree, after_free};
ghost use Rattle.vq_timeline_core.specs.Answers.{taken_answer, found, place_of};

use crate::{Found, NotNext, OpPlace, Taken};
use std::alloc::{AllocError, Global};
use std::marker::Model;

/// The lists of one timeline. Its operations are those of a chain, numbered from 0, with values that
/// rise above the initial one. Each is given a point, then bound, in the order of the values, and then
/// completed, in the same order; its point waits to be freed and is used again. Points are named by
/// numbers that the caller chooses. All memory is taken by `new`. This project's own.
#[derive(Drop)]
pub struct TimelineCore {
    initial: u64,
    values: Vec<u64>,
    // The point of each operation, from its taking on.
    points: Vec<Option<u32>>,
    bound: u32,
    completed: u32,
    // In the order of completion.
    waiting: Vec<u32>,
    // The one freed last stands last.
    free: Vec<u32>,
    made: u32,
}

impl Model for TimelineCore {
    ghost use Rattle.vq_point_laws.specs.Timeline.{Timeline};

    ghost Value = { Timeline };

    ghost use Rattle.vq_timeline_core.specs.Lists.{lists_of, IsSound};

    ghost view = { lists_of };

    ghost invariant = { IsSound };
}

impl TimelineCore {
    /// A timeline whose operations have these values, with no points. It takes the memory for all that
    /// later calls keep. The error is that there is none.
    pub fn new(alloc: Global, initial: u64, values: &[u64]) -> Result<TimelineCore, AllocError>
        requires rising { AreRisingFrom initial values.now }
        requires few { length values.now < 2 ^ 32 }

        ensures made { IfOk result (λ t. t ≡ new_timeline initial values.now) }
        ensures kept { IfOk result KeepsLists }
    {
        let count = values.len();
        Ok(TimelineCore {
            initial,
            values: Vec::from_slice(alloc, values)?,
            points: vec![in alloc; None; count]?,
            bound: 0,
            completed: 0,
            waiting: Vec::with_capacity(alloc, count)?,
            free: Vec::with_capacity(alloc, count)?,
            made: 0,
        })
    }

    /// Gives a point to an operation that has none: the free point that was freed last, or, exactly
    /// where none is free, this fresh one.
    pub fn take(&mut self, index: u32, fresh: u32) -> Taken
        requires { MayTake self.old index fresh }

        ensures answer { result ≡ taken_answer self.old.free fresh }
        ensures after { self.new ≡ after_take self.old index fresh }
        ensures kept { KeepsLists self.new }
    {
        match self.free.pop() {
            Some(point) => {
                self.points[index as usize] = Some(point);
                Taken::Reused(point)
            }
            None => {
                self.points[index as usize] = Some(fresh);
                self.made += 1;
                Taken::Fresh(fresh)
            }
        }
    }

    /// Binds the point that is taken for an operation: it is pending from then on. The error comes
    /// exactly where an operation of smaller value isn't bound, with the least index that isn't, and
    /// nothing changes then.
    pub fn bind(&mut self, index: u32, point: u32) -> Result<(), NotNext>
        requires { MayBind self.old index point }

        ensures ok { OnOk result (self.new ≡ after_bind self.old) }
        ensures refused { IsErr result ↔ (next_unbound self.old < index) }
        ensures next { IfErr result (λ fault. fault.next ≡ next_unbound self.old) }
        ensures err { OnErr result (self.new ≡ self.old) }
        ensures kept { KeepsLists self.new }
    {
        if index != self.bound {
            return Err(NotNext { next: self.bound });
        }
        prove_eq!(self.points[index as usize], Some(point));
        self.bound += 1;
        Ok(())
    }

    /// Where a value stands: past, where it is at most the past value; else at the least pending
    /// operation whose value is at least this one; else not yet, exactly where it is above the value
    /// of the greatest bound operation.
    pub fn find(&self, value: u64) -> Found
        ensures answer { result ≡ found self.now value }
        ensures not_yet { (result ≡ Found.NotYet self.now.bound) ↔ (pending_value self.now < value) }
        ensures kept { KeepsLists self.now }
    {
        if value <= self.past() {
            return Found::Past {
                past: self.completed,
            };
        }
        let index = self.first_reaching(value);
        if index >= self.bound as usize {
            return Found::NotYet { bound: self.bound };
        }
        Found::Pending {
            index: index as u32,
            point: self.points[index].unwrap(),
        }
    }

    // The first operation whose value is at least this one, or how many there are if there is none.
    fn first_reaching(&self, value: u64) -> usize
        ensures { IsPartitionPoint (λ known. known < value) (λ known. value ≤ known) self.now.values result }
    {
        self.values.partition_point(|known| *known < value)
    }

    /// Completes the least pending operation: it is past from then on, and its point waits to be freed.
    pub fn complete_first(&mut self)
        requires { self.old.completed < self.old.bound }

        ensures after { self.new ≡ after_complete self.old }
        ensures kept { KeepsLists self.new }
    {
        let point = self.points[self.completed as usize].unwrap();
        self.completed += 1;
        self.waiting.push_reserved(point);
    }

    /// Frees a point that waits for it: it is the first to be used again.
    pub fn free(&mut self, point: u32)
        requires { MayFree self.old point }

        ensures after { self.new ≡ after_free self.old point }
        ensures kept { KeepsLists self.new }
    {
        self.waiting.retain(|waiting| *waiting != point);
        self.free.push_reserved(point);
    }

    /// The past value: that of the last completed operation, or the initial value where there is none.
    pub fn past(&self) -> u64
        ensures { result ≡ past_value self.now }
    {
        if self.completed == 0 {
            self.initial
        } else {
            self.values[self.completed as usize - 1]
        }
    }

    /// How many operations are pending: bound and not completed.
    pub fn pending(&self) -> u32
        ensures { result ≡ length (pending self.now) }
    {
        self.bound - self.completed
    }

    /// The least pending operation's index and point, if any operation is pending.
    pub fn first(&self) -> Option<(u32, u32)>
        ensures { result ≡ option_map (λ x. (x.index, x.point)) (first_pending self.now) }
    {
        if self.completed == self.bound {
            return None;
        }
        let point = self.points[self.completed as usize].unwrap();
        Some((self.completed, point))
    }

    /// The points that wait to be freed, in the order of completion.
    pub fn waiting_free(&self) -> &[u32]
        ensures { result.now ≡ self.now.waiting }
    {
        self.waiting.as_slice()
    }

    /// Where an operation stands.
    pub fn place_of(&self, index: u32) -> OpPlace
        requires { index < length self.now.values }

        ensures answer { result ≡ place_of self.now index }
        ensures without { (result ≡ OpPlace.Without)
            ↔ ((self.now.bound ≤ index) × (point_at self.now index ≡ None)) }
        ensures taken { (point : ℕ) → result ≡ OpPlace.Taken point → MayBind self.now index point }
        ensures kept { KeepsLists self.now }
    {
        if index < self.completed {
            return OpPlace::Past;
        }
        match self.points[index as usize] {
            None => OpPlace::Without,
            Some(point) if index < self.bound => OpPlace::Pending { point },
            Some(point) => OpPlace::Taken { point },
        }
    }

    /// How many points the timeline made: the fresh ones that were taken.
    pub fn made(&self) -> u32
        ensures { result ≡ self.now.made }
    {
        self.made
    }

    /// How many points are free.
    pub fn free_count(&self) -> u32
        ensures { result ≡ length self.now.free }
    {
        self.free.len() as u32
    }

    /// The free point that is used next: the one freed last, if any point is free.
    pub fn first_free(&self) -> Option<u32>
        ensures { result ≡ slice_get self.now.free 0 }
    {
        match self.free.last() {
            Some(point) => Some(*point),
            None => None,
        }
    }

    /// The point of an operation, if it has or had one.
    pub fn point_at(&self, index: u32) -> Option<u32>
        requires { index < length self.now.values }
        ensures { result ≡ point_at self.now index }
    {
        self.points[index as usize]
    }

    /// How many operations are bound.
    pub fn bound(&self) -> u32
        ensures { result ≡ self.now.bound }
    {
        self.bound
    }

    /// How many operations are completed.
    pub fn completed(&self) -> u32
        ensures { result ≡ self.now.completed }
    {
        self.completed
    }
}
