ghost use Rattle.std.specs.Prelude.{◌≡◌, ◌⊎◌, ◌↔◌, ◌∷◌, ◌++◌, ◌+◌, ◌<◌, ◌≤◌, [], ℕ, true, if◌then◌else◌, length};
ghost use Rattle.std.specs.Prelude.{slice_set, None, Some, IsErr, IfOk, IfErr, OnOk, OnErr, IfSome};
ghost use Rattle.std.specs.Vec.{vec_capacity, vec_len};
ghost use Rattle.std.specs.VecDeque.{deque_capacity, deque_len};
ghost use Rattle.std.specs.List.{slice_get};
ghost use Rattle.std.specs.List.Sorted.{IsPartitionPoint};
ghost use Rattle.vq_live.specs.Live.{opened, KeepsLive, pending_value, pending, slot_at, no_slot, is_idle, IsUnused};
ghost use Rattle.vq_live.specs.Calls.{signal_fault, after_signal, install_fault, after_install, found};
ghost use Rattle.vq_live.specs.Calls.{first_pending, after_complete, cancel_fault, after_cancel};
ghost use Rattle.vq_live.specs.Calls.{refer_answer, after_refer, after_unref};
ghost use Rattle.vq_live.specs.Calls.{take_fault, given_to, after_take, MayLack, LacksNumbers, LacksRoom, after_reserve, held_from};
ghost use Rattle.vq_live.specs.Runs.{Comes, taking, installing, completing, cancelling, referring, returning, signaling, reserving};
ghost use Rattle.vq_live.specs.Places.{IsPlace, IsTakenAt};

use crate::{
    CancelFault, Found, Given, Held, InstallFault, ReferFault, ReserveFault, SignalFault, Slot,
    TakeFault,
};
use std::alloc::{AllocError, Global};
use std::collections::VecDeque;
use std::marker::Model;

/// One live timeline, which learns its values as submissions come. An operation is given a point
/// (`take`), in whatever order; it is installed when its submission is made, and completed when its
/// work is done, both in the order of the values. Then its point is used again, once nobody holds it.
/// Points are numbers, under which the caller keeps its binary sync objects. No call but `take` needs
/// memory: each take that makes a fresh point has room for freeing it, so nothing else can lack any.
/// Room grows by doubling, and shrinks only when the timeline is dropped. This project's own.
#[derive(Drop)]
pub struct LiveTimeline {
    payload: u64,
    // The operations that aren't completed, by value: the installed ones, then those only taken.
    ops: VecDeque<Given>,
    installed: usize,
    slots: Vec<Slot>,
    // The one freed last stands last.
    free: Vec<u32>,
    // So many takes have their memory and their points' numbers already.
    reserved: usize,
}

impl Model for LiveTimeline {
    ghost use Rattle.vq_live.specs.Live.{Live};

    ghost Value = { Live };

    ghost use Rattle.vq_live.specs.Fields.{live_of, IsSound};

    ghost view = { live_of };

    ghost invariant = { IsSound };
}

impl LiveTimeline {
    /// A timeline that reached this value, with no points.
    pub fn new(alloc: Global, initial: u64) -> LiveTimeline
        ensures made { result ≡ opened initial }
        ensures kept { KeepsLive result }
    {
        LiveTimeline {
            payload: initial,
            ops: VecDeque::new(alloc),
            installed: 0,
            slots: Vec::new(alloc),
            free: Vec::new(alloc),
            reserved: 0,
        }
    }

    /// The value that the timeline reached.
    pub fn value(&self) -> u64
        ensures { result ≡ self.now.payload }
    {
        self.payload
    }

    /// The host sets a value, above the one reached and below each that is taken or pending.
    pub fn signal(&mut self, value: u64) -> Result<(), SignalFault>
        ensures ok { OnOk result (signal_fault self.old value ≡ None) }
        ensures err { IfErr result (λ fault. signal_fault self.old value ≡ Some fault) }
        ensures after { OnOk result (self.new ≡ after_signal self.old value) }
        ensures unchanged { OnErr result (self.new ≡ self.old) }
        ensures rises { self.old.payload ≤ self.new.payload }
        ensures came { OnOk result (Comes self.old (signaling value) self.new) }
        ensures kept { KeepsLive self.new }
    {
        if value <= self.payload {
            return Err(SignalFault::NotAbove {
                payload: self.payload,
            });
        }
        match self.ops.front() {
            Some(first) if first.value <= value => {
                return Err(SignalFault::Outstanding { first: first.value });
            }
            _ => {}
        }
        self.payload = value;
        Ok(())
    }

    /// Installs the operation that was taken for the least value: its submission is made, and it is
    /// pending from then on. An operation whose value isn't above the pending one was installed
    /// before, perhaps by a reader that helped, and is answered with `Already`.
    pub fn install(&mut self, given: Given) -> Result<(), InstallFault>
        ensures ok { OnOk result (install_fault self.old given ≡ None) }
        ensures err { IfErr result (λ fault. install_fault self.old given ≡ Some fault) }
        ensures after { OnOk result (self.new ≡ after_install self.old) }
        ensures unchanged { OnErr result (self.new ≡ self.old) }
        ensures rises { self.old.payload ≤ self.new.payload }
        ensures came { OnOk result (Comes self.old (installing given) self.new) }
        ensures kept { KeepsLive self.new }
    {
        if given.value <= self.pending_value() {
            return Err(InstallFault::Already);
        }
        match self.ops.get(self.installed) {
            None => Err(InstallFault::NothingTaken),
            Some(next) => {
                if next.value != given.value || next.point != given.point {
                    return Err(InstallFault::NotNext { next: *next });
                }
                self.installed += 1;
                Ok(())
            }
        }
    }

    /// Takes back an operation that is taken and not installed, since its submission failed, or the
    /// reset of its sync object. Its point is free unless it is held.
    pub fn cancel(&mut self, given: Given) -> Result<(), CancelFault>
        ensures ok { OnOk result (cancel_fault self.old given ≡ None) }
        ensures err { IfErr result (λ fault. cancel_fault self.old given ≡ Some fault) }
        ensures pending { pending self.new ≡ pending self.old }
        ensures after { OnOk result (self.new ≡ after_cancel self.old given) }
        ensures unchanged { OnErr result (self.new ≡ self.old) }
        ensures rises { self.old.payload ≤ self.new.payload }
        ensures came { OnOk result (Comes self.old (cancelling given) self.new) }
        ensures kept { KeepsLive self.new }
    {
        let place = self.taken_place(given)?;
        let _ = self.ops.remove(place);
        let refs = self.slots[given.point as usize].refs;
        let slot = Slot { refs, out: false };
        put(&mut self.slots, &mut self.free, given.point, slot);
        Ok(())
    }

    // Where a taken operation stands.
    fn taken_place(&self, given: Given) -> Result<usize, CancelFault>
        ensures ok { IfOk result (λ place. IsTakenAt self.now given place) }
        ensures err { IfErr result (λ fault. cancel_fault self.now given ≡ Some fault) }
    {
        if given.value <= self.pending_value() {
            return Err(CancelFault::Already);
        }
        let place = self.place_of(given.value);
        match self.ops.get(place) {
            None => Err(CancelFault::NotTaken),
            Some(found) => {
                if found.value != given.value || found.point != given.point {
                    return Err(CancelFault::NotTaken);
                }
                Ok(place)
            }
        }
    }

    /// Where a value stands: reached, or at the first pending operation whose value is at least this
    /// one, or at none yet.
    pub fn find(&self, value: u64) -> Found
        ensures { result ≡ found self.now value }
    {
        if value <= self.payload {
            return Found::Past;
        }
        let place = self.place_of(value);
        if place >= self.installed {
            return Found::NotYet;
        }
        Found::Pending {
            at: self.ops[place],
        }
    }

    // The first operation whose value is at least this one, or how many there are if there is none.
    fn place_of(&self, value: u64) -> usize
        ensures bound { result ≤ length self.now.ops }
        ensures parted { IsPartitionPoint (λ x. x.value < value) (λ x. value ≤ x.value) self.now.ops result }
    {
        self.ops.partition_point(|known| known.value < value)
    }

    /// The first pending operation, if any is: its point's sync is asked first.
    pub fn first(&self) -> Option<Given>
        ensures { result ≡ first_pending self.now }
    {
        if self.installed == 0 {
            return None;
        }
        match self.ops.front() {
            Some(first) => Some(*first),
            None => None,
        }
    }

    /// The taken operation of least value, if any is taken: the next to be installed.
    pub fn least_taken(&self) -> Option<Given>
        ensures { result ≡ slice_get self.now.ops self.now.installed }
    {
        match self.ops.get(self.installed) {
            Some(next) => Some(*next),
            None => None,
        }
    }

    /// Completes the first pending operation: its value is reached, and its point is free unless it is
    /// held.
    pub fn complete(&mut self) -> Option<Given>
        ensures answer { result ≡ first_pending self.old }
        ensures after { self.new ≡ after_complete self.old }
        ensures rises { self.old.payload ≤ self.new.payload }
        ensures came { IfSome result (λ given. Comes self.old (completing given) self.new) }
        ensures kept { KeepsLive self.new }
    {
        if self.installed == 0 {
            return None;
        }
        match self.ops.pop_front() {
            None => None,
            Some(first) => {
                self.installed -= 1;
                self.payload = first.value;
                let refs = self.slots[first.point as usize].refs;
                let slot = Slot { refs, out: false };
                put(&mut self.slots, &mut self.free, first.point, slot);
                Some(first)
            }
        }
    }

    /// Holds a point that carries an operation, so that it isn't used again before the reference is
    /// given back.
    pub fn refer(&mut self, point: u32) -> Result<Held, ReferFault>
        ensures answer { result ≡ refer_answer self.old point }
        ensures after { OnOk result (self.new ≡ after_refer self.old point) }
        ensures unchanged { OnErr result (self.new ≡ self.old) }
        ensures rises { self.old.payload ≤ self.new.payload }
        ensures held { OnOk result (0 < (slot_at self.new.slots point).refs) }
        ensures came { OnOk result (Comes self.old (referring point) self.new) }
        ensures kept { KeepsLive self.new }
    {
        match self.slots.get(point as usize) {
            Some(slot) if slot.out => {
                let refs = slot.refs;
                if refs == u32::MAX {
                    return Err(ReferFault::Full);
                }
                self.slots[point as usize] = Slot {
                    refs: refs + 1,
                    out: true,
                };
                Ok(Held { point })
            }
            _ => Err(ReferFault::NotOut),
        }
    }

    /// How many references to a point are held: none of a number that is no point's.
    pub fn refs(&self, point: u32) -> u32
        ensures { result ≡ (slot_at self.now.slots point).refs }
    {
        match self.slots.get(point as usize) {
            Some(slot) => slot.refs,
            None => 0,
        }
    }

    /// The point of least number that is held, if any is.
    pub fn first_held(&self) -> Option<u32>
        ensures { result ≡ held_from 0 self.now.slots }
    {
        for (i, slot) in self.slots.iter().enumerate() {
            if slot.refs != 0 {
                return Some(i as u32);
            }
        }
        None
    }

    /// Gives a reference back. The point is free if it was the last one and its operation is
    /// completed. The error hands the reference out again: nobody holds that point of this timeline,
    /// so the reference is of another one.
    pub fn unref(&mut self, held: Held) -> Result<(), Held>
        ensures refused { IsErr result ↔ ((slot_at self.old.slots held.point).refs ≡ 0) }
        ensures back { IfErr result (λ back. back ≡ held) }
        ensures after { OnOk result (self.new ≡ after_unref self.old held.point) }
        ensures unchanged { OnErr result (self.new ≡ self.old) }
        ensures rises { self.old.payload ≤ self.new.payload }
        ensures came { OnOk result (Comes self.old (returning held.point) self.new) }
        ensures kept { KeepsLive self.new }
    {
        let Held { point } = held;
        match self.slots.get(point as usize) {
            Some(slot) if slot.refs > 0 => {
                let left = Slot {
                    refs: slot.refs - 1,
                    out: slot.out,
                };
                put(&mut self.slots, &mut self.free, point, left);
                Ok(())
            }
            _ => Err(Held { point }),
        }
    }

    /// The value of the last installed operation, or the one reached where none is pending.
    pub fn pending_value(&self) -> u64
        ensures { result ≡ pending_value self.now }
    {
        if self.installed == 0 {
            self.payload
        } else {
            self.ops[self.installed - 1].value
        }
    }

    // Where an operation with this value is put, if it may be taken.
    fn place_for(&self, value: u64) -> Result<usize, TakeFault>
        ensures ok { IfOk result (λ place. IsPlace self.now value place) }
        ensures err { IfErr result (λ fault. take_fault self.now value ≡ Some fault) }
    {
        let pending = self.pending_value();
        if value <= pending {
            return Err(TakeFault::NotAbove { pending });
        }
        let place = self.place_of(value);
        if place == self.ops.len() {
            return Ok(place);
        }
        if self.ops[place].value == value {
            return Err(TakeFault::Twice);
        }
        Ok(place)
    }

    /// Why no point would be given to an operation with this value, memory and numbers of points aside.
    pub fn take_fault(&self, value: u64) -> Option<TakeFault>
        ensures { result ≡ take_fault self.now value }
    {
        match self.place_for(value) {
            Ok(_) => None,
            Err(fault) => Some(fault),
        }
    }

    /// Takes the memory of so many takes ahead, and sees that there are numbers for so many points: as many takes from
    /// here on lack neither. It stands in the place of what was reserved before, so to reserve none gives that up; the
    /// room stays.
    pub fn reserve(&mut self, count: usize) -> Result<(), ReserveFault>
        ensures ok { OnOk result (LacksNumbers self.old count → ⊥) }
        ensures err { IfErr result (LacksRoom self.old count) }
        ensures after { OnOk result (self.new ≡ after_reserve self.old count) }
        ensures unchanged { OnErr result (self.new ≡ self.old) }
        ensures came { OnOk result (Comes self.old (reserving count) self.new) }
        ensures kept { KeepsLive self.new }
    {
        if count > self.reserved {
            let made = self.slots.len();
            let fresh = count.saturating_sub(self.free.len());
            if fresh > u32::MAX as usize - made {
                return Err(ReserveFault::Full);
            }
            let freed = (made + fresh).saturating_sub(self.free.len());
            let full = make_room(
                &mut self.ops,
                &mut self.slots,
                &mut self.free,
                count,
                fresh,
                freed,
            );
            if full.is_err() {
                return Err(ReserveFault::NoMemory);
            }
        }
        self.reserved = count;
        Ok(())
    }

    /// Gives a point to an operation with this value: the free one that was freed last, or a fresh one
    /// where none is free. Takes needn't come in the order of the values: a value is refused only where
    /// it isn't above the pending one, or is taken already. All memory is taken here, or ahead by `reserve`.
    pub fn take(&mut self, value: u64) -> Result<Given, TakeFault>
        ensures ok { OnOk result (take_fault self.old value ≡ None) }
        ensures err { IfErr result (λ fault. (take_fault self.old value ≡ Some fault) ⊎ MayLack self.old fault) }
        ensures given { IfOk result (λ given. given ≡ given_to self.old value) }
        ensures unused { IfOk result (λ given. IsUnused given.point self.old.ops) }
        ensures unheld { IfOk result (λ given. slot_at self.old.slots given.point ≡ no_slot) }
        ensures pending { pending self.new ≡ pending self.old }
        ensures after { OnOk result (self.new ≡ after_take self.old value) }
        ensures unchanged { OnErr result (self.new ≡ self.old) }
        ensures rises { self.old.payload ≤ self.new.payload }
        ensures came { IfOk result (λ given. Comes self.old (taking given) self.new) }
        ensures kept { KeepsLive self.new }
    {
        let place = self.place_for(value)?;
        match self.free.last() {
            Some(last) => {
                let given = Given {
                    value,
                    point: *last,
                };
                match self.ops.insert(place, given) {
                    Err(_) => Err(TakeFault::NoMemory),
                    Ok(()) => {
                        let rest = self.free.len() - 1;
                        self.free.truncate(rest);
                        self.slots[given.point as usize] = Slot { refs: 0, out: true };
                        self.reserved = self.reserved.saturating_sub(1);
                        Ok(given)
                    }
                }
            }
            None => self.make(place, value),
        }
    }

    // Makes a fresh point for an operation, where none is free.
    fn make(&mut self, place: usize, value: u64) -> Result<Given, TakeFault>
        requires place { IsPlace self.old value place }
        requires none { self.old.free ≡ [] }

        ensures err { IfErr result (MayLack self.old) }
        ensures given { IfOk result (λ given. given ≡ given_to self.old value) }
        ensures unused { IfOk result (λ given. IsUnused given.point self.old.ops) }
        ensures unheld { IfOk result (λ given. slot_at self.old.slots given.point ≡ no_slot) }
        ensures pending { pending self.new ≡ pending self.old }
        ensures after { OnOk result (self.new ≡ after_take self.old value) }
        ensures unchanged { OnErr result (self.new ≡ self.old) }
        ensures kept { KeepsLive self.new }
    {
        let count = self.slots.len();
        if count >= u32::MAX as usize {
            return Err(TakeFault::Full);
        }
        match self.slots.reserve(1) {
            Err(_) => Err(TakeFault::NoMemory),
            Ok(()) => match self.free.reserve(count + 1) {
                Err(_) => Err(TakeFault::NoMemory),
                Ok(()) => {
                    let given = Given {
                        value,
                        point: count as u32,
                    };
                    match self.ops.insert(place, given) {
                        Err(_) => Err(TakeFault::NoMemory),
                        Ok(()) => {
                            self.slots.push_reserved(Slot { refs: 0, out: true });
                            self.reserved = self.reserved.saturating_sub(1);
                            Ok(given)
                        }
                    }
                }
            },
        }
    }
}

// Makes room for so many operations, so many fresh points, and for freeing so many.
fn make_room(
    ops: &mut VecDeque<Given>,
    slots: &mut Vec<Slot>,
    free: &mut Vec<u32>,
    count: usize,
    fresh: usize,
    freed: usize,
) -> Result<(), AllocError>
    ensures ops { ops.new.items ≡ ops.old.items }
    ensures ops_len { deque_len ops.new ≡ deque_len ops.old }
    ensures ops_room { deque_capacity ops.old ≤ deque_capacity ops.new }
    ensures in_ops { OnOk result (deque_len ops.old + count ≤ deque_capacity ops.new) }

    ensures slots { slots.new.items ≡ slots.old.items }
    ensures slots_len { vec_len slots.new ≡ vec_len slots.old }
    ensures slots_room { vec_capacity slots.old ≤ vec_capacity slots.new }
    ensures in_slots { OnOk result (vec_len slots.old + fresh ≤ vec_capacity slots.new) }

    ensures free { free.new.items ≡ free.old.items }
    ensures free_len { vec_len free.new ≡ vec_len free.old }
    ensures free_room { vec_capacity free.old ≤ vec_capacity free.new }
    ensures in_free { OnOk result (vec_len free.old + freed ≤ vec_capacity free.new) }
{
    ops.reserve(count)?;
    slots.reserve(fresh)?;
    free.reserve(freed)?;
    Ok(())
}

// What a point's slot becomes. The point is free where it is idle now.
fn put(slots: &mut Vec<Slot>, free: &mut Vec<u32>, point: u32, slot: Slot)
    requires exists { point < length slots.old.items }
    requires room { is_idle slot ≡ true → vec_len free.old < vec_capacity free.old }

    ensures slots { slots.new.items ≡ slice_set slots.old.items point slot }
    ensures free { free.new.items ≡ (if is_idle slot then free.old.items ++ point ∷ [] else free.old.items) }
    ensures capacity { vec_capacity free.new ≡ vec_capacity free.old }
    ensures slots_capacity { vec_capacity slots.new ≡ vec_capacity slots.old }
    ensures more { length free.old.items ≤ length free.new.items }
{
    slots[point as usize] = slot;
    if slot.refs == 0 && !slot.out {
        free.push_reserved(point);
    }
}
