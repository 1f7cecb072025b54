//! Cells: bytes that each command covers whole or not at all.
ghost use Rattle.std.specs.Prelude.{◌≡◌, ◌↔◌, true, false, IsTrue, None, [], IfOk, OnOk};
ghost use Rattle.vq_order.specs.Swept.{is_write, AtOrBefore, IsEarlier, IsOfJob, MayTouch, Touches};
ghost use Rattle.vq_order.specs.Swept.{AreKnown, IsAfterSome, IsAfterAll, IsKnown, KeepsLater};

use crate::races::accesses::Visitor;
use std::alloc::{AllocError, Global};
use vq_clocks::Clocked;

/// What a command does with a cell.
#[derive(Clone, Copy)]
pub(crate) enum Touch {
    Reads,
    Writes,
}

/// Why going through commands stops.
#[derive(Drop)]
pub(crate) enum Halt {
    /// This command comes after one that it conflicts with and that isn't before it.
    Conflict(u32),
    /// There are more cells to go through than comparing all pairs of commands is worth.
    TooMany,
    /// Want of memory.
    Memory(AllocError),
}

impl From<AllocError> for Halt {
    fn from(error: AllocError) -> Halt {
        Halt::Memory(error)
    }
}

/// The last command that wrote a cell, and commands that have read it since: one of them comes
/// after, or is, each command that has.
#[derive(Drop)]
pub(crate) struct Cell {
    pub(crate) writer: Option<Visitor>,
    pub(crate) readers: Vec<Visitor>,
}

/// Whether a command is another one or an earlier one of its job, or happens before it.
pub(crate) fn is_at_or_before(order: &Clocked, a: Visitor, b: Visitor) -> bool
    requires first { IsOfJob order.now a }
    requires second { IsOfJob order.now b }
    ensures { IsTrue result ↔ AtOrBefore order.now a b }
{
    is_earlier(a, b) || order.before_command(a.job, b.job, b.command)
}

/// Whether a command is another one, or an earlier one of its job.
fn is_earlier(a: Visitor, b: Visitor) -> bool
    ensures { IsTrue result ↔ IsEarlier a b }
{
    a.job == b.job && a.command <= b.command
}

/// While a command goes through cells: up to which command of its job the last writer that was asked
/// about comes before it, and so for the last reader; at first the command itself. Neighbouring cells
/// were mostly touched by the same jobs.
#[derive(Clone, Copy)]
pub(crate) struct Known {
    pub(crate) writer: Visitor,
    pub(crate) reader: Visitor,
}

/// Whether a command comes before the one that goes through cells, or is that one. The clocks are
/// asked only where it isn't known.
#[inline(always)]
fn is_before(order: &Clocked, a: Visitor, by: Visitor, known: &mut Visitor) -> bool
    requires first { IsOfJob order.now a }
    requires second { IsOfJob order.now by }
    requires known { IsKnown order.now known.old by }
    ensures before { IsTrue result → AtOrBefore order.now a by }
    ensures known { IsKnown order.now known.new by }
{
    if is_earlier(a, *known) {
        return true;
    }
    is_found_before(order, a, by, known)
}

/// Whether a command that isn't known comes before the one that goes through cells, or is that one.
/// The clocks say it of all commands of a job at once, so all of them are known from there on.
#[inline(never)]
fn is_found_before(order: &Clocked, a: Visitor, by: Visitor, known: &mut Visitor) -> bool
    requires first { IsOfJob order.now a }
    requires second { IsOfJob order.now by }
    requires known { IsKnown order.now known.old by }
    ensures before { IsTrue result → AtOrBefore order.now a by }
    ensures known { IsKnown order.now known.new by }
{
    if is_earlier(a, by) {
        *known = by;
        return true;
    }
    if !order.before_command(a.job, by.job, by.command) {
        return false;
    }
    *known = Visitor {
        job: a.job,
        command: u32::MAX,
    };
    true
}

impl Cell {
    /// A cell that nothing has touched.
    pub(crate) fn new(alloc: Global) -> Cell
        ensures writer { result.writer ≡ None }
        ensures readers { result.readers.items ≡ [] }
    {
        Cell {
            writer: None,
            readers: Vec::new(alloc),
        }
    }

    /// Reads or writes a cell. The error is a conflict with what touched it before, or want of
    /// memory.
    pub(crate) fn touch(
        &mut self,
        alloc: Global,
        order: &Clocked,
        by: Visitor,
        touch: Touch,
        known: &mut Known,
    ) -> Result<(), Halt>
        requires may { MayTouch order.now self.old by }
        requires known { AreKnown order.now known.old by }
        ensures touches { OnOk result (Touches order.now by (is_write touch) self.old self.new) }
        ensures known { AreKnown order.now known.new by }
    {
        match touch {
            Touch::Reads => self.read(alloc, order, by, known),
            Touch::Writes => self.write(order, by, known),
        }
    }

    /// Reads a cell.
    fn read(
        &mut self,
        alloc: Global,
        order: &Clocked,
        by: Visitor,
        known: &mut Known,
    ) -> Result<(), Halt>
        requires may { MayTouch order.now self.old by }
        requires known { AreKnown order.now known.old by }
        ensures touches { OnOk result (Touches order.now by false self.old self.new) }
        ensures known { AreKnown order.now known.new by }
    {
        if !self.follows_writer(order, by, &mut known.writer) {
            return Err(Halt::Conflict(by.command));
        }
        self.keep_reader(alloc, order, by, &mut known.reader)?;
        Ok(())
    }

    /// Keeps one reader more. Those that come before it go.
    fn keep_reader(
        &mut self,
        alloc: Global,
        order: &Clocked,
        by: Visitor,
        known: &mut Visitor,
    ) -> Result<(), AllocError>
        requires may { MayTouch order.now self.old by }
        requires known { IsKnown order.now known.old by }
        ensures kept { OnOk result
            (KeepsLater order.now self.old.readers.items by self.new.readers.items) }
        ensures writer { OnOk result (self.new.writer ≡ self.old.writer) }
        ensures known { IsKnown order.now known.new by }
    {
        // Most often all of them go, and their room is there.
        if !self.follows_readers(order, by, known) {
            return self.keep_later(alloc, order, by);
        }
        self.readers.clear();
        self.readers.push(by)?;
        Ok(())
    }

    /// Writes a cell.
    fn write(&mut self, order: &Clocked, by: Visitor, known: &mut Known) -> Result<(), Halt>
        requires may { MayTouch order.now self.old by }
        requires known { AreKnown order.now known.old by }
        ensures touches { OnOk result (Touches order.now by true self.old self.new) }
        ensures known { AreKnown order.now known.new by }
    {
        if !self.follows_writer(order, by, &mut known.writer) {
            return Err(Halt::Conflict(by.command));
        }
        if !self.follows_readers(order, by, &mut known.reader) {
            return Err(Halt::Conflict(by.command));
        }
        self.writer = Some(by);
        self.readers.clear();
        Ok(())
    }

    /// Whether a command comes after the last one that wrote the cell, if there is one.
    fn follows_writer(&self, order: &Clocked, by: Visitor, known: &mut Visitor) -> bool
        requires may { MayTouch order.now self.now by }
        requires known { IsKnown order.now known.old by }
        ensures after { IsTrue result → IsAfterSome order.now self.now.writer by }
        ensures known { IsKnown order.now known.new by }
    {
        match self.writer {
            Some(writer) => is_before(order, writer, by, known),
            None => true,
        }
    }

    /// Whether a command comes after all that have read the cell since.
    fn follows_readers(&self, order: &Clocked, by: Visitor, known: &mut Visitor) -> bool
        requires may { MayTouch order.now self.now by }
        requires known { IsKnown order.now known.old by }
        ensures after { IsTrue result → IsAfterAll order.now self.now.readers.items by }
        ensures known { IsKnown order.now known.new by }
    {
        for reader in self.readers.as_slice() {
            if !is_before(order, *reader, by, known) {
                return false;
            }
        }
        true
    }

    /// Keeps one reader more, beside those that don't come before it.
    #[inline(never)]
    fn keep_later(&mut self, alloc: Global, order: &Clocked, by: Visitor) -> Result<(), AllocError>
        requires may { MayTouch order.now self.old by }
        ensures kept { OnOk result
            (KeepsLater order.now self.old.readers.items by self.new.readers.items) }
        ensures writer { OnOk result (self.new.writer ≡ self.old.writer) }
    {
        self.readers = self.with_reader(alloc, order, by)?;
        Ok(())
    }

    /// The readers with one more, without those that come before it.
    fn with_reader(
        &self,
        alloc: Global,
        order: &Clocked,
        by: Visitor,
    ) -> Result<Vec<Visitor>, AllocError>
        requires { MayTouch order.now self.now by }
        ensures { IfOk result (λ kept. KeepsLater order.now self.now.readers.items by kept.items) }
    {
        let mut kept = Vec::new(alloc);
        for reader in self.readers.as_slice() {
            if !is_at_or_before(order, *reader, by) {
                kept.push(*reader)?;
            }
        }
        kept.push(by)?;
        Ok(kept)
    }
}
