ghost use Rattle.std.specs.Prelude.{◌≡◌};

/// An operation that was given a point: the value that it signals, and the point. A take hands it out,
/// and an install or a cancel asks it back. This project's own, as are the types below.
#[derive(Clone, Copy, PartialEq, Eq, Debug)]
pub struct Given {
    pub value: u64,
    pub point: u32,
}

/// What the timeline keeps of a point: how many references are held, and whether the point is out, so
/// carries an operation that isn't completed.
#[derive(Clone, Copy, PartialEq, Eq, Debug)]
pub struct Slot {
    pub refs: u32,
    pub out: bool,
}

/// Why no point was given: the value isn't above the pending one; or a point is taken for it; or all
/// numbers of points are used and none is free; or there is no memory.
#[derive(Clone, Copy, PartialEq, Eq, Debug)]
pub enum TakeFault {
    NotAbove { pending: u64 },
    Twice,
    Full,
    NoMemory,
}

/// Why nothing was reserved: there aren't numbers enough for so many fresh points; or there is no memory.
#[derive(Clone, Copy, PartialEq, Eq, Debug)]
pub enum ReserveFault {
    Full,
    NoMemory,
}

/// Why a point wasn't installed: the value isn't above the pending one, so it was installed before,
/// perhaps by a reader that helped; or nothing is taken; or the operation isn't the one that was taken
/// for the least value, which is named.
#[derive(Clone, Copy, PartialEq, Eq, Debug)]
pub enum InstallFault {
    Already,
    NothingTaken,
    NotNext { next: Given },
}

/// Why an operation can't be taken back: the value isn't above the pending one, so it was installed;
/// or the point isn't taken for this value.
#[derive(Clone, Copy, PartialEq, Eq, Debug)]
pub enum CancelFault {
    Already,
    NotTaken,
}

/// Why a point can't be held: it carries no operation, or its count of references is full.
#[derive(Clone, Copy, PartialEq, Eq, Debug)]
pub enum ReferFault {
    NotOut,
    Full,
}

/// Why the host can't set a value: the timeline reached it; or the first operation, which is taken or
/// pending, has a value that isn't above it.
#[derive(Clone, Copy, PartialEq, Eq, Debug)]
pub enum SignalFault {
    NotAbove { payload: u64 },
    Outstanding { first: u64 },
}

/// Where a value stands: reached; at the first pending operation whose value is at least this one;
/// or at no pending operation yet.
#[derive(Clone, Copy, PartialEq, Eq, Debug)]
pub enum Found {
    Past,
    Pending { at: Given },
    NotYet,
}

/// A reference to a point. Only an unref takes it: it can't be copied, made up or dropped. Where it crosses to a caller
/// who keeps numbers, as one in C does, it becomes its point's number and is made of it again.
pub struct Held {
    pub(crate) point: u32,
}

impl Held {
    /// The point that is held.
    pub fn point(&self) -> u32
        ensures { result ≡ self.now.point }
    {
        self.point
    }

    /// The number of the point, which stands for the reference from now on. The caller answers for it
    /// that the timeline gets an unref of what `from_point` makes of it; else the point stays held.
    pub unsafe fn into_point(self) -> u32
        ensures { result ≡ self.point }
    {
        let Held { point } = self;
        point
    }

    /// The reference again that a number stands for. The caller answers for it that the number came of
    /// `into_point` and is used once; else the timeline may free a point that somebody else holds, or
    /// refuse the unref.
    pub unsafe fn from_point(point: u32) -> Held
        ensures { result.point ≡ point }
    {
        Held { point }
    }
}
