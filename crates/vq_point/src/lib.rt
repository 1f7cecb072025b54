//! The word of a point: 64 bits that say which operation the point carries, how many references it has,
//! whether its binary sync is signaled and whether it is held.
#![tactic(auto)]

ghost use Rattle.std.specs.Prelude.{◌≡◌, ◌≢◌, ◌↔◌, ◌⊎◌, ◌*◌, ◌/◌, ◌%◌, ◌^◌};
ghost use Rattle.std.specs.Prelude.{◌<◌, ◌≤◌, ◌==◌, Some, IsNone, IfSome};
ghost use Rattle.std.specs.Prelude.{◌&&◌, true, false};
ghost use Rattle.vq_point_laws.specs.PointWord.{parts};
ghost use Rattle.vq_point.specs.Word.{bits_of, parts_of};

// The layout: bits 0 to 31 are the operation, and the other parts begin at these bits.
const REFS: u32 = 32;

const SIGNALED: u32 = 48;

const HELD: u32 = 49;
// No bit is set from here on.
const END: u32 = 50;

/// One reference, in the word of a point.
pub const REFERENCE: u64 = 1 << REFS;

/// The bit of a point's word that says whether it is signaled.
pub const SIGNAL: u64 = 1 << SIGNALED;

/// The bit of a point's word that says whether it carries an operation.
pub const CARRYING: u64 = 1 << HELD;

/// What the word of a point says: the operation that it carries, how many references to it there are,
/// whether its binary sync is signaled, and whether the point is held. This project's own.
#[derive(Clone, Copy, PartialEq, Eq, Debug)]
pub struct PointWord {
    pub op: u32,
    pub refs: u16,
    pub signaled: bool,
    pub held: bool,
}

impl PointWord {
    /// The word in 64 bits: 0 to 31 are the operation, 32 to 47 the references, 48 whether it is
    /// signaled, 49 whether it is held, and the rest are 0. A word that isn't held says nothing else.
    pub fn pack(self) -> u64
        requires { self.held ≡ false → (self.op ≡ 0) × (self.refs ≡ 0) × (self.signaled ≡ false) }

        ensures layout { result ≡ bits_of self }
        ensures undone { parts_of result ≡ Some self }
    {
        u64::from(self.op)
            | u64::from(self.refs) << REFS
            | u64::from(self.signaled) << SIGNALED
            | u64::from(self.held) << HELD
    }
}

/// The parts of a point's word. It is `None` exactly where a bit of 50 to 63 is set, or where bit 49 is
/// clear and the word isn't 0: such bits are no point's word.
pub fn unpack(word: u64) -> Option<PointWord>
    ensures parts { result ≡ parts_of word }
    ensures undone { IfSome result (λ w. bits_of w ≡ word) }
    ensures refused { IsNone result ↔ ((2 ^ 50 ≤ word) ⊎ ((word / 2 ^ 49 % 2 ≡ 0) × (word ≢ 0))) }
{
    if word >> END != 0 || (!is_set(word, HELD) && word != 0) {
        return None;
    }
    Some(decoded(word))
}

/// The parts of a word that is known to be a point's.
pub fn decoded(word: u64) -> PointWord
    requires small { word < 2 ^ 50 }
    requires held { ((parts word).held ≡ true) ⊎ (word ≡ 0) }
    ensures undone { bits_of result ≡ word }
    ensures parts { parts word ≡ record {
      op = result.op;
      refs = result.refs;
      signaled = result.signaled;
      held = result.held;
    } }
{
    PointWord {
        op: carried(word),
        refs: references(word),
        signaled: is_set(word, SIGNALED),
        held: is_set(word, HELD),
    }
}

/// How many references there are to a point with this word.
pub fn references(word: u64) -> u16
    ensures { result ≡ (parts word).refs }
{
    (word >> REFS & u64::from(u16::MAX)) as u16
}

/// Whether a point with this word carries the operation.
pub fn carries(word: u64, op: u32) -> bool
    ensures { result ≡ ((parts word).held && ((parts word).op == op)) }
{
    is_set(word, HELD) && carried(word) == op
}

// The operation that a word names.
fn carried(word: u64) -> u32
    ensures { result ≡ (parts word).op }
{
    (word & u64::from(u32::MAX)) as u32
}

// Whether a bit of a word is set.
fn is_set(word: u64, bit: u32) -> bool
    requires { bit < 64 }
    ensures { result ≡ (word / 2 ^ bit % 2 == 1) }
{
    word >> bit & 1 == 1
}
