//! Indices that follow one another, which contracts see as lists.
//!
//! Source: this project's own.
ghost use Rattle.std.specs.Prelude.{◌≡◌, ◌<◌, ◌+◌, ◌^◌, [], length, true};
ghost use Rattle.std.specs.List.{range_with_len};

use std::marker::Model;

/// Indices that follow one another, as those of a job's commands. They take no memory of their own.
#[derive(Drop)]
pub struct Indices {
    first: u32,
    count: u32,
}

impl Model for Indices {
    ghost use Rattle.std.specs.Prelude.{List, ℕ, ◌<◌, ◌+◌, ◌^◌};
    ghost use Rattle.std.specs.List.{range_with_len};

    ghost Value = { List ℕ };

    ghost view = { λ a. range_with_len a.first a.count };

    ghost invariant = { λ a. a.first + a.count < 2 ^ 32 };
}

impl Indices {
    /// No indices.
    pub fn none() -> Indices
        ensures { result ≡ [] }
    {
        Indices { first: 0, count: 0 }
    }

    /// So many indices, from `first` on.
    pub fn from(first: u32, count: u32) -> Indices
        requires { first + count < 2 ^ 32 }
        ensures { result ≡ range_with_len first count }
    {
        Indices { first, count }
    }

    /// The first index, of some.
    #[inline(always)]
    pub fn first(&self) -> u32
        requires { 0 < length self.now }
        ensures { self.now ≡ range_with_len result (length self.now) }
    {
        self.first
    }

    /// How many indices there are.
    #[inline(always)]
    pub fn len(&self) -> usize
        ensures { result ≡ length self.now }
    {
        self.count as usize
    }

    /// Whether these are the indices of a list, in the same order.
    pub fn are(&self, listed: &[u32]) -> bool
        ensures only { result ≡ true → self.now ≡ listed.now }
        ensures each { self.now ≡ listed.now → result ≡ true }
    {
        if listed.len() != self.len() {
            return false;
        }
        for place in 0..listed.len() {
            if listed[place] as usize != self.first as usize + place {
                return false;
            }
        }
        true
    }
}
