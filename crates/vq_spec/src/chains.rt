//! The chains of signal operations: those of each semaphore and each fence, by value and then by
//! line.
ghost use Rattle.std.specs.Prelude.{◌≡◌, ◌<◌, ◌^◌, [], All, IfOk, map, length, true};
ghost use Rattle.std.specs.List.{enumerate_from, range_with_len};
ghost use Rattle.std.specs.List.Sorted.{IsSorted};
ghost use Rattle.vq_spec.specs.ChainParts.{members, is_before, pair_cmp, placed, Sorts, AreSorted, IsSearchable};
ghost use Rattle.vq_spec.specs.ChainParts.{first_with, place_in};

use std::alloc::{AllocError, Global};
use vq_model::list::List;
use vq_model::plan::Op;

/// The operations of a semaphore or a fence, by value and then by line.
#[derive(Drop)]
pub(crate) struct Chain {
    pub(crate) ops: List<u32>,
    /// The same operations, each behind its value.
    pub(crate) pairs: Vec<(u64, u32)>,
}

/// Whether a value and an operation come before others.
fn is_before(pair: (u64, u32), value: u64, op: u32) -> bool
    ensures { result ≡ is_before pair value op }
{
    pair.0 < value || (pair.0 == value && pair.1 < op)
}

/// Where a value stands if the values go up by one from the first, as they mostly do.
fn guessed_place(pairs: &[(u64, u32)], value: u64) -> usize {
    if pairs.is_empty() {
        0
    } else {
        value.saturating_sub(pairs[0].0) as usize
    }
}

/// Whether of a value and an operation the place is this one: what stands there isn't before them, and what
/// stands in front of it is.
fn is_place(pairs: &[(u64, u32)], place: usize, value: u64, op: u32) -> bool
    requires { IsSorted pair_cmp pairs.now }
    ensures { result ≡ true → place ≡ place_in pairs.now value op }
{
    if place >= pairs.len() {
        return false;
    }
    if is_before(pairs[place], value, op) {
        return false;
    }
    if place == 0 {
        return true;
    }
    is_before(pairs[place - 1], value, op)
}

/// The operations that stand behind values.
fn ops_of(alloc: Global, pairs: &[(u64, u32)]) -> Result<Vec<u32>, AllocError>
    ensures { IfOk result (λ ops. ops.items ≡ map (λ p. p.1) pairs.now) }
{
    let mut ops = Vec::with_capacity(alloc, pairs.len())?;
    for pair in pairs {
        ops.push(pair.1)?;
    }
    Ok(ops)
}

impl Chain {
    /// A chain of operations that stand behind their values.
    fn of(alloc: Global, members: Vec<(u64, u32)>) -> Result<Chain, AllocError>
        ensures { IfOk result (λ chain. Sorts members.items chain) }
    {
        let mut pairs = members;
        pairs.sort()?;
        let ops = List::of(ops_of(alloc, pairs.as_slice())?);
        Ok(Chain { ops, pairs })
    }

    /// The first operation with a value or a greater one.
    pub(crate) fn resolver(&self, value: u64) -> Option<u32>
        requires { IsSorted pair_cmp self.now.pairs.items }
        ensures { result ≡ first_with self.now.pairs.items value }
    {
        let place = self.place(value, 0);
        if place < self.pairs.len() {
            Some(self.pairs[place].1)
        } else {
            None
        }
    }

    /// The place of an operation with this value.
    fn place(&self, value: u64, op: u32) -> usize
        requires { IsSorted pair_cmp self.now.pairs.items }
        ensures { result ≡ place_in self.now.pairs.items value op }
    {
        let pairs = self.pairs.as_slice();
        let guess = guessed_place(pairs, value);
        if is_place(pairs, guess, value, op) {
            return guess;
        }
        pairs.partition_point(|pair| is_before(*pair, value, op))
    }
}

/// An empty list for each chain, with room for so many operations.
fn no_members(alloc: Global, counts: &[u64]) -> Result<Vec<Vec<(u64, u32)>>, AllocError>
    ensures { IfOk result (λ lists. map (λ v. v.items) lists.items
        ≡ map (λ t. []) (range_with_len 0 (length counts.now))) }
{
    let mut lists = Vec::with_capacity(alloc, counts.len())?;
    for count in counts {
        lists.push(Vec::with_capacity(alloc, *count as usize)?)?;
    }
    Ok(lists)
}

/// The operations of each chain behind their values, in the order of the script. The chains have so many.
fn gather(alloc: Global, ops: &[Op], counts: &[u64]) -> Result<Vec<Vec<(u64, u32)>>, AllocError>
    requires few { length ops.now < 2 ^ 32 }
    requires exist { All (λ o. o.chain < length counts.now) ops.now }
    ensures { IfOk result (λ lists. map (λ v. v.items) lists.items
        ≡ map (members ops.now) (range_with_len 0 (length counts.now))) }
{
    let mut lists = no_members(alloc, counts)?;
    for (e, op) in ops.iter().enumerate() {
        lists[op.chain as usize].push((op.value, e as u32))?;
    }
    Ok(lists)
}

/// The chains of operations whose places aren't known yet. They have so many.
pub(crate) fn lower_chains(
    alloc: Global,
    ops: &[Op],
    counts: &[u64],
) -> Result<Vec<Chain>, AllocError>
    requires few { length ops.now < 2 ^ 32 }
    requires exist { All (λ o. o.chain < length counts.now) ops.now }
    ensures { IfOk result (λ chains. AreSorted ops.now (length counts.now) chains.items) }
{
    let lists = gather(alloc, ops, counts)?;
    let mut chains = Vec::with_capacity(alloc, counts.len())?;
    for members in lists {
        chains.push(Chain::of(alloc, members)?)?;
    }
    Ok(chains)
}

/// An operation with its place in its chain.
fn place_op(chains: &[Chain], e: u32, op: &Op) -> Op
    requires exists { op.now.chain < length chains.now }
    requires searchable { All IsSearchable chains.now }
    ensures { result ≡ placed chains.now (e, op.now) }
{
    let index = chains[op.chain as usize].place(op.value, e) as u32;
    Op { index, ..*op }
}

/// Gives operations their places in their chains.
pub(crate) fn place_ops(ops: &mut [Op], chains: &[Chain])
    requires few { length ops.old < 2 ^ 32 }
    requires exist { All (λ o. o.chain < length chains.now) ops.old }
    requires searchable { All IsSearchable chains.now }
    ensures { ops.new ≡ map (placed chains.now) (enumerate_from 0 ops.old) }
{
    for e in 0..ops.len() {
        ops[e] = place_op(chains, e as u32, &ops[e]);
    }
}
