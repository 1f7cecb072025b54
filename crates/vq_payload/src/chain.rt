//! What is needed of a chain to look for a value of it: its operations, in the order of their values, and
//! the values.
//!
//! Source: this project's own, where an item names no other.
ghost use Rattle.std.specs.Prelude.{◌≡◌, ◌<◌, ◌^◌, length, map, Some, IfOk};
ghost use Rattle.std.specs.List.{slice_get};
ghost use Rattle.vq_model.specs.Checks.{IsLawful};
ghost use Rattle.vq_model.specs.LoweredPlans.{IsPlan};
ghost use Rattle.vq_model.specs.Plan.{chain as operations_of, chain_of, initial, value};
ghost use Rattle.vq_ground.specs.Lists.{AreRisingFrom};
ghost use Rattle.vq_payload.specs.Chains.{operations};

use std::alloc::{AllocError, Global};
use std::marker::Model;
use std::snapshot::Snapshot;
use vq_order::Ordered;
use vq_spec::Plan;

/// A chain of a lawful plan: the operations that signal one semaphore or fence. Clauses see its plan and
/// its number. All memory is taken by `new`.
pub struct Chain {
    number: u32,
    initial: u64,
    ops: Vec<u32>,
    values: Vec<u64>,
    plan: Snapshot<Plan>,
}

impl Drop for Chain {
    fn drop(self) {
        let Chain {
            number: _number,
            initial: _initial,
            ops: _ops,
            values: _values,
            plan: _plan,
        } = self;
    }
}

impl Model for Chain {
    ghost use Rattle.vq_payload.specs.Chains.{PlanChain};

    ghost Value = { PlanChain };

    ghost use Rattle.vq_payload.specs.Fields.{chain_in, AreFields};

    ghost view = { chain_in };

    ghost invariant = { AreFields };
}

/// The values of a chain's operations.
fn values_of(alloc: Global, plan: &Plan, chain: u32) -> Result<Vec<u64>, AllocError>
    requires plan { IsPlan plan.now }
    requires exists { chain < length plan.now.chains }
    ensures { IfOk result (λ xs. xs.items ≡ map (value plan.now) (operations_of plan.now chain)) }
{
    let mut values = Vec::new(alloc);
    for op in plan.chain(chain) {
        values.push(plan.op(*op).value)?;
    }
    Ok(values)
}

impl Chain {
    /// A chain of a plan. It takes the memory for all that later calls read. The error is that there is
    /// none.
    pub fn new(alloc: Global, ordered: &Ordered, chain: u32) -> Result<Chain, AllocError>
        requires exists { chain < length ordered.now.chains }
        ensures { IfOk result (λ c. c ≡ record { plan = ordered.now; number = chain }) }
    {
        let plan = ordered.plan();
        let ops = Vec::from_slice(alloc, plan.chain(chain))?;
        let values = values_of(alloc, plan, chain)?;
        Ok(Chain {
            number: chain,
            initial: plan.initial(chain),
            ops,
            values,
            plan: Snapshot::of(plan),
        })
    }

    /// Its number among the chains of the plan. Clauses also say that the plan is a lawful one.
    pub fn number(&self) -> u32
        ensures number { result ≡ self.now.number }
        ensures exists { result < length self.now.plan.chains }
        ensures plan { IsPlan self.now.plan }
        ensures lawful { IsLawful self.now.plan }
    {
        self.number
    }

    /// How many operations it has.
    pub fn len(&self) -> u32
        ensures { result ≡ length (operations self.now) }
    {
        self.ops.len() as u32
    }

    /// The operation at a place of the chain.
    pub fn op(&self, index: u32) -> u32
        requires within { index < length (operations self.now) }
        ensures place { slice_get (operations self.now) index ≡ Some result }
        ensures exists { result < length self.now.plan.ops }
        ensures in_chain { chain_of self.now.plan result ≡ Some self.now.number }
    {
        self.ops[index as usize]
    }

    /// The payload before the first signal.
    ///
    /// Source: Vulkan 1.3, VkSemaphoreTypeCreateInfo.
    pub fn initial(&self) -> u64
        ensures { result ≡ initial self.now.plan self.now.number }
    {
        self.initial
    }

    /// The values of its operations, which rise from the initial one on.
    pub fn values(&self) -> &[u64]
        ensures values { result.now ≡ map (value self.now.plan) (operations self.now) }
        ensures rising { AreRisingFrom (initial self.now.plan self.now.number) result.now }
        ensures few { length result.now < 2 ^ 32 }
    {
        self.values.as_slice()
    }
}
