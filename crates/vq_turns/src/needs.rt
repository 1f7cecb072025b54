//! The needs of a wait.
ghost use Rattle.std.specs.Prelude.{◌≡◌, ◌<◌, ◌∷◌, [], Some, length, IfOk};
ghost use Rattle.std.specs.List.{slice_get};

use std::alloc::{AllocError, Global};
use std::marker::Model;
use vq_model::list::List;
use vq_model::plan::Need;

/// The needs of a wait. Most waits have one, which takes no memory of its own.
#[derive(Drop)]
pub struct Needs {
    kept: Kept,
}

/// How needs are kept: the fields of one, in the order that takes the least room, or a list.
#[derive(Drop)]
enum Kept {
    One {
        line: u32,
        chain: u32,
        from: u32,
        value: u64,
    },
    Listed(Box<List<Need>>),
}

impl Model for Needs {
    ghost use Rattle.std.specs.Prelude.{List};
    ghost use Rattle.vq_model.specs.declared.plan.Need.{Need};

    ghost Value = { List Need };

    ghost use Rattle.vq_turns.specs.KeptNeeds.{needs_kept};

    ghost view = { λ a. needs_kept a.kept };
}

impl Needs {
    /// One need. It takes no memory.
    pub fn one(need: Need) -> Needs
        ensures { result ≡ need ∷ [] }
    {
        Needs {
            kept: Kept::One {
                line: need.line,
                chain: need.chain,
                from: need.from,
                value: need.value,
            },
        }
    }

    /// These needs. They take memory where there isn't just one.
    pub fn of(alloc: Global, needs: &[Need]) -> Result<Needs, AllocError>
        ensures { IfOk result (λ kept. kept ≡ needs.now) }
    {
        if let [need] = needs {
            return Ok(Needs::one(*need));
        }
        let list = List::of(Vec::from_slice(alloc, needs)?);
        Ok(Needs {
            kept: Kept::Listed(Box::new(alloc, list)?),
        })
    }

    /// How many needs there are.
    pub fn len(&self) -> usize
        ensures { result ≡ length self.now }
    {
        match &self.kept {
            Kept::One { .. } => 1,
            Kept::Listed(list) => list.len(),
        }
    }

    /// The need at this index.
    pub fn at(&self, index: usize) -> Need
        requires { index < length self.now }
        ensures { slice_get self.now index ≡ Some result }
    {
        match &self.kept {
            Kept::One {
                line,
                chain,
                from,
                value,
            } => Need {
                line: *line,
                chain: *chain,
                value: *value,
                from: *from,
            },
            Kept::Listed(list) => list.as_slice()[index],
        }
    }
}
