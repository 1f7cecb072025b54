//! What the check of a text ends with.
//!
//! Source: this project's own.
ghost use Rattle.std.specs.Prelude.{◌≡◌, ◌≤◌, IfErr, IfOk, Ok, length};
ghost use Rattle.vq_messages.specs.Refused.{input_limit};
ghost use Rattle.vq_model.specs.LoweredPlans.{Lowers};
ghost use Rattle.vq_face.specs.Endings.{IsEnding, IsLawfulPlanOf, IsReadFrom, IsRefusal};
ghost use Rattle.vq_face.specs.Endings.{ending_of_order, ending_of_plan};

use std::alloc::Global;
use vq_messages::INPUT_LIMIT;
use vq_model::plan::{OrderFault, PlanFault};
use vq_model::statement::FaultKind;
use vq_order::{Ordered, check};
use vq_script::{Form, Script, ScriptFault, parse};
use vq_spec::Plan;

/// What the check of a text ends with.
#[derive(Clone, Copy)]
pub enum Ending {
    Lawful,
    NoMemory,
    TooLong,
    FaultyLine { line: u32, kind: FaultKind },
    NoPlan(PlanFault),
    Unlawful(OrderFault),
}

/// What a fault of the order ends with.
fn ending_of_order(fault: OrderFault) -> Ending
    ensures { result ≡ ending_of_order fault }
{
    match fault {
        OrderFault::Memory => Ending::NoMemory,
        _ => Ending::Unlawful(fault),
    }
}

/// What a fault of lowering ends with.
fn ending_of_plan(fault: PlanFault) -> Ending
    ensures { result ≡ ending_of_plan fault }
{
    match fault {
        PlanFault::Memory => Ending::NoMemory,
        _ => Ending::NoPlan(fault),
    }
}

/// The order of a plan of a script that was read from a text, where it is lawful.
fn ordered_of(alloc: Global, plan: Plan, text: &[u8]) -> Result<Ordered, Ending>
    requires read { IsReadFrom text.now plan.script }
    requires lowers { Lowers plan.script (Ok plan) }
    ensures lawful { IfOk result (IsLawfulPlanOf text.now) }
    ensures refused { IfErr result (IsRefusal text.now) }
{
    match check(alloc, plan) {
        Ok(ordered) => Ok(ordered),
        Err(fault) => Err(ending_of_order(fault)),
    }
}

/// The same of a script that was read from a text.
fn ordered_by(alloc: Global, script: Script, text: &[u8]) -> Result<Ordered, Ending>
    requires { IsReadFrom text.now script }
    ensures lawful { IfOk result (IsLawfulPlanOf text.now) }
    ensures refused { IfErr result (IsRefusal text.now) }
{
    match Plan::lower(alloc, script) {
        Ok(plan) => ordered_of(alloc, plan, text),
        Err(fault) => Err(ending_of_plan(fault)),
    }
}

/// The lawful plan of a text, or what else the check of the text ends with. Want of memory may come in the place of the
/// plan.
pub fn lawful_plan(alloc: Global, text: &[u8]) -> Result<Ordered, Ending>
    ensures lawful { IfOk result (IsLawfulPlanOf text.now) }
    ensures refused { IfErr result (IsRefusal text.now) }
{
    if text.len() > INPUT_LIMIT {
        return Err(Ending::TooLong);
    }
    match parse(alloc, text, Form::Plain) {
        Ok(script) => ordered_by(alloc, script, text),
        Err(ScriptFault::Memory) => Err(Ending::NoMemory),
        Err(ScriptFault::At { line, kind }) => Err(Ending::FaultyLine { line, kind }),
    }
}

/// What the check of a text ends with.
pub fn ending_of(alloc: Global, text: &[u8]) -> Ending
    ensures { IsEnding text.now result }
{
    match lawful_plan(alloc, text) {
        Ok(_) => Ending::Lawful,
        Err(ending) => ending,
    }
}
