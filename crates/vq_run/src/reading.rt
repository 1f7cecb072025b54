//! What an input comes to before its task is done: a lawful plan, or a refusal.
ghost use Rattle.std.specs.Prelude.{◌≡◌, ◌≤◌, ◌<◌, ◌-◌, ◌^◌, ℕ, IfOk, IfErr, List, Ok, length};
ghost use Rattle.vq_model.specs.Text.{lines_of};
ghost use Rattle.vq_model.specs.LoweredPlans.{Lowers};
ghost use Rattle.vq_model.specs.SameScript.{IsRead};
ghost use Rattle.vq_messages.specs.Refused.{input_limit};
ghost use Rattle.vq_run.specs.Readings.{HoldsRead, IsReadFor, IsReading, IsScripted};
ghost use Rattle.vq_run.specs.Inputs.{HasFaultOf, ReadsAs};
ghost use Rattle.vq_run.specs.Tasks.{planned, turns_for};

use crate::auditing::script_text;
use crate::origins::{order_fault_origin, plan_fault_origin};
use crate::task::row_of;
use std::alloc::{AllocError, Global};
use std::mem::replace;
use vq_hosts::{Compiled, HostsFault, compile};
use vq_messages::{line_refusal, no_trace_refusal, order_refusal, plan_refusal};
use vq_model::list::List;
use vq_model::script::Turn;
use vq_order::{Ordered, check};
use vq_script::{Script, ScriptFault, parse};
use vq_spec::Plan;
use vq_words::Task;

/// What comes of reading the script of an input.
#[derive(Drop)]
pub enum Scripted {
    /// The script, the turns that the task plays over its plan, and the lines of the input from which those of the
    /// script come, where these aren't the same.
    Read {
        script: Script,
        turns: List<Turn>,
        from: Option<List<u32>>,
    },
    /// The text that refuses the input.
    Refused(Vec<u8>),
}

/// What an input comes to before its task is done.
#[derive(Drop)]
pub enum Reading {
    /// A lawful plan, the turns that the task plays over it, and the lines of the input from which those of its script
    /// come, where these aren't the same.
    Lawful {
        ordered: Ordered,
        turns: List<Turn>,
        from: Option<List<u32>>,
    },
    /// The text that refuses the input.
    Refused(Vec<u8>),
}

/// What comes of the plan of a script that was read from an input.
fn of_plan(
    alloc: Global,
    plan: Plan,
    turns: List<Turn>,
    from: Option<List<u32>>,
) -> Result<Reading, AllocError>
    requires { Lowers plan.script (Ok plan) }
    ensures { (task : Task) (input : List ℕ) → length input ≤ input_limit →
        IsReadFor task input plan.script turns from → IfOk result (IsReading task input) }
{
    match check(alloc, plan) {
        Ok(ordered) => Ok(Reading::Lawful {
            ordered,
            turns,
            from,
        }),
        Err(fault) => {
            let fault = order_fault_origin(&from, fault);
            Ok(Reading::Refused(order_refusal(alloc, fault)?))
        }
    }
}

/// What comes of a script that was read from an input.
fn of_script(
    alloc: Global,
    script: Script,
    turns: List<Turn>,
    from: Option<List<u32>>,
) -> Result<Reading, AllocError>
    requires { IsRead script }
    ensures { (task : Task) (input : List ℕ) → length input ≤ input_limit →
        IsReadFor task input script turns from → IfOk result (IsReading task input) }
{
    match Plan::lower(alloc, script) {
        Ok(plan) => of_plan(alloc, plan, turns, from),
        Err(fault) => {
            let fault = plan_fault_origin(&from, fault);
            Ok(Reading::Refused(plan_refusal(alloc, fault)?))
        }
    }
}

/// Makes the plan of a script that was read from an input, and checks it. The input isn't needed any more. The error is
/// want of memory.
pub fn read_plan(alloc: Global, scripted: Scripted) -> Result<Reading, AllocError>
    requires { HoldsRead scripted }
    ensures { (task : Task) (input : List ℕ) → length input ≤ input_limit → IsScripted task input scripted →
        IfOk result (IsReading task input) }
{
    match scripted {
        Scripted::Read {
            script,
            turns,
            from,
        } => of_script(alloc, script, turns, from),
        Scripted::Refused(text) => Ok(Reading::Refused(text)),
    }
}

/// A script of which a plan is made, and the turns that are played over it.
#[derive(Drop)]
struct Planned {
    script: Script,
    turns: List<Turn>,
}

/// Moves the turns out of a script where they are played.
fn move_turns(alloc: Global, task: Task, script: Script) -> Planned
    ensures script { result.script ≡ planned task script }
    ensures turns { result.turns ≡ turns_for task script }
{
    let mut script = script;
    let none = List::of(Vec::new(alloc));
    let turns = if row_of(task).plays_turns {
        replace(&mut script.turns, none)
    } else {
        none
    };
    Planned { script, turns }
}

/// A script that was read, and the lines of the text from which its own come, where these aren't the same.
#[derive(Drop)]
struct Parsed {
    script: Script,
    from: Option<List<u32>>,
}

/// Reads a text as a task does: where host threads stand in it, it is compiled.
fn parse_for(alloc: Global, task: Task, text: &[u8]) -> Result<Parsed, ScriptFault>
    requires { length (lines_of text.now) < 2 ^ 32 - 1 }
    ensures reads { IfOk result (λ parsed. ReadsAs task text.now parsed.script parsed.from) }
    ensures fault { IfErr result (HasFaultOf task text.now) }
{
    let row = row_of(task);
    if !row.reads_threads {
        let script = parse(alloc, text, row.form)?;
        return Ok(Parsed { script, from: None });
    }
    match compile(alloc, text) {
        Ok(Compiled { script, lines }) => Ok(Parsed {
            script,
            from: Some(List::of(lines)),
        }),
        Err(HostsFault::At { line, kind }) => Err(ScriptFault::At { line, kind }),
        Err(HostsFault::Memory) => Err(ScriptFault::Memory),
    }
}

/// Reads the script of an input for a task. The error is want of memory.
#[tactic(auto, using(crate::proofs::Endings::traceless_outcome))]
pub fn read_script(alloc: Global, task: Task, input: &[u8]) -> Result<Scripted, AllocError>
    requires { length input.now ≤ input_limit }
    ensures { IfOk result (IsScripted task input.now) }
{
    let Some(text) = script_text(task, input) else {
        return Ok(Scripted::Refused(no_trace_refusal(alloc)?));
    };
    match parse_for(alloc, task, text) {
        Ok(Parsed { script, from }) => {
            let Planned { script, turns } = move_turns(alloc, task, script);
            Ok(Scripted::Read {
                script,
                turns,
                from,
            })
        }
        Err(ScriptFault::Memory) => Err(AllocError),
        Err(ScriptFault::At { line, kind }) => {
            Ok(Scripted::Refused(line_refusal(alloc, line, kind)?))
        }
    }
}
