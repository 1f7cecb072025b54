//! The top call.
//!
//! Source: this project's own, where an item names no other.
ghost use Rattle.std.specs.Prelude.{◌≡◌, ◌≤◌, map, string_bytes, false, true, Some, None, IfOk, IfSome};
ghost use Rattle.vq_port.specs.Faults.{Rose};
ghost use Rattle.vq_words.specs.declared.task.Task.{Task};
ghost use Rattle.vq_words.specs.Grammar.{HasFewRounds, task_of};
ghost use Rattle.vq_run.specs.Tasks.{RunsThreads, generated_text, input_of, reads_source};
ghost use Rattle.vq_run.specs.Writes.{moment};
ghost use Rattle.vq_run.specs.Outcomes.{IsOutcome};
ghost use Rattle.vq_run.specs.Ends.{Ends, EndsForWords, ReadsToEnd, WritesNothing, IsDoneOrMemory};
ghost use Rattle.vq_run.specs.Readings.{IsLawfulInput};

use crate::ending::{end_unread, end_with, write};
use crate::outcome::{Reply, run_outcome};
use crate::status::Status;
use crate::task::row_of;
use crate::threadless::still;
use std::alloc::{AllocError, Global};
use std::marker::Sync;
use std::sync::Wait;
use std::thread::Threads;
use vq_generator::generate;
use vq_messages::INPUT_LIMIT;
use vq_port::{Sink, Source, read_whole};
use vq_rings::Gate;
use vq_words::{Task, WordsFault, read_words};

/// Refuses the words of the command line.
fn refuse_words<K: Sink>(sink: &mut K, fault: WordsFault) -> Status
    ensures ends { EndsForWords result
        (moment K.written K.room K.faults sink.old)
        (moment K.written K.room K.faults sink.new) }
    ensures bad_words { result ≡ Status.BadWords → fault ≡ WordsFault.Bad }
    ensures memory { fault ≡ WordsFault.Memory → result ≡ Status.Memory }
    ensures write_fault { result ≡ Status.WriteFault → Rose (K.faults sink.old) (K.faults sink.new) }
{
    match fault {
        WordsFault::Bad => write(sink, b"error: words\n", Status::BadWords),
        WordsFault::Memory => Status::Memory,
    }
}

/// Does a task that runs the script that the source holds.
fn run_source<R: Threads + Wait + Sync, S: Source, K: Sink, G: Gate>(
    rt: &R,
    alloc: Global,
    task: Task,
    source: &mut S,
    sink: &mut K,
    gate: &G,
) -> Status
    requires { RunsThreads task }
    ensures headline { IfSome (S.left source.old) (λ input.
        Ends task input result
        (moment K.written K.room K.faults sink.old)
        (moment K.written K.room K.faults sink.new)) }
    ensures no_bad_words { result ≡ Status.BadWords → ⊥ }
    ensures read_fault { result ≡ Status.ReadFault → Rose (S.faults source.old) (S.faults source.new) }
    ensures write_fault { result ≡ Status.WriteFault → Rose (K.faults sink.old) (K.faults sink.new) }
    ensures nothing { WritesNothing result
        (moment K.written K.room K.faults sink.old)
        (moment K.written K.room K.faults sink.new) }
    ensures to_end { ReadsToEnd result (S.left source.old) (S.left source.new) }
{
    match read_whole(alloc, source, INPUT_LIMIT) {
        Ok(input) => end_with(sink, run_outcome(rt, alloc, task, input, gate)),
        Err(fault) => end_unread(sink, fault),
    }
}

/// What comes of a task that runs the script of so many rounds that the program makes itself.
fn generated_outcome<R: Threads + Wait + Sync, G: Gate>(
    rt: &R,
    alloc: Global,
    task: Task,
    rounds: u32,
    gate: &G,
) -> Result<Reply, AllocError>
    requires runs { RunsThreads task }
    requires few { 1 ≤ rounds }
    requires many { rounds ≤ 500 }
    ensures { IfOk result (λ outcome. IsOutcome task (generated_text rounds)
        outcome.status outcome.text.items) }
{
    let text = generate(alloc, rounds)?;
    run_outcome(rt, alloc, task, text, gate)
}

/// Does a task that runs the script of so many rounds that the program makes itself.
fn run_generated<R: Threads + Wait + Sync, K: Sink, G: Gate>(
    rt: &R,
    alloc: Global,
    task: Task,
    rounds: u32,
    sink: &mut K,
    gate: &G,
) -> Status
    requires runs { RunsThreads task }
    requires few { 1 ≤ rounds }
    requires many { rounds ≤ 500 }
    ensures headline { Ends task (generated_text rounds) result
        (moment K.written K.room K.faults sink.old)
        (moment K.written K.room K.faults sink.new) }
    ensures no_bad_words { result ≡ Status.BadWords → ⊥ }
    ensures no_read_fault { result ≡ Status.ReadFault → ⊥ }
    ensures write_fault { result ≡ Status.WriteFault → Rose (K.faults sink.old) (K.faults sink.new) }
    ensures nothing { WritesNothing result
        (moment K.written K.room K.faults sink.old)
        (moment K.written K.room K.faults sink.new) }
{
    end_with(sink, generated_outcome(rt, alloc, task, rounds, gate))
}

/// Does a task: its row says with which script, and whether that is run on threads.
fn do_task<R: Threads + Wait + Sync, S: Source, K: Sink, G: Gate>(
    rt: &R,
    alloc: Global,
    task: Task,
    source: &mut S,
    sink: &mut K,
    gate: &G,
) -> Status
    requires { HasFewRounds task }
    ensures headline { IfSome (input_of task (S.left source.old)) (λ input.
        Ends task input result
        (moment K.written K.room K.faults sink.old)
        (moment K.written K.room K.faults sink.new)) }
    ensures no_bad_words { result ≡ Status.BadWords → ⊥ }
    ensures unread { reads_source (Some task) ≡ false → source.new ≡ source.old }
    ensures read_fault { result ≡ Status.ReadFault → Rose (S.faults source.old) (S.faults source.new) }
    ensures write_fault { result ≡ Status.WriteFault → Rose (K.faults sink.old) (K.faults sink.new) }
    ensures nothing { WritesNothing result
        (moment K.written K.room K.faults sink.old)
        (moment K.written K.room K.faults sink.new) }
    ensures to_end { reads_source (Some task) ≡ true →
        ReadsToEnd result (S.left source.old) (S.left source.new) }
{
    let row = row_of(task);
    match row.rounds {
        Some(rounds) => run_generated(rt, alloc, task, rounds, sink, gate),
        None => {
            if row.runs_threads {
                run_source(rt, alloc, task, source, sink, gate)
            } else {
                still(alloc, &task, source, sink)
            }
        }
    }
}

/// Does what the words ask for with the script that the source holds, and writes the answer.
///
/// Without words the script is run on threads, and the gate is called before each turn. With `--check`
/// alone it is only said whether it is lawful. With `--upgrade` alone a lawful script is written as one of
/// the second version. With `--hosts` alone further host threads stand in blocks of the script; it is
/// compiled to one in which they are queues, and that is run. With `--replay` alone the script has a
/// schedule, which is played turn by turn. With `--rounds` alone a fair schedule is played to the end. With
/// `--audit` alone a trace follows the script, behind the first line with the one word `trace`, and is
/// judged. With `--generate N`, or `--generate=N`, the program makes a script of N rounds itself, from 1 to
/// 500, and runs it on threads; nothing is read then. Only a script that is run needs threads, waits for
/// them or calls the gate. Other words are `BadWords`, and nothing is read then. Else the source is read to
/// its end. An input above 4,194,304 bytes, with `--audit` one without a trace, a faulty line, a script
/// without a plan, an unlawful plan and a faulty line of a trace are `Refused`, with the line of the first
/// fault; else the text is one that a run of the script may give, `lawful`, a trace, the upgraded script or
/// a verdict. `ReadFault` comes only where the source counted a fault in this call, `WriteFault` only where
/// the sink did; `Memory` is want of memory. The whole text is written at once, at the end.
pub fn run<R: Threads + Wait + Sync, S: Source, K: Sink, G: Gate>(
    rt: &R,
    alloc: Global,
    words: &[String],
    source: &mut S,
    sink: &mut K,
    gate: &G,
) -> Status
    // Whatever script it meets, it writes the first fault of its words or script, or only what the
    // specification's machine for that script may give; every other ending is a counted fault of
    // reading or writing, or want of memory.
    ensures headline { (task : Task) → task_of (map string_bytes words.now) ≡ Some task →
        IfSome (input_of task (S.left source.old)) (λ input.
        Ends task input result
        (moment K.written K.room K.faults sink.old)
        (moment K.written K.room K.faults sink.new)) }

    // A lawful script is answered, and the trace behind it if it can be read, unless the source or the sink fails.
    ensures lawful { (task : Task) → task_of (map string_bytes words.now) ≡ Some task →
        IfSome (input_of task (S.left source.old)) (λ input. IsLawfulInput task input →
        ¬ Rose (S.faults source.old) (S.faults source.new) →
        ¬ Rose (K.faults sink.old) (K.faults sink.new) → IsDoneOrMemory result) }

    // Words outside the grammar are refused before anything is read. A script that the program makes
    // itself is no reason to read anything either.
    ensures words { task_of (map string_bytes words.now) ≡ None → EndsForWords result
        (moment K.written K.room K.faults sink.old)
        (moment K.written K.room K.faults sink.new) }
    ensures bad_words { result ≡ Status.BadWords → task_of (map string_bytes words.now) ≡ None }
    ensures unread { reads_source (task_of (map string_bytes words.now)) ≡ false →
        source.new ≡ source.old }

    // Each fault has its cause, and an answer by the input was read to its end.
    ensures read_fault { result ≡ Status.ReadFault → Rose (S.faults source.old) (S.faults source.new) }
    ensures write_fault { result ≡ Status.WriteFault → Rose (K.faults sink.old) (K.faults sink.new) }
    ensures nothing { WritesNothing result
        (moment K.written K.room K.faults sink.old)
        (moment K.written K.room K.faults sink.new) }
    ensures to_end { reads_source (task_of (map string_bytes words.now)) ≡ true →
        ReadsToEnd result (S.left source.old) (S.left source.new) }
{
    match read_words(alloc, words) {
        Ok(task) => do_task(rt, alloc, task, source, sink, gate),
        Err(fault) => refuse_words(sink, fault),
    }
}
