//! The clocks of lines that signal a binary semaphore or a fence, until the next wait or signal.
ghost use Rattle.std.specs.Prelude.{◌≡◌, ◌==◌, ◌<◌, ◌≤◌, if◌then◌else◌, IsFalse, OnOk, false, length, map, ℕ};
ghost use Rattle.vq_capture_check.specs.Alike.{telling_of};
ghost use Rattle.vq_capture_check.specs.Clocks.{join, says};
ghost use Rattle.vq_capture_check.specs.Watching.{ends_signal, signal_of, take_signal, take_signals, waits_for_signal};
ghost use Rattle.vq_capture_check.specs.Watching.{with_signal, without_ended};
ghost use Rattle.vq_capture_check.specs.Least.{least_in};
ghost use Rattle.vq_capture_check.specs.Watches.{signals_of};

use std::alloc::{AllocError, Global};
use vq_capture::statement::Statement;
use vq_capture_clocks::clocks::{Block, join};
use vq_capture_clocks::least::LeastLines;
use vq_capture_clocks::pruning::clear;

/// What a line signals.
#[derive(Clone, Copy)]
pub enum Signal {
    OfBinary(u64),
    OfFence(u64),
}

/// A line that signals, with its clock.
#[derive(Drop)]
pub struct SignalLine {
    line: u64,
    signal: Signal,
    clock: Vec<Block>,
}

/// What a line of this signals.
pub fn signal_of(said: &Statement) -> Option<Signal>
    ensures { result ≡ signal_of said.now }
{
    match said {
        Statement::SignalBinary {
            semaphore,
            scope: _,
        } => Some(Signal::OfBinary(*semaphore)),
        Statement::SignalFence { fence } => Some(Signal::OfFence(*fence)),
        _ => None,
    }
}

/// Whether a line ends a signal.
fn ends_signal(said: &Statement, signal: Signal) -> bool
    ensures { result ≡ ends_signal said.now signal }
{
    match (said, signal) {
        (
            Statement::WaitBinary {
                semaphore,
                scope: _,
            },
            Signal::OfBinary(signaled),
        ) => signaled == *semaphore,
        (Statement::SignalFence { fence }, Signal::OfFence(signaled)) => signaled == *fence,
        (Statement::Forget { declared }, Signal::OfBinary(signaled)) => signaled == *declared,
        (Statement::Forget { declared }, Signal::OfFence(signaled)) => signaled == *declared,
        _ => false,
    }
}

/// Whether a line may end signals.
fn may_end(said: &Statement) -> bool
    ensures { IsFalse result → (signal : Signal) → ends_signal said.now signal ≡ false }
{
    match said {
        Statement::WaitBinary { .. } => true,
        Statement::SignalFence { .. } => true,
        Statement::Forget { .. } => true,
        _ => false,
    }
}

/// Whether what releases a line signals until the next wait or signal.
pub fn waits_for_signal(said: &Statement) -> bool
    ensures { result ≡ waits_for_signal said.now }
{
    match said {
        Statement::WaitBinary { .. } => true,
        Statement::SawFence { .. } => true,
        _ => false,
    }
}

/// Forgets the signals that a line ends.
pub fn forget_ended(said: &Statement, signals: &mut Vec<SignalLine>)
    ensures { signals_of signals.new.items ≡ without_ended said.now (signals_of signals.old.items) }
{
    if may_end(said) {
        signals.retain(|signal| !ends_signal(said, signal.signal));
    }
}

/// Keeps the clock of a line that signals. The error is want of memory.
pub fn add_signal(
    alloc: Global,
    signals: &mut Vec<SignalLine>,
    signal: Option<Signal>,
    line: u64,
    clock: &[Block],
) -> Result<(), AllocError>
    ensures { OnOk result (signals_of signals.new.items ≡
        with_signal (signals_of signals.old.items) signal line (says clock.now)) }
{
    if let Some(signal) = signal {
        let clock = Vec::from_slice(alloc, clock)?;
        signals.push(SignalLine {
            line,
            signal,
            clock,
        })?;
    }
    Ok(())
}

/// Takes what the clock of a signal says, if it is of a line.
fn take_if(signal: &SignalLine, clock: &mut Vec<Block>, line: u64) -> Result<(), AllocError>
    ensures { OnOk result (says clock.new.items ≡
        (if signal.now.line == line then join (says clock.old.items) (says signal.now.clock.items)
        else says clock.old.items)) }
{
    if signal.line == line {
        join(clock, &signal.clock)?;
    }
    Ok(())
}

/// Takes what the clocks of signals at a line say.
fn take_signal(signals: &[SignalLine], clock: &mut Vec<Block>, line: u64) -> Result<(), AllocError>
    ensures { OnOk result (says clock.new.items ≡ take_signal (signals_of signals.now) (says clock.old.items) line) }
{
    for signal in signals {
        take_if(signal, clock, line)?;
    }
    Ok(())
}

/// Takes what the clocks of signals at some lines say. The error is want of memory.
pub fn take_signals(
    signals: &[SignalLine],
    clock: &mut Vec<Block>,
    released: &[u64],
) -> Result<(), AllocError>
    ensures { OnOk result (says clock.new.items ≡
        take_signals (signals_of signals.now) (says clock.old.items) released.now) }
{
    for line in released {
        take_signal(signals, clock, *line)?;
    }
    Ok(())
}

fn clear_signal(signals: &mut Vec<SignalLine>, place: usize, least: &LeastLines)
    requires { place < length signals.old.items }
    ensures same { (line lane : ℕ) → least_in least.now lane ≤ line →
        map (telling_of line lane) (signals_of signals.new.items)
        ≡ map (telling_of line lane) (signals_of signals.old.items) }
    ensures wide { length signals.new.items ≡ length signals.old.items }
{
    clear(&mut signals[place].clock, least);
}

/// Leaves out what signals say, but what lines from a number on ask of it.
pub fn clear_signals(signals: &mut Vec<SignalLine>, least: &LeastLines)
    ensures { (line lane : ℕ) → least_in least.now lane ≤ line →
        map (telling_of line lane) (signals_of signals.new.items)
        ≡ map (telling_of line lane) (signals_of signals.old.items) }
{
    let mut place = 0;
    while place < signals.len() {
        clear_signal(signals, place, least);
        place += 1;
    }
}
