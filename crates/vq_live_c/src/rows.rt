//! What crosses to C of an answer: its code, and the operation or value that it tells.
ghost use Rattle.std.specs.Prelude.{◌≡◌};
ghost use Rattle.vq_live_c.specs.Told.{cancel_answer, find_told, given_of, given_told, install_answer, install_told};
ghost use Rattle.vq_live_c.specs.Told.{given_or, no_point, refer_answer_code, row_of, signal_answer, signal_told};
ghost use Rattle.vq_live_c.specs.Told.{take_answer, take_told};

use crate::codes::{call_code, cancel_code, install_code, refer_code, signal_code, take_code};
use crate::reply::Reply;
use vq_live::{CancelFault, Found, Given, InstallFault, ReferFault, SignalFault, TakeFault};

/// The point of no operation.
const NO_POINT: u32 = u32::MAX;

/// An operation: its value, and the point that was given for it.
#[repr(C)]
#[derive(Clone, Copy)]
pub struct GivenRow {
    pub value: u64,
    pub point: u32,
}

/// An operation, as it crosses.
fn row_of(given: Given) -> GivenRow
    ensures { result ≡ row_of given }
{
    GivenRow {
        value: given.value,
        point: given.point,
    }
}

/// The operation that crossed.
pub(crate) fn given_of(row: &GivenRow) -> Given
    ensures { result ≡ given_of row.now }
{
    Given {
        value: row.value,
        point: row.point,
    }
}

/// Tells an operation, if there is one.
pub(crate) fn tell_given(given: Option<Given>, row: &mut GivenRow)
    ensures { row.new ≡ given_told given row.old }
{
    if let Some(given) = given {
        *row = row_of(given);
    }
}

/// The code of an operation that there is, or of what is said where there is none.
pub(crate) fn given_or(given: Option<Given>, missing: Reply) -> u32
    ensures { result ≡ given_or given missing }
{
    match given {
        Some(_) => call_code(Reply::Done),
        None => call_code(missing),
    }
}

/// The code of a take.
pub(crate) fn take_answer(taken: Result<Given, TakeFault>) -> u32
    ensures { result ≡ take_answer taken }
{
    match taken {
        Ok(_) => call_code(Reply::Done),
        Err(fault) => take_code(fault),
    }
}

/// Tells what came of a take: the operation with its point, or the pending value that its own isn't above.
pub(crate) fn tell_taken(taken: Result<Given, TakeFault>, row: &mut GivenRow)
    ensures { row.new ≡ take_told taken row.old }
{
    match taken {
        Ok(given) => {
            *row = row_of(given);
        }
        Err(TakeFault::NotAbove { pending }) => {
            *row = GivenRow {
                value: pending,
                point: NO_POINT,
            };
        }
        Err(TakeFault::Twice | TakeFault::Full | TakeFault::NoMemory) => {}
    }
}

/// The code of an install.
pub(crate) fn install_answer(fault: Option<InstallFault>) -> u32
    ensures { result ≡ install_answer fault }
{
    match fault {
        None => call_code(Reply::Done),
        Some(fault) => install_code(fault),
    }
}

/// Tells the operation that is next, where an install was of another.
pub(crate) fn tell_next(fault: Option<InstallFault>, row: &mut GivenRow)
    ensures { row.new ≡ install_told fault row.old }
{
    if let Some(InstallFault::NotNext { next }) = fault {
        *row = row_of(next);
    }
}

/// The code of a cancel.
pub(crate) fn cancel_answer(fault: Option<CancelFault>) -> u32
    ensures { result ≡ cancel_answer fault }
{
    match fault {
        None => call_code(Reply::Done),
        Some(fault) => cancel_code(fault),
    }
}

/// The code of a reference.
pub(crate) fn refer_answer(fault: Option<ReferFault>) -> u32
    ensures { result ≡ refer_answer_code fault }
{
    match fault {
        None => call_code(Reply::Done),
        Some(fault) => refer_code(fault),
    }
}

/// The code of a host's signal.
pub(crate) fn signal_answer(fault: Option<SignalFault>) -> u32
    ensures { result ≡ signal_answer fault }
{
    match fault {
        None => call_code(Reply::Done),
        Some(fault) => signal_code(fault),
    }
}

/// Tells why a signal of the host was refused: the payload, or the value of the first operation.
pub(crate) fn tell_known(fault: Option<SignalFault>, known: &mut u64)
    ensures { known.new ≡ signal_told fault known.old }
{
    match fault {
        Some(SignalFault::NotAbove { payload }) => {
            *known = payload;
        }
        Some(SignalFault::Outstanding { first }) => {
            *known = first;
        }
        None => {}
    }
}

/// Tells the pending operation that a look-up found.
pub(crate) fn tell_found(found: Found, row: &mut GivenRow)
    ensures { row.new ≡ find_told found row.old }
{
    if let Found::Pending { at } = found {
        *row = row_of(at);
    }
}
