//! The codes by which answers cross to C: `c/codes` makes this file out of `c/live_codes.txt`.
ghost use Rattle.std.specs.Prelude.{◌≡◌};
ghost use Rattle.vq_live_c.specs.Codes.{call_code, cancel_code, find_code, install_code};
ghost use Rattle.vq_live_c.specs.Codes.{refer_code, signal_code, take_code};

use crate::reply::Reply;
use vq_live::{CancelFault, Found, InstallFault, ReferFault, SignalFault, TakeFault};

/// The code of what a call answers.
pub(crate) fn call_code(answer: Reply) -> u32
    ensures { result ≡ call_code answer }
{
    match answer {
        Reply::Done => 0,
        Reply::NoMemory => 1,
        Reply::NoHandle => 2,
        Reply::NothingTaken => 25,
        Reply::NotHeld => 41,
        Reply::NothingPending => 42,
    }
}

/// The code of why no point was given.
pub(crate) fn take_code(answer: TakeFault) -> u32
    ensures { result ≡ take_code answer }
{
    match answer {
        TakeFault::NoMemory => 1,
        TakeFault::NotAbove { .. } => 16,
        TakeFault::Twice => 17,
        TakeFault::Full => 18,
    }
}

/// The code of why a point wasn't installed.
pub(crate) fn install_code(answer: InstallFault) -> u32
    ensures { result ≡ install_code answer }
{
    match answer {
        InstallFault::Already => 24,
        InstallFault::NothingTaken => 25,
        InstallFault::NotNext { .. } => 26,
    }
}

/// The code of why an operation wasn't taken back.
pub(crate) fn cancel_code(answer: CancelFault) -> u32
    ensures { result ≡ cancel_code answer }
{
    match answer {
        CancelFault::Already => 24,
        CancelFault::NotTaken => 27,
    }
}

/// The code of where a value stands.
pub(crate) fn find_code(answer: Found) -> u32
    ensures { result ≡ find_code answer }
{
    match answer {
        Found::Past => 32,
        Found::Pending { .. } => 33,
        Found::NotYet => 34,
    }
}

/// The code of why a point wasn't held.
pub(crate) fn refer_code(answer: ReferFault) -> u32
    ensures { result ≡ refer_code answer }
{
    match answer {
        ReferFault::Full => 18,
        ReferFault::NotOut => 40,
    }
}

/// The code of why a value wasn't set.
pub(crate) fn signal_code(answer: SignalFault) -> u32
    ensures { result ≡ signal_code answer }
{
    match answer {
        SignalFault::NotAbove { .. } => 16,
        SignalFault::Outstanding { .. } => 43,
    }
}
