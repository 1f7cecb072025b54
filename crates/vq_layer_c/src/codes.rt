//! The codes by which answers cross to C: `c/codes` makes this file out of `c/layer_codes.txt`.
ghost use Rattle.std.specs.Prelude.{◌≡◌};
ghost use Rattle.vq_layer_c.specs.Codes.{call_code};

use crate::reply::Reply;

/// The code of what a call answers.
pub(crate) fn call_code(answer: Reply) -> u32
    ensures { result ≡ call_code answer }
{
    match answer {
        Reply::Done => 0,
        Reply::NoMemory => 1,
        Reply::NoHandle => 2,
        Reply::NoQueue => 3,
        Reply::NoTimeline => 4,
        Reply::NoBatch => 5,
        Reply::NoRoom => 6,
        Reply::NotAbove => 16,
        Reply::Twice => 17,
        Reply::Full => 18,
        Reply::TooManyWaits => 19,
        Reply::Unsignaled => 20,
        Reply::Signaled => 21,
        Reply::Repeated => 22,
        Reply::Past => 32,
        Reply::Pending => 33,
        Reply::NotYet => 34,
        Reply::NotOut => 40,
        Reply::NotHeld => 41,
        Reply::NothingPending => 42,
        Reply::Outstanding => 43,
        Reply::NoBinary => 44,
        Reply::InUse => 45,
        Reply::Named => 46,
        Reply::Held => 47,
        Reply::Empty => 48,
        Reply::Waits => 49,
        Reply::Behind => 50,
        Reply::Used => 51,
        Reply::NoneReady => 52,
        Reply::NothingReleased => 53,
        Reply::Missing => 54,
    }
}
