//! The waits. Who waits sleeps on the bell, with a note under the lock of each timeline that is waited
//! for: the least value that somebody waits for. Who raises a payload rings the bell only where it comes
//! to that value, so points that nobody waits for wake nobody.
//!
//! Source: this project's own.
ghost use Rattle.std.specs.Prelude.{ℕ, ◌≡◌, All, [], take, None, IfOk, IfErr, IfSome};
ghost use Rattle.vq_live_lock.specs.Locked.{HasReached, IsOn};
ghost use Rattle.vq_live_lock.specs.Named.{IsLeft};
ghost use Rattle.vq_live_lock.specs.Rounds.{IsRound};
ghost use Rattle.vq_live_lock.specs.Waits.{IsMet, AreMet, IsMetAt};

use crate::bell::Bell;
use crate::gauge::{Note, Reached};
use crate::locked::LockedLive;
use crate::waiting::Wanted;
use std::alloc::{AllocError, Global};
use std::sync::Wait;

impl LockedLive {
    /// What shows that the value is reached, if it is. It takes no lock.
    pub fn reached(&self, value: u64) -> Option<Reached>
        ensures { IfSome result (λ r. HasReached self.now r value) }
    {
        let (found, reached) = self.gauge.look();
        if found < value {
            return None;
        }
        Some(reached)
    }

    /// The same; where the value isn't reached, it leaves a note that somebody waits for it, and hands the note
    /// out.
    fn asked<R: Wait>(&self, rt: &R, value: u64) -> Result<Reached, Note>
        ensures reached { IfOk result (λ r. HasReached self.now r value) }
        ensures left { IfErr result (λ note. IsLeft self.now.gauge note value) }
    {
        if let Some(reached) = self.reached(value) {
            return Ok(reached);
        }
        let mut guard = self.lock(rt);
        let left = guard
            .guard
            .content(&self.lock)
            .watch(&self.gauge, &self.bell, value);
        let reached = self.unlock(guard);
        match left {
            Some(note) => Err(note),
            None => Ok(reached),
        }
    }

    /// Sleeps until the bell is rung, unless it was rung since this note was left. It may also return for no
    /// reason.
    fn sleep<R: Wait>(&self, rt: &R, note: &Note)
        requires { (value : ℕ) × IsLeft self.now.gauge note.now value }
    {
        self.bell.sleep(rt, note.rings);
    }

    /// Waits until the value is reached.
    pub fn wait<R: Wait>(&self, rt: &R, value: u64) -> Reached
        ensures { HasReached self.now result value }
    {
        for _ in rt.forever() {
            match self.asked(rt, value) {
                Ok(reached) => return reached,
                Err(note) => self.sleep(rt, &note),
            }
        }
        unreachable!()
    }
}

/// Waits until each value is reached, and answers what shows it, in order. The error is want of memory,
/// and comes before any wait.
pub fn wait_all<R: Wait>(
    rt: &R,
    alloc: Global,
    wanted: &[Wanted<'_>],
) -> Result<Vec<Reached>, AllocError>
    ensures { IfOk result (λ rs. AreMet wanted.now rs.items) }
{
    let mut all = Vec::with_capacity(alloc, wanted.len())?;
    for pair in wanted {
        all.push(pair.timeline.wait(rt, pair.value))?;
    }
    Ok(all)
}

/// What a round of looks at several pairs came to.
pub(crate) enum Round {
    /// The pair of this number is reached, and this shows it.
    Met(usize, Reached),
    /// Each has a note, since the bell was rung so often, modulo 2^32.
    Noted(u32),
    /// The bell was rung meanwhile.
    Rung,
}

impl Bell {
    /// The first pair whose value is reached now, if any is, with what shows it. Of the others it leaves
    /// notes that somebody waits, until one is reached or the bell is rung.
    fn asked_any<R: Wait>(rt: &R, wanted: &[Wanted<'_>]) -> Round
        ensures { IsRound wanted.now result }
    {
        let mut first = None;
        for (number, pair) in wanted.iter().enumerate() {
            match pair.timeline.asked(rt, pair.value) {
                Ok(reached) => return Round::Met(number, reached),
                Err(note) => match first {
                    Some(rings) if rings != note.rings => return Round::Rung,
                    _ => first = Some(note.rings),
                },
            }
        }
        match first {
            Some(rings) => Round::Noted(rings),
            None => Round::Rung,
        }
    }

    /// Waits until one of the values is reached, and answers which, with what shows it. There is none
    /// exactly where no value is wanted, and then it doesn't wait. Each timeline rings this bell.
    pub fn wait_any<R: Wait>(&self, rt: &R, wanted: &[Wanted<'_>]) -> Option<(usize, Reached)>
        requires bell { All (λ w. IsOn self.now w.timeline.now) wanted.now }
        ensures met { IfSome result (λ r. IsMetAt wanted.now r.0 r.1) }
        ensures none { result ≡ None → wanted.now ≡ [] }
    {
        if wanted.is_empty() {
            return None;
        }
        for _ in rt.forever() {
            match Bell::asked_any(rt, wanted) {
                Round::Met(number, reached) => return Some((number, reached)),
                Round::Noted(rings) => self.sleep(rt, rings),
                Round::Rung => {}
            }
        }
        unreachable!()
    }
}
