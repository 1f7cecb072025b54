//! The kinds of step that are made again and again, each of one call or a few.
use std::sync::atomic::{AtomicU64, Ordering};

/// What is made in each round.
#[derive(Clone, Copy)]
pub(crate) enum Step {
    /// A bare compare-exchange, on no timeline.
    Exchange,
    Value,
    Look,
    Find,
    Refer,
    Cancel,
    Turn,
    Whole,
    Signal,
    /// Two threads wake each other.
    Wake,
}

impl Step {
    /// The step of this name.
    pub(crate) fn named(name: &str) -> Option<Step> {
        match name {
            "bare-cas" => Some(Step::Exchange),
            "value" => Some(Step::Value),
            "look" => Some(Step::Look),
            "find" => Some(Step::Find),
            "refer" => Some(Step::Refer),
            "cancel" => Some(Step::Cancel),
            "turn" => Some(Step::Turn),
            "whole" => Some(Step::Whole),
            "signal" => Some(Step::Signal),
            "wake" => Some(Step::Wake),
            _ => None,
        }
    }
}

/// Steps of one kind, on a timeline with so many operations in flight: under its lock by one thread or two,
/// or by none beside this one, and then without a lock.
#[derive(Clone, Copy)]
pub(crate) struct Task {
    pub(crate) step: Step,
    pub(crate) rounds: u64,
    pub(crate) flight: u64,
    pub(crate) threads: u64,
}

/// Makes so many compare-exchanges on a word that nobody else changes. It says whether all hit.
pub(crate) fn are_exchanged(rounds: u64) -> bool {
    let word = AtomicU64::new(0);
    let mut is_right = true;
    for round in 0..rounds {
        is_right = exchanged(&word, round) && is_right;
    }
    is_right
}

/// One of them, there or back.
fn exchanged(word: &AtomicU64, round: u64) -> bool {
    let now = round % 2;
    word.compare_exchange(now, 1 - now, Ordering::SeqCst, Ordering::SeqCst)
        .is_ok()
}
