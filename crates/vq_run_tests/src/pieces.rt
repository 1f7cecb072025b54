//! Long inputs and texts, as the pieces that they are made of.
use crate::cases::{Case, ends};
use std::alloc::{AllocError, Global};
use std::marker::Sync;
use std::process::Abort;
use std::sync::Wait;
use std::thread::Threads;
use vq_run::Status;

/// A piece of a text.
#[derive(Clone, Copy)]
pub(crate) enum Piece {
    Once(&'static str),
    /// The same text so many times.
    Times(u32, &'static str),
    /// Each number from the first up to the second, which is left out, between two texts.
    Numbers(u32, u32, &'static str, &'static str),
}

/// Appends the same text so many times.
fn add_times(text: &mut Vec<u8>, times: u32, part: &str) -> Result<(), AllocError> {
    for _ in 0..times {
        text.extend_from_slice(part.as_bytes())?;
    }
    Ok(())
}

/// Appends a number between two texts.
fn add_number(
    alloc: Global,
    text: &mut Vec<u8>,
    number: u32,
    before: &str,
    after: &str,
) -> Result<(), AllocError> {
    let part = format!(in alloc; "{before}{number}{after}")?;
    text.extend_from_slice(part.as_bytes())
}

/// Appends a piece.
fn add(alloc: Global, text: &mut Vec<u8>, piece: &Piece) -> Result<(), AllocError> {
    match piece {
        Piece::Once(part) => text.extend_from_slice(part.as_bytes()),
        Piece::Times(times, part) => add_times(text, *times, part),
        Piece::Numbers(first, end, before, after) => {
            for number in *first..*end {
                add_number(alloc, text, number, before, after)?;
            }
            Ok(())
        }
    }
}

/// Appends pieces.
fn add_all(alloc: Global, text: &mut Vec<u8>, pieces: &[Piece]) -> Result<(), AllocError> {
    for piece in pieces {
        add(alloc, text, piece)?;
    }
    Ok(())
}

/// Whether a run of the script of these pieces writes this text and ends so.
fn pieces_end<'a, R: Threads + Wait + Sync>(
    rt: &R,
    alloc: Global,
    words: &'a [&'a str],
    pieces: &[Piece],
    text: &'a str,
    status: Status,
) -> bool {
    let mut input = Vec::new(alloc);
    let is_made = add_all(alloc, &mut input, pieces).is_ok();
    let case = Case::new(words, input.as_slice(), text.as_bytes(), status);
    is_made && ends(rt, alloc, &case)
}

/// Whether a run of an input is done, and writes the text of these pieces.
fn gives<R: Threads + Wait + Sync>(rt: &R, alloc: Global, input: &[u8], pieces: &[Piece]) -> bool {
    let mut text = Vec::new(alloc);
    let is_made = add_all(alloc, &mut text, pieces).is_ok();
    let case = Case::new(&[], input, text.as_slice(), Status::Done);
    is_made && ends(rt, alloc, &case)
}

/// Whether a run of the script of these pieces is done, and writes the text of those.
pub(crate) fn pieces_give<R: Threads + Wait + Sync>(
    rt: &R,
    alloc: Global,
    pieces: &[Piece],
    written: &[Piece],
) -> bool {
    let mut input = Vec::new(alloc);
    let is_made = add_all(alloc, &mut input, pieces).is_ok();
    is_made && gives(rt, alloc, input.as_slice(), written)
}

/// The pieces of a script, with what a run of it writes and how it ends.
pub(crate) type Row = (&'static [Piece], &'static str, Status);

/// Runs the script of each row, and compares the text that is written and how the run ends.
pub(crate) fn each_script_ends<'a, R: Threads + Wait + Abort + Sync>(
    rt: &R,
    alloc: Global,
    words: &'a [&'a str],
    rows: &'a [Row],
) {
    for (pieces, text, status) in rows {
        assert!(rt;
            pieces_end(rt, alloc, words, pieces, text, *status),
            "{text:?}"
        );
    }
}
