//! What words say at their places, each of which is read once.
ghost use Rattle.std.specs.Prelude.{◌≡◌};
ghost use Rattle.vq_capture.specs.MaskWords.{no_access};
ghost use Rattle.vq_capture.specs.Masks.{no_stage};
ghost use Rattle.vq_capture.specs.Statements.{empty_scope};
ghost use Rattle.vq_capture_reader.specs.Said.{line_in, line_of, line_or, number_in, number_of, scope_in};
ghost use Rattle.vq_capture_reader.specs.Said.{stages_of, thread_in};

use crate::past_names::Thing;
use vq_capture::stage::{AccessMask, Scope, StageMask};

/// What a word says at its place: what its name stands for, its number or its scope, if it has one.
#[derive(Clone, Copy)]
pub enum Said {
    Name(Option<Thing>),
    Number(Option<u64>),
    Stages(Option<Scope>),
}

fn no_stage() -> StageMask
    ensures { result ≡ no_stage }
{
    StageMask {
        begin: false,
        indirect: false,
        input: false,
        vertex: false,
        early: false,
        fragment: false,
        late: false,
        color: false,
        compute: false,
        copy: false,
        host: false,
        other: false,
        end: false,
    }
}

fn no_access() -> AccessMask
    ensures { result ≡ no_access }
{
    AccessMask {
        memory_read: false,
        memory_write: false,
        index_read: false,
        attribute_read: false,
        uniform_read: false,
        sampled_read: false,
        storage_read: false,
        storage_write: false,
        attachment_read: false,
    }
}

fn empty_scope() -> Scope
    ensures { result ≡ empty_scope }
{
    Scope {
        stages: no_stage(),
        accesses: no_access(),
    }
}

fn line_or(line: u64, said: Said) -> u64
    ensures { result ≡ line_or line said }
{
    match said {
        Said::Name(thing) => match thing {
            Some(thing) => thing.line,
            None => line,
        },
        _ => line,
    }
}

fn line_of(said: Said) -> u64
    ensures { result ≡ line_of said }
{
    match said {
        Said::Name(thing) => match thing {
            Some(thing) => thing.line,
            None => 0,
        },
        _ => 0,
    }
}

fn number_of(said: Said) -> u64
    ensures { result ≡ number_of said }
{
    match said {
        Said::Number(number) => number.unwrap_or(0),
        _ => 0,
    }
}

fn stages_of(said: Said) -> Scope
    ensures { result ≡ stages_of said }
{
    match said {
        Said::Stages(Some(scope)) => scope,
        _ => empty_scope(),
    }
}

/// The line that declared what stands at a place, 0 where there is none.
pub fn line_in(said: &[Said], place: usize) -> u64
    ensures { result ≡ line_in said.now place }
{
    match said.get(place) {
        Some(said) => line_of(*said),
        None => 0,
    }
}

/// The thread of the name at a place, which this line may be the first to name.
pub fn thread_in(line: u64, said: &[Said], place: usize) -> u64
    ensures { result ≡ thread_in line said.now place }
{
    match said.get(place) {
        Some(said) => line_or(line, *said),
        None => line,
    }
}

/// The number at a place, 0 where there is none.
pub fn number_in(said: &[Said], place: usize) -> u64
    ensures { result ≡ number_in said.now place }
{
    match said.get(place) {
        Some(said) => number_of(*said),
        None => 0,
    }
}

/// The scope at a place, an empty one where there is none.
pub fn scope_in(said: &[Said], place: usize) -> Scope
    ensures { result ≡ scope_in said.now place }
{
    match said.get(place) {
        Some(said) => stages_of(*said),
        None => empty_scope(),
    }
}
