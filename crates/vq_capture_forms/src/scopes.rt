//! Scopes.
ghost use Rattle.std.specs.Prelude.{◌≡◌, [], ◌∷◌};
ghost use Rattle.std.specs.List.{slice_split};
ghost use Rattle.vq_capture.specs.MaskWords.{access_scope_of, is_colon, scope_in, scope_of};

use crate::accesses::{accesses_of, no_access};
use crate::parts::{first_part, is};
use crate::stages::{every_word, stages_of};
use vq_capture::stage::Scope;

/// The scope of stages and of accesses, each by its word.
fn with_accesses(stages: &[u8], accesses: &[u8]) -> Option<Scope>
    ensures { result ≡ scope_in (stages.now ∷ accesses.now ∷ []) }
{
    if is(stages, "none") {
        return None;
    }
    let Some(stages) = stages_of(stages) else {
        return None;
    };
    let Some(accesses) = accesses_of(accesses) else {
        return None;
    };
    Some(Scope { stages, accesses })
}

/// The scope of stages alone, by their word.
fn without_accesses(stages: &[u8]) -> Option<Scope>
    ensures { result ≡ scope_in (stages.now ∷ []) }
{
    let Some(stages) = stages_of(stages) else {
        return None;
    };
    Some(Scope {
        stages,
        accesses: no_access(),
    })
}

/// The scope of the part of a word behind its first colon, and of the part before it.
fn with_rest(stages: &[u8], rest: &[u8]) -> Option<Scope>
    ensures { result ≡ scope_in (stages.now ∷ slice_split is_colon rest.now) }
{
    let (accesses, more) = first_part(rest, b':');
    match more {
        Some(_) => None,
        None => with_accesses(stages, accesses),
    }
}

/// The scope that a word writes: `none`, or `all` or stages with a plus sign between two, and then perhaps a colon and
/// kinds of accesses with a plus sign between two.
pub fn scope_of(word: &[u8]) -> Option<Scope>
    ensures { result ≡ scope_of word.now }
{
    let (stages, rest) = first_part(word, b':');
    match rest {
        Some(rest) => with_rest(stages, rest),
        None => without_accesses(stages),
    }
}

/// The scope of an access that a word writes: at some stage, of which `all` are those that have a word.
pub fn access_scope_of(word: &[u8]) -> Option<Scope>
    ensures { result ≡ access_scope_of word.now }
{
    let Some(scope) = scope_of(word) else {
        return None;
    };
    if is(word, "none") {
        return None;
    }
    if scope.stages.begin {
        return Some(Scope {
            stages: every_word(),
            accesses: scope.accesses,
        });
    }
    Some(scope)
}
