//! The words by which a trace's line begins to tell an event.
ghost use Rattle.std.specs.Prelude.{◌≡◌, find};
ghost use Rattle.std.specs.Str.{bytes_eq};
ghost use Rattle.vq_given.specs.Words.{verb_of, verb_word, verbs};

use vq_given::verb::Verb;

/// All verbs.
fn verbs() -> &'static [Verb]
    ensures { result.now ≡ verbs }
{
    &[
        Verb::Submit,
        Verb::Take,
        Verb::Release,
        Verb::Bind,
        Verb::Refer,
        Verb::Look,
        Verb::Unref,
        Verb::Complete,
        Verb::Free,
        Verb::Start,
        Verb::Apply,
        Verb::Signal,
        Verb::Finish,
        Verb::Answer,
    ]
}

/// Whether a word is that of a verb.
fn is_word_of(verb: Verb, word: &[u8]) -> bool
    ensures { result ≡ bytes_eq word.now (verb_word verb) }
{
    match verb {
        Verb::Submit => word == b"submit".as_slice(),
        Verb::Take => word == b"take".as_slice(),
        Verb::Release => word == b"release".as_slice(),
        Verb::Bind => word == b"bind".as_slice(),
        Verb::Refer => word == b"refer".as_slice(),
        Verb::Look => word == b"look".as_slice(),
        Verb::Unref => word == b"unref".as_slice(),
        Verb::Complete => word == b"complete".as_slice(),
        Verb::Free => word == b"free".as_slice(),
        Verb::Start => word == b"start".as_slice(),
        Verb::Apply => word == b"apply".as_slice(),
        Verb::Signal => word == b"signal".as_slice(),
        Verb::Finish => word == b"finish".as_slice(),
        Verb::Answer => word == b"answer".as_slice(),
    }
}

/// The first of these verbs that has this word.
fn first_verb(verbs: &[Verb], word: &[u8]) -> Option<Verb>
    ensures { result ≡ find (λ v. bytes_eq word.now (verb_word v)) verbs.now }
{
    for verb in verbs {
        if is_word_of(*verb, word) {
            return Some(*verb);
        }
    }
    None
}

/// The verb of a word.
pub(crate) fn verb_of(word: &[u8]) -> Option<Verb>
    ensures { result ≡ verb_of word.now }
{
    first_verb(verbs(), word)
}
