//! Texts with what the rules of the format say of them: the canonical text of each form of line, and a fault of each
//! kind.
use std::alloc::{AllocError, Global};
use vq_model::script::Script;
use vq_model::statement::{FaultKind, Form};
use vq_script::{ScriptFault, is_short, parse, print, upgrade};

/// The script that a text stands for.
fn script_of(alloc: Global, text: &[u8], form: Form) -> Result<Script, ScriptFault> {
    if !is_short(text) {
        return Err(ScriptFault::Memory);
    }
    parse(alloc, text, form)
}

/// A text, its first fault, and where that is.
type Faulty = (&'static str, Form, u32, FaultKind);

/// A fault of each kind.
const FAULTS: [Faulty; 10] = [
    ("buffer X 8\nversion 2", Form::Plain, 2, FaultKind::Syntax),
    (
        "queue Q threaded\nsubmit Q",
        Form::Plain,
        3,
        FaultKind::Syntax,
    ),
    ("queue Q threaded", Form::Scheduled, 2, FaultKind::Syntax),
    (
        "queue Q threaded\nsubmit Q\nend\nbuffer Y 0y",
        Form::Plain,
        4,
        FaultKind::Order,
    ),
    ("# a text\nbuffer X 0y", Form::Plain, 2, FaultKind::Number),
    (
        "queue Q threaded\nsubmit Q\nfill T 9 9 0",
        Form::Plain,
        3,
        FaultKind::Name,
    ),
    (
        "buffer X 8\nqueue X threaded",
        Form::Plain,
        2,
        FaultKind::Twice,
    ),
    (
        "buffer X 8\nqueue Q threaded\nsubmit Q\nfill X 4 18446744073709551612 0",
        Form::Plain,
        4,
        FaultKind::Range,
    ),
    (
        "buffer X 8\nqueue Q threaded\nsubmit Q\ncopy X 0 X 3 4",
        Form::Plain,
        4,
        FaultKind::Overlap,
    ),
    ("buffer Y 1048577", Form::Plain, 1, FaultKind::Limit),
];

/// Whether a text has this first fault.
fn is_faulty(alloc: Global, text: &str, form: Form, line: u32, kind: FaultKind) -> bool {
    match script_of(alloc, text.as_bytes(), form) {
        Ok(_script) => false,
        Err(fault) => fault == ScriptFault::At { line, kind },
    }
}

/// Whether texts have these first faults.
fn are_faulty(alloc: Global, rows: &[Faulty]) -> bool {
    for (text, form, line, kind) in rows {
        if !is_faulty(alloc, text, *form, *line, *kind) {
            return false;
        }
    }
    true
}

#[test]
fn kinds_of_faults(rt: HostRuntime) {
    assert!(rt; are_faulty(rt.alloc(), &FAULTS));
}

/// A text of these lines, and of others after them again and again.
fn repeated(alloc: Global, first: &str, again: &str, count: u32) -> Result<String, AllocError> {
    let mut text = String::from_str(alloc, first)?;
    for _ in 0..count {
        text.push_str(again)?;
    }
    Ok(text)
}

/// Whether such a text stands for a script.
fn is_script(alloc: Global, first: &str, again: &str, count: u32) -> bool {
    match repeated(alloc, first, again, count) {
        Ok(text) => script_of(alloc, text.as_str().as_bytes(), Form::Plain).is_ok(),
        Err(_) => false,
    }
}

#[test]
fn as_many_batches_as_may_be(rt: HostRuntime) {
    assert!(rt; is_script(rt.alloc(), "queue Q threaded\n", "submit Q\nend\n", 4096));
}

/// The canonical text of the script that a text stands for.
fn printed(alloc: Global, text: &[u8], form: Form) -> Option<Vec<u8>> {
    match script_of(alloc, text, form) {
        Ok(script) => print(alloc, &script).ok(),
        Err(_) => None,
    }
}

/// Whether a text stands for a script with this canonical text.
fn has_canonical(alloc: Global, text: &str, form: Form, canonical: &str) -> bool {
    match printed(alloc, text.as_bytes(), form) {
        Some(bytes) => bytes.as_slice() == canonical.as_bytes(),
        None => false,
    }
}

/// Whether texts do.
fn have_canonical(alloc: Global, rows: &[(&str, Form, &str)]) -> bool {
    for (text, form, canonical) in rows {
        if !has_canonical(alloc, text, *form, canonical) {
            return false;
        }
    }
    true
}

/// Texts with their canonical ones.
const CANONICAL: [(&str, Form, &str); 5] = [
    ("", Form::Plain, ""),
    (
        "queue Q immediate\r\n\nbuffer Y 0x0007\nbuffer X 16\nsubmit Q\nfill Y 04 whole 0xABC\n\
         update X 0 0aFF00b1 #\nend\nsubmit Q\ncopy X 1 Y 0x0 3\nfill X 0 4 4294967295\nend",
        Form::Plain,
        "buffer Y 7\nbuffer X 16\nqueue Q immediate\nsubmit Q\nfill Y 4 whole 0x00000abc\nupdate X 0 0aff00b1\n\
         end\nsubmit Q\ncopy X 1 Y 0 3\nfill X 0 4 0xffffffff\nend\n",
    ),
    (
        "queue Q  threaded\nfence F # done\nbuffer X 8\ntimeline T 0x5\nbinary S\nqueue I deferred\nsubmit Q\n\
         wait T 07\nwait S\nfill X 0 8 1\nsignal T 0x9\nsignal S\nfence F\nend\nsubmit I\n\
         signal T 18446744073709551615\nend",
        Form::Plain,
        "buffer X 8\nfence F\ntimeline T 5\nbinary S\nqueue Q threaded\nqueue I deferred\nsubmit Q\nwait T 7\n\
         wait S\nfill X 0 8 0x00000001\nsignal T 9\nsignal S\nfence F\nend\nsubmit I\n\
         signal T 18446744073709551615\nend\n",
    ),
    (
        "timeline T 0\nfence F\ntimeline U 0\nhost\tsignal T 0x7\nhost wait all  T 01 U 1 T 2 # three\n\
         host wait any T 1 U 5\nhost poll all U 3\nhost poll any U 3 T 1\nhost read U\nhost fence wait F\n\
         host fence poll F\n\nhost fence reset F\nhost idle",
        Form::Plain,
        "timeline T 0\nfence F\ntimeline U 0\nhost signal T 7\nhost wait all T 1 U 1 T 2\n\
         host wait any T 1 U 5\nhost poll all U 3\nhost poll any U 3 T 1\nhost read U\nhost fence wait F\n\
         host fence poll F\nhost fence reset F\nhost idle\n",
    ),
    (
        "queue P threaded\nqueue I immediate\nschedule # of turns\nhost 1\n\nhost\nS:P 0x2\n# more\nS:P\nR:P\nR:I\n\
         host 03\nhost",
        Form::Scheduled,
        "queue P threaded\nqueue I immediate\nschedule\nhost 2\nS:P 3\nR:P\nR:I\nhost 4\n",
    ),
];

#[test]
fn canonical_texts(rt: HostRuntime) {
    assert!(rt; have_canonical(rt.alloc(), &CANONICAL));
}

/// Whether the script that a text stands for has this canonical text as one of version 2.
fn has_upgrade(alloc: Global, text: &str, canonical: &str) -> Option<bool> {
    let script = upgrade(script_of(alloc, text.as_bytes(), Form::Plain).ok()?);
    let printed = print(alloc, &script).ok()?;
    Some(printed.as_slice() == canonical.as_bytes())
}

#[test]
fn an_upgrade_is_of_version_2(rt: HostRuntime) {
    let upgraded = has_upgrade(
        rt.alloc(),
        "queue  Q threaded # Q",
        "version 2\nqueue Q threaded\n",
    );
    assert!(rt; upgraded == Some(true));
}
