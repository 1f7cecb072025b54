//! The words of a block's line.
ghost use Rattle.std.specs.Prelude.{◌≡◌, ◌∷◌, codes, false, true};
ghost use Rattle.vq_blocks.specs.BlockForms.{matches_block};
ghost use Rattle.vq_blocks.specs.declared.block.BlockForm.TheVariants.{ThreadForm};
ghost use Rattle.vq_lexer.specs.Words.{texts};
ghost use Rattle.vq_hosts.specs.BlockWords.{IsCut};

/// The words at the open places of a block's line.
#[derive(Clone, Copy)]
pub enum BlockWords<'a> {
    Thread { name: &'a [u8] },
    /// A name and a numeral for each pair.
    Wait { pairs: &'a [&'a [u8]] },
    Signal { timeline: &'a [u8], value: &'a [u8] },
    End,
}

/// Whether words begin a block.
pub fn is_thread(words: &[&[u8]]) -> bool
    ensures { result ≡ matches_block (texts words.now) ThreadForm }
{
    match words {
        [first, _] => *first == b"thread".as_slice(),
        _ => false,
    }
}

/// The words of a line that begins a block.
fn thread_words<'a>(words: &'a [&'a [u8]]) -> Option<BlockWords<'a>>
    ensures { IsCut false (texts words.now) result }
{
    if !is_thread(words) {
        return None;
    }
    match words {
        [_, name] => Some(BlockWords::Thread { name }),
        _ => unreachable!(),
    }
}

/// The words of a wait: pairs behind the first word.
fn wait_words<'a>(first: &[u8], rest: &'a [&'a [u8]]) -> Option<BlockWords<'a>>
    requires { first.now ≡ codes "wait" }
    ensures { IsCut true (first.now ∷ texts rest.now) result }
{
    if rest.is_empty() || rest.len() % 2 != 0 {
        None
    } else {
        Some(BlockWords::Wait { pairs: rest })
    }
}

/// The words of a signal: a name and a numeral behind the first word.
fn signal_words<'a>(first: &[u8], rest: &'a [&'a [u8]]) -> Option<BlockWords<'a>>
    requires { first.now ≡ codes "signal" }
    ensures { IsCut true (first.now ∷ texts rest.now) result }
{
    match rest {
        [timeline, value] => Some(BlockWords::Signal { timeline, value }),
        _ => None,
    }
}

/// The words of a block's end: there are none behind the first.
fn end_words<'a>(first: &[u8], rest: &'a [&'a [u8]]) -> Option<BlockWords<'a>>
    requires { first.now ≡ codes "end" }
    ensures { IsCut true (first.now ∷ texts rest.now) result }
{
    if rest.is_empty() {
        Some(BlockWords::End)
    } else {
        None
    }
}

/// The words of a line inside a block.
fn inner_words<'a>(words: &'a [&'a [u8]]) -> Option<BlockWords<'a>>
    ensures { IsCut true (texts words.now) result }
{
    let [first, rest @ ..] = words else {
        return None;
    };
    if *first == b"wait".as_slice() {
        return wait_words(first, rest);
    }
    if *first == b"signal".as_slice() {
        return signal_words(first, rest);
    }
    if *first == b"end".as_slice() {
        return end_words(first, rest);
    }
    None
}

/// The words of a line of a block, inside it or where it begins.
pub fn block_words<'a>(inside: bool, words: &'a [&'a [u8]]) -> Option<BlockWords<'a>>
    ensures { IsCut inside (texts words.now) result }
{
    if inside {
        inner_words(words)
    } else {
        thread_words(words)
    }
}
