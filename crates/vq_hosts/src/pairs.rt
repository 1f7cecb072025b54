//! The pairs of a block's lines.
ghost use Rattle.std.specs.Prelude.{◌≡◌, ◌++◌, IfOk, OnOk, List, map};
ghost use Rattle.std.specs.Option.{option_to_list};
ghost use Rattle.std.specs.List.{list_all};
ghost use Rattle.vq_model.specs.LineFaults.{is_known};
ghost use Rattle.vq_model.specs.Meaning.{of_two, pair_places};
ghost use Rattle.vq_model.specs.Text.{words_in};
ghost use Rattle.vq_model.specs.Context.{number_at};
ghost use Rattle.vq_model.specs.ScriptOfLines.{mark};
ghost use Rattle.vq_model.specs.declared.statement.Form.TheVariants.{Plain};
ghost use Rattle.vq_model.specs.declared.statement.Line.{Line};
ghost use Rattle.vq_script.specs.Reads.{HasRead};
ghost use Rattle.vq_lexer.specs.Words.{texts};
ghost use Rattle.vq_hosts.specs.Pairs.{AddsPair, AreRead};

use std::alloc::{AllocError, Global};
use vq_forms::next_pair;
use vq_lexer::{is_name, numeral};
use vq_model::script::{Mark, Pair};
use vq_script::LineReader;

/// What words of pairs are: whether each name has the shape of one, each value is a numeral, and each name is that of a
/// timeline; and the pairs, if all are read.
#[derive(Drop)]
pub struct PairWords {
    pub shaped: bool,
    pub numeric: bool,
    pub known: bool,
    pub pairs: Vec<Pair>,
}

impl PairWords {
    /// Adds a pair of words.
    fn add(&mut self, reader: &LineReader, timeline: &[u8], value: &[u8]) -> Result<(), AllocError>
        ensures { OnOk result ((lines : List Line) → HasRead Plain lines reader.now →
            AddsPair (number_at lines) timeline.now value.now self.old self.new) }
    {
        let semaphore = reader.timeline(timeline);
        let number = numeral(value);
        push_some(&mut self.pairs, pair(semaphore, number))?;
        self.shaped &= is_name(timeline);
        self.numeric &= number.is_some();
        self.known &= semaphore.is_some();
        Ok(())
    }
}

/// The pair of a semaphore and a value, where both are there.
fn pair(semaphore: Option<u32>, value: Option<u64>) -> Option<Pair>
    ensures { result ≡ of_two (λ t v. record { semaphore = t; value = v }) semaphore value }
{
    let Some(semaphore) = semaphore else {
        return None;
    };
    let Some(value) = value else {
        return None;
    };
    Some(Pair { semaphore, value })
}

/// Adds a pair, if there is one.
fn push_some(pairs: &mut Vec<Pair>, pair: Option<Pair>) -> Result<(), AllocError>
    ensures { OnOk result (pairs.new.items ≡ pairs.old.items ++ option_to_list pair) }
{
    if let Some(pair) = pair {
        pairs.push(pair)?;
    }
    Ok(())
}

/// Reads words as pairs.
pub fn read_pairs(
    alloc: Global,
    reader: &LineReader,
    words: &[&[u8]],
) -> Result<PairWords, AllocError>
    ensures { IfOk result (λ found. (lines : List Line) → HasRead Plain lines reader.now →
        AreRead (number_at lines) (texts words.now) found) }
{
    let mut found = PairWords {
        shaped: true,
        numeric: true,
        known: true,
        pairs: Vec::new(alloc),
    };
    let mut rest = words;
    while let [timeline, value, after @ ..] = rest {
        found.add(reader, timeline, value)?;
        rest = after;
    }
    Ok(found)
}

/// Whether each pair of a part of a long line has the name of a timeline.
pub fn are_timelines(reader: &LineReader, part: &[u8]) -> bool
    ensures { (lines : List Line) → HasRead Plain lines reader.now →
        result ≡ list_all (is_known (number_at lines)) (pair_places (words_in part.now)) }
{
    let mut rest = part;
    while let Some((name, _, after)) = next_pair(rest) {
        if reader.timeline(name).is_none() {
            return false;
        }
        rest = after;
    }
    true
}

/// A pair as the mark of a line.
pub fn mark(number: u32, pair: Pair) -> Mark
    ensures { result ≡ mark number pair 1 }
{
    Mark {
        line: number,
        semaphore: pair.semaphore,
        value: pair.value,
        from: 1,
    }
}

/// Pairs as the marks of a line.
pub fn marks(alloc: Global, number: u32, pairs: &[Pair]) -> Result<Vec<Mark>, AllocError>
    ensures { IfOk result (λ marks. marks.items ≡ map (λ pair. mark number pair 1) pairs.now) }
{
    let mut marks = Vec::new(alloc);
    for pair in pairs {
        marks.push(mark(number, *pair))?;
    }
    Ok(marks)
}
