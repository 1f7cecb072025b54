//! The fault of a line with more words than any line without one has. The words are found again from its bytes for each
//! test, so that no list of them is kept.
ghost use Rattle.std.specs.Prelude.{◌≡◌, ◌<◌, ◌/◌, List, Some, Err, ℕ, find, length, true};
ghost use Rattle.std.specs.List.{list_all};
ghost use Rattle.vq_model.specs.LineFaults.{is_known};
ghost use Rattle.vq_model.specs.Meaning.{matches, pair_places};
ghost use Rattle.vq_model.specs.Reading.{read_statement};
ghost use Rattle.vq_model.specs.Text.{words_in};
ghost use Rattle.vq_model.specs.declared.statement.Line.{Line};
ghost use Rattle.vq_forms.specs.Table.{forms_of};
ghost use Rattle.vq_lexer.specs.Words.{texts};
ghost use Rattle.vq_forms.specs.Few.{AreCutOff};
ghost use Rattle.vq_script.specs.Faults.{first_fault};
ghost use Rattle.vq_script.specs.Holds.{Keeps, kept, open_so_far, section_of};
ghost use Rattle.vq_script.specs.LineTests.{number_of};
ghost use Rattle.vq_script.specs.SaidLines.{is_pairs_line};

use crate::known::Known;
use crate::line_faults::is_late;
use vq_forms::{
    Token, are_even, are_names, are_numerals, are_plain, behind_head, form_of, next_pair,
};
use vq_model::statement::{FaultKind, Form, LineForm};

/// Whether each pair of a part has the name of a timeline.
fn are_timelines(known: &Known, part: &[u8]) -> bool
    ensures { result ≡ list_all (is_known (number_of (kept known.now))) (pair_places (words_in part.now)) }
{
    let mut rest = part;
    while let Some((name, _, after)) = next_pair(rest) {
        if known.number_of(Token::TimelineToken, name).is_none() {
            return false;
        }
        rest = after;
    }
    true
}

/// The first kind of the faults of a line of this form with these pairs, which are too many.
fn pairs_fault(known: &Known, form: LineForm, part: &[u8]) -> FaultKind
    requires pairs { is_pairs_line form ≡ true }
    requires many { 16 < length (words_in part.now) / 2 }
    ensures { (lines : List Line) → Keeps lines known.now →
        first_fault lines (form, pair_places (words_in part.now)) ≡ Some result }
{
    if !are_names(part) {
        return FaultKind::Syntax;
    }
    if is_late(known, form) {
        return FaultKind::Order;
    }
    if !are_numerals(part) {
        return FaultKind::Number;
    }
    if !are_timelines(known, part) {
        return FaultKind::Name;
    }
    FaultKind::Limit
}

/// The form of all words of a part, of which these are the first. A line of many words has a form with pairs or none:
/// its first words tell it, and whether all are even.
fn many_form(form: Form, known: &Known, words: &[&[u8]], part: &[u8]) -> Option<LineForm>
    requires { AreCutOff (texts words.now) (words_in part.now) }
    ensures { result ≡ find (matches (words_in part.now))
        (forms_of form known.now.version (section_of known.now.scheduled (open_so_far known.now.batch))) }
{
    if are_even(part) {
        form_of(form, known.version, known.section(), &words[..8])
    } else {
        form_of(form, known.version, known.section(), &words[..7])
    }
}

/// The first kind of the faults of a line whose words are those of a part: many, of which these are the first.
pub fn many_fault(form: Form, known: &Known, words: &[&[u8]], part: &[u8]) -> FaultKind
    requires { AreCutOff (texts words.now) (words_in part.now) }
    ensures { (lines : List Line) (n : ℕ) → Keeps lines known.now →
        read_statement form lines n (words_in part.now) ≡ Err result }
{
    if !are_plain(part) {
        return FaultKind::Syntax;
    }
    let Some(found) = many_form(form, known, words, part) else {
        return FaultKind::Syntax;
    };
    pairs_fault(known, found, behind_head(part))
}
