//! Stages.
ghost use Rattle.std.specs.Prelude.{◌≡◌};
ghost use Rattle.std.specs.List.{slice_split};
ghost use Rattle.vq_capture.specs.Masks.{no_stage, with_stage, word_stages};
ghost use Rattle.vq_capture.specs.MaskWords.{is_plus, stage_of, stages_of, stages_with};
ghost use Rattle.vq_capture_forms.specs.Parts.{uniform_stages};

use crate::parts::{first_part, is};
use vq_capture::stage::{Stage, StageMask};

/// A set of all stages, or of none.
fn all_or_none(all: bool) -> StageMask
    ensures { result ≡ uniform_stages all }
{
    StageMask {
        begin: all,
        indirect: all,
        input: all,
        vertex: all,
        early: all,
        fragment: all,
        late: all,
        color: all,
        compute: all,
        copy: all,
        host: all,
        other: all,
        end: all,
    }
}

/// Puts a stage into a set.
fn add_stage(mask: &mut StageMask, stage: Stage)
    ensures { mask.new ≡ with_stage mask.old stage }
{
    match stage {
        Stage::Begin => mask.begin = true,
        Stage::Indirect => mask.indirect = true,
        Stage::Input => mask.input = true,
        Stage::Vertex => mask.vertex = true,
        Stage::Early => mask.early = true,
        Stage::Fragment => mask.fragment = true,
        Stage::Late => mask.late = true,
        Stage::Color => mask.color = true,
        Stage::Compute => mask.compute = true,
        Stage::Copy => mask.copy = true,
        Stage::Host => mask.host = true,
        Stage::Other => mask.other = true,
        Stage::End => mask.end = true,
    }
}

/// The stage that a word names.
fn stage_of(word: &[u8]) -> Option<Stage>
    ensures { result ≡ stage_of word.now }
{
    if is(word, "indirect") {
        return Some(Stage::Indirect);
    }
    if is(word, "input") {
        return Some(Stage::Input);
    }
    if is(word, "vertex") {
        return Some(Stage::Vertex);
    }
    if is(word, "early") {
        return Some(Stage::Early);
    }
    if is(word, "fragment") {
        return Some(Stage::Fragment);
    }
    if is(word, "late") {
        return Some(Stage::Late);
    }
    if is(word, "color") {
        return Some(Stage::Color);
    }
    if is(word, "compute") {
        return Some(Stage::Compute);
    }
    if is(word, "copy") {
        return Some(Stage::Copy);
    }
    if is(word, "host") {
        return Some(Stage::Host);
    }
    if is(word, "other") {
        return Some(Stage::Other);
    }
    None
}

/// The stages of a word between plus signs.
fn joined_stages(word: &[u8]) -> Option<StageMask>
    ensures { result ≡ stages_with no_stage (slice_split is_plus word.now) }
{
    let mut mask = all_or_none(false);
    let mut left = Some(word);
    while let Some(part) = left {
        let (first, rest) = first_part(part, b'+');
        let Some(stage) = stage_of(first) else {
            return None;
        };
        add_stage(&mut mask, stage);
        left = rest;
    }
    Some(mask)
}

/// The stages that a word writes: `all`, `none`, or some with a plus sign between two.
pub fn stages_of(word: &[u8]) -> Option<StageMask>
    ensures { result ≡ stages_of word.now }
{
    if is(word, "all") {
        return Some(all_or_none(true));
    }
    if is(word, "none") {
        return Some(all_or_none(false));
    }
    joined_stages(word)
}

/// All stages that have a word.
pub fn every_word() -> StageMask
    ensures { result ≡ word_stages }
{
    StageMask {
        begin: false,
        end: false,
        ..all_or_none(true)
    }
}
