//! Sets of stages, and what is logically earlier or later.
ghost use Rattle.std.specs.Prelude.{◌≡◌, ◌&&◌, ◌||◌};
ghost use Rattle.vq_capture.specs.Masks.{at_stage, earlier, has_stage, later, meets};
ghost use Rattle.vq_capture_touched.specs.Uniform.{uniform_mask};

use vq_capture::stage::{Stage, StageMask};

/// A set of all stages, or of none.
pub fn uniform(all: bool) -> StageMask
    ensures { result ≡ uniform_mask all }
{
    StageMask {
        begin: all,
        indirect: all,
        input: all,
        vertex: all,
        early: all,
        fragment: all,
        late: all,
        color: all,
        compute: all,
        copy: all,
        host: all,
        other: all,
        end: all,
    }
}

/// Whether a stage is in a set.
pub fn has_stage(mask: &StageMask, stage: Stage) -> bool
    ensures { result ≡ has_stage mask.now stage }
{
    match stage {
        Stage::Begin => mask.begin,
        Stage::Indirect => mask.indirect,
        Stage::Input => mask.input,
        Stage::Vertex => mask.vertex,
        Stage::Early => mask.early,
        Stage::Fragment => mask.fragment,
        Stage::Late => mask.late,
        Stage::Color => mask.color,
        Stage::Compute => mask.compute,
        Stage::Copy => mask.copy,
        Stage::Host => mask.host,
        Stage::Other => mask.other,
        Stage::End => mask.end,
    }
}

/// The set of one stage.
pub fn at_stage(stage: Stage) -> StageMask
    ensures { result ≡ at_stage stage }
{
    let mut mask = uniform(false);
    match stage {
        Stage::Begin => mask.begin = true,
        Stage::Indirect => mask.indirect = true,
        Stage::Input => mask.input = true,
        Stage::Vertex => mask.vertex = true,
        Stage::Early => mask.early = true,
        Stage::Fragment => mask.fragment = true,
        Stage::Late => mask.late = true,
        Stage::Color => mask.color = true,
        Stage::Compute => mask.compute = true,
        Stage::Copy => mask.copy = true,
        Stage::Host => mask.host = true,
        Stage::Other => mask.other = true,
        Stage::End => mask.end = true,
    }
    mask
}

#[inline(always)]
fn either(a: bool, b: bool) -> bool
    ensures { result ≡ (a || b) }
{
    a || b
}

#[inline(always)]
fn both(a: bool, b: bool) -> bool
    ensures { result ≡ (a && b) }
{
    a && b
}

/// Whether some stage is in both.
pub fn meets(a: &StageMask, b: &StageMask) -> bool
    ensures { result ≡ meets a.now b.now }
{
    let some = both(a.begin, b.begin);
    let some = either(some, both(a.indirect, b.indirect));
    let some = either(some, both(a.input, b.input));
    let some = either(some, both(a.vertex, b.vertex));
    let some = either(some, both(a.early, b.early));
    let some = either(some, both(a.fragment, b.fragment));
    let some = either(some, both(a.late, b.late));
    let some = either(some, both(a.color, b.color));
    let some = either(some, both(a.compute, b.compute));
    let some = either(some, both(a.copy, b.copy));
    let some = either(some, both(a.host, b.host));
    let some = either(some, both(a.other, b.other));
    let some = either(some, both(a.end, b.end));
    some
}

/// The stages of a set, those that are logically earlier than one of them, and the beginning.
pub fn earlier(m: &StageMask) -> StageMask
    ensures { result ≡ earlier m.now }
{
    let indirect = m.indirect;
    let indirect = either(indirect, m.input);
    let indirect = either(indirect, m.vertex);
    let indirect = either(indirect, m.early);
    let indirect = either(indirect, m.fragment);
    let indirect = either(indirect, m.late);
    let indirect = either(indirect, m.color);
    let indirect = either(indirect, m.compute);
    let input = m.input;
    let input = either(input, m.vertex);
    let input = either(input, m.early);
    let input = either(input, m.fragment);
    let input = either(input, m.late);
    let input = either(input, m.color);
    let vertex = m.vertex;
    let vertex = either(vertex, m.early);
    let vertex = either(vertex, m.fragment);
    let vertex = either(vertex, m.late);
    let vertex = either(vertex, m.color);
    let early = m.early;
    let early = either(early, m.fragment);
    let early = either(early, m.late);
    let early = either(early, m.color);
    let fragment = m.fragment;
    let fragment = either(fragment, m.late);
    let fragment = either(fragment, m.color);
    let late = m.late;
    let late = either(late, m.color);
    let color = m.color;
    StageMask {
        begin: true,
        indirect,
        input,
        vertex,
        early,
        fragment,
        late,
        color,
        ..*m
    }
}

/// The stages of a set, those that are logically later than one of them, and the end.
pub fn later(m: &StageMask) -> StageMask
    ensures { result ≡ later m.now }
{
    let input = either(m.indirect, m.input);
    let vertex = either(input, m.vertex);
    let early = either(vertex, m.early);
    let fragment = either(early, m.fragment);
    let late = either(fragment, m.late);
    StageMask {
        input,
        vertex,
        early,
        fragment,
        late,
        color: either(late, m.color),
        compute: either(m.indirect, m.compute),
        end: true,
        ..*m
    }
}
