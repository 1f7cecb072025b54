//! Pairs of lines of a script.
ghost use Rattle.std.specs.Prelude.{◌≡◌};
ghost use Rattle.vq_order.specs.LeastLines.{comes_first, lower_of};

/// The lines of a fault, the lesser first.
#[derive(Clone, Copy)]
pub(crate) struct Lines {
    pub(crate) first: u32,
    pub(crate) second: u32,
}

/// Whether two lines come before two others: by the second line, and then by the first.
fn comes_first(a: Lines, b: Lines) -> bool
    ensures { result ≡ comes_first a b }
{
    a.second < b.second || (a.second == b.second && a.first < b.first)
}

/// The lesser of two pairs of lines that may be there.
pub(crate) fn lower(lowest: Option<Lines>, lines: Option<Lines>) -> Option<Lines>
    ensures { result ≡ lower_of lowest lines }
{
    let Some(lines) = lines else {
        return lowest;
    };
    let Some(other) = lowest else {
        return Some(lines);
    };
    if comes_first(lines, other) {
        Some(lines)
    } else {
        Some(other)
    }
}
