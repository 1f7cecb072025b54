//! A search by halves.
ghost use Rattle.std.specs.Prelude.{ℕ, ◌<◌, ◌≤◌, ◌-◌, true, false};

/// How many of so many numbers pass a test, where those that do are the first ones.
pub(crate) fn count_first<F: Fn(usize) -> bool>(count: usize, passes: F) -> usize
    requires { (k : ℕ) → k < count → F.pre passes k }
    ensures within { result ≤ count }
    ensures last { 0 < result → F.post passes (result - 1) true }
    ensures next { result < count → F.post passes result false }
{
    let mut low = 0;
    let mut high = count;
    while low < high {
        let middle = low + (high - low) / 2;
        if passes(middle) {
            low = middle + 1;
        } else {
            high = middle;
        }
    }
    low
}
