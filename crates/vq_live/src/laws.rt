//! Laws over whole runs of calls. A run is a list of calls that weren't refused, with what they
//! answered (`specs/Runs`); a refused call changes nothing. The functions do nothing: their contracts
//! are the laws.
ghost use Rattle.std.specs.Prelude.{◌≡◌, ◌≤◌, ℕ, List, length};
ghost use Rattle.vq_live.specs.declared.answers.Given.{Given};
ghost use Rattle.vq_live.specs.declared.answers.Found.TheVariants as found_as;
ghost use Rattle.vq_live.specs.Live.{Live, KeepsLive, AreParted, opened};
ghost use Rattle.vq_live.specs.Calls.{found};
ghost use Rattle.vq_live.specs.Runs.{Event, taking, IsRun, MayCome, after_all, IsLeft, UsesAtMost};

/// Each point carries an operation, or is only held, or is free, and no two of these.
pub fn points_are_parted()
    ensures { (t : Live) → KeepsLive t → AreParted t }
{}

/// Every run keeps the law of a live timeline, from its opening on.
pub fn runs_keep_the_law()
    ensures opening { (initial : ℕ) → KeepsLive (opened initial) }
    ensures runs { (t : Live) → (events : List Event) → KeepsLive t → IsRun t events →
        KeepsLive (after_all t events) }
{}

/// The payload never falls.
pub fn payload_never_falls()
    ensures { (t : Live) → (events : List Event) → KeepsLive t → IsRun t events →
        t.payload ≤ (after_all t events).payload }
{}

/// A value that was found past is found past ever after.
pub fn past_stays_past()
    ensures { (t : Live) → (events : List Event) → (value : ℕ) → KeepsLive t → IsRun t events →
        found t value ≡ found_as.Past → found (after_all t events) value ≡ found_as.Past }
{}

/// A point is given again only when it is left: by the calls that came before, its operation is
/// completed or cancelled, and each reference to it is given back.
pub fn points_are_given_when_left()
    ensures { (initial : ℕ) → (events : List Event) → (x : Given) → IsRun (opened initial) events →
        MayCome (after_all (opened initial) events) (taking x) → IsLeft x.point events }
{}

/// A run in which never more than so many points carry an operation or are held makes no more points.
pub fn points_are_bounded()
    ensures { (initial : ℕ) → (most : ℕ) → (events : List Event) → IsRun (opened initial) events →
        UsesAtMost most (opened initial) events → length (after_all (opened initial) events).slots ≤ most }
{}
