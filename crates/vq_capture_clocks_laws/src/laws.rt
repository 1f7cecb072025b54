//! Laws over the clocks of captures. The functions do nothing: their contracts are the laws.
ghost use Rattle.std.specs.Prelude.{◌≡◌, ◌++◌, ◌∷◌, ℕ, List};
ghost use Rattle.vq_capture.specs.declared.capture.Step.{Step};
ghost use Rattle.vq_capture.specs.Reading.{read_capture};
ghost use Rattle.vq_capture_clocks_laws.specs.Finding.{FindsRace, NoneEnds, found_race};

/// Above a step of a text, where no race ends above it, the clocks find the greatest line that races with it; where
/// they find none, all that conflicts with the step is ordered before it.
pub fn clocks_find_races()
    ensures { (text : List ℕ) → (above below : List Step) → (b : Step) →
        (read_capture text).steps ≡ above ++ b ∷ below → NoneEnds (read_capture text).steps above →
        FindsRace (read_capture text).steps b (found_race above b) }
{}
