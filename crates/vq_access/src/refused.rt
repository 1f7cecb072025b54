//! The refusals of lists that an access met.
//!
//! Source: this project's own.
ghost use Rattle.std.specs.Prelude.{◌≡◌, ◌≤◌, None};
ghost use Rattle.vq_access_laws.specs.Causes.{refused};

use std::marker::Model;
use vq_turns::outcome::Want;

/// How many refusals there were, and the want of the last one. The count stands still at the greatest number.
#[derive(Drop)]
pub struct Refused {
    count: u64,
    last: Option<Want>,
}

impl Model for Refused {
    ghost use Rattle.vq_access_laws.specs.Causes.{Refusals};

    ghost Value = { Refusals };

    ghost view = { λ a. record { count = a.count; last = a.last } };
}

impl Refused {
    /// No refusal.
    pub fn none() -> Refused
        ensures { result ≡ record { count = 0; last = None } }
    {
        Refused {
            count: 0,
            last: None,
        }
    }

    /// One refusal more, for this want.
    pub(crate) fn keep(&mut self, want: Want)
        ensures kept { self.new ≡ refused self.old want }
        ensures more { self.old.count ≤ self.new.count }
    {
        self.count = self.count.saturating_add(1);
        self.last = Some(want);
    }
}
