//! The options of the command line: a row for each.
ghost use Rattle.std.specs.Prelude.{◌≡◌, map};
ghost use Rattle.vq_words.specs.Grammar.{options};
ghost use Rattle.vq_words.specs.Options.{choice_of};

use crate::task::Task;

/// What an option asks for.
#[derive(Clone, Copy)]
pub enum Asks {
    /// This task, by its word alone.
    Alone(Task),
    /// A script of so many rounds, by its word and a number.
    Numbered,
}

/// An option: its word without hyphens, and what it asks for.
#[derive(Clone, Copy)]
pub struct OptionRow {
    pub word: &'static str,
    pub asks: Asks,
}

/// The options, a row for each.
pub fn options() -> &'static [OptionRow]
    ensures { map choice_of result.now ≡ options }
{
    &[
        OptionRow {
            word: "check",
            asks: Asks::Alone(Task::Check),
        },
        OptionRow {
            word: "replay",
            asks: Asks::Alone(Task::Replay),
        },
        OptionRow {
            word: "rounds",
            asks: Asks::Alone(Task::Rounds),
        },
        OptionRow {
            word: "upgrade",
            asks: Asks::Alone(Task::Upgrade),
        },
        OptionRow {
            word: "audit",
            asks: Asks::Alone(Task::Audit),
        },
        OptionRow {
            word: "hosts",
            asks: Asks::Alone(Task::Hosts),
        },
        OptionRow {
            word: "generate",
            asks: Asks::Numbered,
        },
    ]
}
