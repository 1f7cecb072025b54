//! What the answer of `clap` asks for.
ghost use Rattle.std.specs.Prelude.{◌≡◌, map, option_map};
ghost use Rattle.clap.specs.Words.{first_value, found_of};
ghost use Rattle.vq_words.specs.Grammar.{options};
ghost use Rattle.vq_words.specs.Options.{Nothing, choice_of, found_among, given_by, is_given, task_for, task_given, with_value};

use crate::rounds::number_of_rounds;
use crate::table::{Asks, OptionRow, options};
use crate::task::Task;
use clap::ArgMatches;

/// The options that were found among the words.
#[derive(Clone, Copy)]
pub(crate) enum Found<'a> {
    None,
    /// One, with its value.
    One { asks: Asks, value: &'a str },
    Several,
}

/// Whether an option that has this value is among the words: a flag has a value in any case.
fn is_given(asks: Asks, value: &str) -> bool
    ensures { result ≡ is_given asks value.now }
{
    match asks {
        Asks::Alone(_) => value == "true",
        Asks::Numbered => true,
    }
}

/// The task of an option that is among the words; none for a number outside its form.
fn task_for(asks: Asks, value: &str) -> Option<Task>
    ensures { result ≡ task_for asks value.now }
{
    match asks {
        Asks::Alone(task) => Some(task),
        Asks::Numbered => Some(Task::Generate(number_of_rounds(value.as_bytes())?)),
    }
}

impl<'a> Found<'a> {
    /// What is found with one option more, which has this value if any.
    fn with(self, asks: Asks, value: Option<&'a str>) -> Found<'a>
        ensures { given_by result ≡ with_value (given_by self.entry) asks (option_map (λ s. s.now) value.entry) }
    {
        let Some(value) = value else {
            return self;
        };
        if !is_given(asks, value) {
            return self;
        }
        match self {
            Found::None => Found::One { asks, value },
            Found::One { .. } | Found::Several => Found::Several,
        }
    }

    /// The task of the one option that was found: without any the script is run, and two ask for nothing.
    fn task(self) -> Option<Task>
        ensures { result ≡ task_given (given_by self.entry) }
    {
        match self {
            Found::None => Some(Task::Run),
            Found::One { asks, value } => task_for(asks, value),
            Found::Several => None,
        }
    }
}

/// The options of these rows that were found.
fn found_among<'a>(matches: &ArgMatches<'a>, rows: &[OptionRow]) -> Found<'a>
    ensures { given_by result ≡ found_among Nothing (map choice_of rows.now) (first_value (found_of matches.now)) }
{
    let mut found = Found::None;
    for row in rows {
        found = found.with(row.asks, matches.get_str(row.word));
    }
    found
}

/// The task that the answer asks for.
pub fn asked(matches: &ArgMatches) -> Option<Task>
    ensures { result ≡ task_given (found_among Nothing options (first_value (found_of matches.now))) }
{
    found_among(matches, options()).task()
}
