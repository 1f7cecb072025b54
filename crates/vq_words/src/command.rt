//! The options, as `clap` knows them.
ghost use Rattle.std.specs.Prelude.{◌≡◌, IfOk};
ghost use Rattle.clap.specs.Words.{app_of, with_rule};
ghost use Rattle.vq_words.specs.Options.{action_for, choice_of, option_rule, vq_options, without_options};

use crate::table::{Asks, OptionRow, options};
use clap::{Arg, ArgAction, Command};
use std::alloc::{AllocError, Global};

/// The command without options, with neither help nor a version.
fn plain<'a>(alloc: Global) -> Command<'a>
    ensures { app_of result ≡ without_options }
{
    Command::new(alloc, "vq")
        .no_binary_name(true)
        .disable_help_flag(true)
}

/// What `clap` does with an option: it marks it, or keeps its value.
fn action_for(asks: Asks) -> ArgAction
    ensures { result ≡ action_for asks }
{
    match asks {
        Asks::Alone(_) => ArgAction::SetTrue,
        Asks::Numbered => ArgAction::Set,
    }
}

/// The command with one option more.
fn with_option<'a>(
    alloc: Global,
    command: Command<'a>,
    row: OptionRow,
) -> Result<Command<'a>, AllocError>
    ensures { IfOk result (λ c. app_of c ≡ with_rule (app_of command.entry) (option_rule (choice_of row))) }
{
    command.arg(
        Arg::new(alloc, row.word)
            .long(row.word)
            .action(action_for(row.asks)),
    )
}

/// The command with its options, and with neither help nor a version.
pub fn command<'a>(alloc: Global) -> Result<Command<'a>, AllocError>
    ensures { IfOk result (λ c. app_of c ≡ vq_options) }
{
    let mut command = plain(alloc);
    for row in options() {
        command = with_option(alloc, command, *row)?;
    }
    Ok(command)
}
