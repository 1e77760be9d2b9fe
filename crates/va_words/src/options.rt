// The options as clap has them.
ghost use Rattle.std.specs.Prelude.{◌≡◌, Bool, false, List, ℕ, Option, IfOk, option_map};
ghost use Rattle.clap.specs.Words.{app_of, found_of, rows_of, rule_of};
ghost use Rattle.clap.specs.declared.builder.action.ArgAction.TheVariants as actions;
ghost use Rattle.va_words.specs.Options.{mode_shown, option_rule, options_app, Shows};

use crate::form::Mode;
use crate::number::number;
use clap::{Arg, ArgAction, ArgMatches, Command};
use std::alloc::{AllocError, Global};

/// The most vectors of a run of `--work`.
const MOST_WORK: u32 = 20_000;

fn flag<'a>(alloc: Global, name: &'a str) -> Arg<'a>
    ensures rule { rule_of result ≡ option_rule name.entry.now actions.SetTrue }
    ensures local { result.global ≡ false }
{
    Arg::new(alloc, name).long(name).action(ArgAction::SetTrue)
}

fn valued<'a>(alloc: Global, name: &'a str) -> Arg<'a>
    ensures rule { rule_of result ≡ option_rule name.entry.now actions.Set }
    ensures local { result.global ≡ false }
{
    Arg::new(alloc, name).long(name).action(ArgAction::Set)
}

// One simple command: no subcommands, no help flag, no version flag, no binary name.
pub(crate) fn command<'a>(alloc: Global) -> Result<Command<'a>, AllocError>
    ensures { IfOk result (λ command. app_of command ≡ options_app) }
{
    Command::new(alloc, "va_cli")
        .no_binary_name(true)
        .disable_help_flag(true)
        .arg(flag(alloc, "csv"))?
        .arg(flag(alloc, "export"))?
        .arg(valued(alloc, "work"))
}

// The mode of what options show, if the number behind one is a number.
fn chosen(csv: bool, export: bool, work: Option<&str>) -> Option<Mode>
    ensures { result ≡ mode_shown csv export (option_map (λ text. text.now) work.entry) }
{
    if csv {
        return Some(Mode::Csv);
    }
    if export {
        return Some(Mode::Export);
    }
    let Some(text) = work else {
        return Some(Mode::Plain);
    };
    let number = number(text, MOST_WORK)?;
    Some(Mode::Work(number))
}

// The mode that the matches show.
pub(crate) fn shown(matches: &ArgMatches<'_>) -> Option<Mode>
    ensures { (csv export : Bool) (work : Option (List ℕ)) → Shows (rows_of (found_of matches.now)) csv export work
        → result ≡ mode_shown csv export work }
{
    let csv = matches.get_flag("csv");
    let export = matches.get_flag("export");
    chosen(csv, export, matches.get_str("work"))
}
