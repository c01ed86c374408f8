//! The `clap` command of `pamcheck`, built from a table of its commands and their arguments.

ghost use Rattle.std.specs.Prelude.{◌≡◌, false, find, option_map};
ghost use Rattle.std.specs.Option.{option_copied};
ghost use Rattle.clap.specs.Words.{App, app_of, rule_of};
ghost use Rattle.clap.specs.declared.builder.Command.TheViews.{out-Command as fields_of};
ghost use Rattle.pam_words.specs.inner.Building.{IsBuilt, app_of_row, rule_of_row, with_args as with_rules, with_commands as with_apps};
ghost use Rattle.pam_words.specs.inner.Building.{IsRowOf, app_for, app_of_one, is_named, shape_of_row};
ghost use Rattle.pam_words.specs.Words.{with_graphs, with_hosts, with_listings, with_lookups, with_stacks};
ghost use Rattle.pam_words.specs.Words.{bare_app, pamcheck_app, version};

use crate::arguments::{ArgForm, ArgRow, Argument};
use crate::commands::{CommandRow, GRAPHS, HOSTS, LISTINGS, LOOKUPS, PAGES, STACKS};
use crate::number::number_parser;
use clap::{Arg, ArgAction, Command};
use std::alloc::{AllocError, Global};

/// What the help says of the language server. These two words alone start it, and the program sees to them itself.
const EDITORS: &str =
    "For editors: 'pamcheck lsp' says what 'check' finds while a file is edited (pamcheck-lsp(8))";

/// Returns the version of the program, and the toolchain that proved it.
pub fn version() -> &'static str
    ensures { result.now ≡ version }
{
    "1.0.0 (proved with rattle, logic dac8208d650f15bf)"
}

fn arg<'a>(alloc: Global, row: ArgRow) -> Arg<'a>
    ensures rule { rule_of result ≡ rule_of_row row }
    ensures local { result.global ≡ false }
{
    let arg = Arg::new(alloc, row.id).value_name(row.name).help(row.help);
    match row.form {
        ArgForm::Positional => arg.required(true),
        ArgForm::OptionalPositional => arg,
        ArgForm::Repeated => arg.action(ArgAction::Append),
        ArgForm::RequiredWords => arg.required(true).action(ArgAction::Append),
        ArgForm::Optional => arg.long(row.id),
        ArgForm::RepeatedOption => arg.long(row.id).action(ArgAction::Append),
        ArgForm::Required => arg.long(row.id).required(true),
        ArgForm::RequiredRepeated => arg.long(row.id).required(true).action(ArgAction::Append),
        ArgForm::Number => arg.long(row.id).value_parser(number_parser()),
        ArgForm::Flag => arg.long(row.id).action(ArgAction::SetTrue),
    }
}

/// Adds arguments to a command.
fn with_args<'a>(
    alloc: Global,
    command: Command<'a>,
    arguments: &[Argument],
) -> Result<Command<'a>, AllocError>
    requires { (fields_of command).has_globals ≡ false }
    ensures { IsBuilt result (with_rules (app_of command.entry) arguments.now) }
{
    let mut command = command;
    for argument in arguments {
        command = command.arg(arg(alloc, argument.row()))?;
    }
    Ok(command)
}

fn command_of<'a>(alloc: Global, row: &CommandRow) -> Result<Command<'a>, AllocError>
    ensures { IsBuilt result (app_of_row row.now) }
{
    with_args(
        alloc,
        Command::new(alloc, row.name)
            .about(row.about)
            .after_help(row.examples),
        row.args,
    )
}

/// Adds commands to a command.
fn with_commands<'a>(
    alloc: Global,
    command: Command<'a>,
    rows: &[CommandRow],
) -> Result<Command<'a>, AllocError>
    requires { (fields_of command).has_globals ≡ false }
    ensures { (app : App) → app_of command.entry ≡ app → IsBuilt result (with_apps app rows.now) }
{
    let mut command = command;
    for row in rows {
        command = command.subcommand(command_of(alloc, row)?)?;
    }
    Ok(command)
}

/// Returns the command line without its commands.
fn bare_command<'a>(alloc: Global) -> Command<'a>
    ensures app { app_of result ≡ bare_app }
    ensures local { (fields_of result).has_globals ≡ false }
{
    Command::new(alloc, "pamcheck")
        .about("Checks what the PAM configuration of a system can decide")
        .after_help(EDITORS)
        .version(version())
        .subcommand_required(true)
}

/// Returns the command line with the commands up to those about whole configurations.
fn up_to_hosts<'a>(alloc: Global) -> Result<Command<'a>, AllocError>
    ensures { IsBuilt result (with_hosts bare_app) }
{
    with_commands(alloc, bare_command(alloc), &HOSTS)
}

/// Returns the command line with the commands up to those about a stack as it is.
fn up_to_stacks<'a>(alloc: Global) -> Result<Command<'a>, AllocError>
    ensures { IsBuilt result (with_stacks (with_hosts bare_app)) }
{
    with_commands(alloc, up_to_hosts(alloc)?, &STACKS)
}

/// Returns the command line with the commands up to those that list paths.
fn up_to_listings<'a>(alloc: Global) -> Result<Command<'a>, AllocError>
    ensures { IsBuilt result (with_listings (with_stacks (with_hosts bare_app))) }
{
    with_commands(alloc, up_to_stacks(alloc)?, &LISTINGS)
}

/// Returns the command line with the commands up to those about all runs of a stack.
fn up_to_graphs<'a>(alloc: Global) -> Result<Command<'a>, AllocError>
    ensures { IsBuilt result (with_graphs (with_listings (with_stacks (with_hosts bare_app)))) }
{
    with_commands(alloc, up_to_listings(alloc)?, &GRAPHS)
}

/// Returns the command line with the commands up to those that look a login up.
fn up_to_lookups<'a>(alloc: Global) -> Result<Command<'a>, AllocError>
    ensures { IsBuilt result (with_lookups (with_graphs (with_listings (with_stacks (with_hosts bare_app))))) }
{
    with_commands(alloc, up_to_graphs(alloc)?, &LOOKUPS)
}

/// Returns the whole command line, as a `clap` command.
fn pamcheck_command<'a>(alloc: Global) -> Result<Command<'a>, AllocError>
    ensures { IsBuilt result pamcheck_app }
{
    with_commands(alloc, up_to_lookups(alloc)?, &PAGES)
}

/// Returns the row with this name in a table.
#[tactic(auto, unfolding(crate::specs::inner::Building::IsRowOf))]
fn row_in(rows: &'static [CommandRow], name: &str) -> Option<&'static CommandRow>
    ensures { IsRowOf name.now rows.now result }
{
    rows.iter().find(|row| row.name == name)
}

/// Returns the row with this name.
fn row_of(name: &str) -> Option<&'static CommandRow>
    ensures { option_map (λ row. shape_of_row row.now) result ≡ find (is_named name.now) pamcheck_app.subs }
{
    row_in(&HOSTS, name)
        .or(row_in(&STACKS, name))
        .or(row_in(&LISTINGS, name))
        .or(row_in(&GRAPHS, name))
        .or(row_in(&LOOKUPS, name))
        .or(row_in(&PAGES, name))
}

/// Returns the command line with the command of this row and no other.
fn one_command<'a>(alloc: Global, row: &CommandRow) -> Result<Command<'a>, AllocError>
    ensures { IsBuilt result (app_of_one (shape_of_row row.now)) }
{
    bare_command(alloc).subcommand(command_of(alloc, row)?)
}

/// Returns the command line for words in which this name follows the program's name. If a command has the name, there is no
/// other: `clap` reads such words by that command alone. If none has it, or there is no word, all are there.
pub fn command_for<'a>(alloc: Global, name: Option<&str>) -> Result<Command<'a>, AllocError>
    ensures { IsBuilt result (app_for (option_copied name.entry)) }
{
    match name.and_then(row_of) {
        Some(row) => one_command(alloc, row),
        None => pamcheck_command(alloc),
    }
}
