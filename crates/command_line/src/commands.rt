//! The commands and their arguments, as `clap` takes them.
ghost use Rattle.std.specs.Prelude.{◌≡◌, IfOk};
ghost use Rattle.clap.specs.Words.{app_of, new_app, with_rule, with_subcommand};
ghost use Rattle.command_line.specs.Building;
ghost use Rattle.command_line.specs.Building.{IsArgument, IsCommand};
ghost use Rattle.command_line.specs.CommandLine;

use clap::{Arg, ArgAction, Command};
use collections::both;
use std::alloc::{AllocError, Global};

fn option<'a>(alloc: Global, id: &'a str) -> Arg<'a>
    ensures { IsArgument (CommandLine.option_rule id.entry.now) result }
{
    Arg::new(alloc, id).long(id).action(ArgAction::Set)
}

fn one_name<'a>(alloc: Global, id: &'a str) -> Arg<'a>
    ensures { IsArgument (CommandLine.name_rule id.entry.now) result }
{
    Arg::new(alloc, id).required(true).action(ArgAction::Set)
}

fn names<'a>(alloc: Global, id: &'a str) -> Arg<'a>
    ensures { IsArgument (CommandLine.names_rule id.entry.now) result }
{
    Arg::new(alloc, id)
        .required(true)
        .num_args(1..)
        .action(ArgAction::Append)
}

// A command without arguments.
fn named<'a>(alloc: Global, name: &'a str) -> Result<Command<'a>, AllocError>
    ensures { IfOk result (IsCommand (new_app name.entry.now)) }
{
    Ok(Command::new(alloc, name))
}

// The command with an argument more.
fn with_argument<'a>(
    command: Result<Command<'a>, AllocError>,
    argument: Arg<'a>,
) -> Result<Command<'a>, AllocError>
    ensures { (app : _) → (rule : _) → IfOk command.entry (IsCommand app) → IsArgument rule argument.entry
        → IfOk result (IsCommand (with_rule app rule)) }
{
    command?.arg(argument)
}

// The command with a subcommand more.
fn with_command<'a>(
    command: Result<Command<'a>, AllocError>,
    subcommand: Result<Command<'a>, AllocError>,
) -> Result<Command<'a>, AllocError>
    ensures { (app : _) → (under : _) → IfOk command.entry (IsCommand app) → IfOk subcommand.entry (IsCommand under)
        → IfOk result (IsCommand (with_subcommand app under.top)) }
{
    let (command, subcommand) = both(command, subcommand)?;
    command.subcommand(subcommand)
}

// A command with the options of a store.
fn with_limits<'a>(alloc: Global, name: &'a str) -> Result<Command<'a>, AllocError>
    ensures { IfOk result (IsCommand (CommandLine.with_limits (new_app name.entry.now))) }
{
    let command = with_argument(named(alloc, name), option(alloc, "max-terms"));
    let command = with_argument(command, option(alloc, "max-triples"));
    with_argument(command, option(alloc, "block"))
}

fn run<'a>(alloc: Global) -> Result<Command<'a>, AllocError>
    ensures { IfOk result (IsCommand CommandLine.run) }
{
    let command = with_argument(with_limits(alloc, "run"), option(alloc, "log"));
    with_argument(command, names(alloc, "files"))
}

fn replay<'a>(alloc: Global) -> Result<Command<'a>, AllocError>
    ensures { IfOk result (IsCommand CommandLine.replay) }
{
    let command = with_argument(with_limits(alloc, "replay"), one_name(alloc, "history"));
    with_argument(command, names(alloc, "files"))
}

fn create_log<'a>(alloc: Global) -> Result<Command<'a>, AllocError>
    ensures { IfOk result (IsCommand CommandLine.create_log) }
{
    with_argument(named(alloc, "create-log"), one_name(alloc, "name"))
}

fn follow<'a>(alloc: Global) -> Result<Command<'a>, AllocError>
    ensures { IfOk result (IsCommand CommandLine.follow) }
{
    let command = with_argument(named(alloc, "follow"), one_name(alloc, "log"));
    let command = with_argument(command, one_name(alloc, "order"));
    with_argument(command, one_name(alloc, "number"))
}

// A command with the names of a data graph and a shapes graph.
fn with_graphs<'a>(alloc: Global, name: &'a str) -> Result<Command<'a>, AllocError>
    ensures { IfOk result (IsCommand (Building.with_graphs (new_app name.entry.now))) }
{
    let command = with_argument(named(alloc, name), one_name(alloc, "data"));
    with_argument(command, one_name(alloc, "shapes"))
}

fn validate<'a>(alloc: Global) -> Result<Command<'a>, AllocError>
    ensures { IfOk result (IsCommand CommandLine.validate) }
{
    with_graphs(alloc, "validate")
}

fn explain<'a>(alloc: Global) -> Result<Command<'a>, AllocError>
    ensures { IfOk result (IsCommand CommandLine.explain) }
{
    with_graphs(alloc, "explain")
}

fn verify<'a>(alloc: Global) -> Result<Command<'a>, AllocError>
    ensures { IfOk result (IsCommand CommandLine.verify) }
{
    with_argument(with_graphs(alloc, "verify"), one_name(alloc, "evidence"))
}

fn generate<'a>(alloc: Global) -> Result<Command<'a>, AllocError>
    ensures { IfOk result (IsCommand CommandLine.generate) }
{
    with_argument(named(alloc, "generate"), one_name(alloc, "numbers"))
}

// The program's command, which takes one of others.
fn program<'a>(alloc: Global) -> Result<Command<'a>, AllocError>
    ensures { IfOk result (IsCommand Building.program) }
{
    Ok(Command::new(alloc, "shacl_guard").subcommand_required(true))
}

// The program's command with those that run session files.
fn session_commands<'a>(alloc: Global) -> Result<Command<'a>, AllocError>
    ensures { IfOk result (IsCommand CommandLine.session_commands) }
{
    let command = with_command(program(alloc), run(alloc));
    with_command(command, replay(alloc))
}

// The program's command with those too that make a log and follow one.
fn store_commands<'a>(alloc: Global) -> Result<Command<'a>, AllocError>
    ensures { IfOk result (IsCommand CommandLine.store_commands) }
{
    let command = with_command(session_commands(alloc), create_log(alloc));
    with_command(command, follow(alloc))
}

// The program's command with those too that take a data graph and a shapes graph.
fn file_commands<'a>(alloc: Global) -> Result<Command<'a>, AllocError>
    ensures { IfOk result (IsCommand CommandLine.file_commands) }
{
    let command = with_command(store_commands(alloc), validate(alloc));
    let command = with_command(command, explain(alloc));
    with_command(command, verify(alloc))
}

/// The command that the words are read for.
pub fn command_line<'a>(alloc: Global) -> Result<Command<'a>, AllocError>
    ensures { IfOk result (λ c. app_of c ≡ CommandLine.command_line) }
{
    with_command(file_commands(alloc), generate(alloc))
}
