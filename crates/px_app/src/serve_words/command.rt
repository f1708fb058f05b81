// The command `serve`, as clap is given it: long options only.
ghost use Rattle.std.specs.Prelude.{◌≡◌, false, IfOk, codes};
ghost use Rattle.clap.specs.Words.{app_of, rule_of, with_rule};
ghost use Rattle.px_app.specs.ServeCommand.{serve_command, option_rule, path_rule, accept_rule, tape_rule};

use clap::builder::ValueParser;
use clap::{Arg, ArgAction, Command};
use std::alloc::{AllocError, Global};

// An option with one value.
fn option<'a>(alloc: Global, name: &'a str) -> Arg<'a>
    ensures rule { rule_of result ≡ option_rule name.entry.now }
    ensures own { result.global ≡ false }
{
    Arg::new(alloc, name).long(name).action(ArgAction::Set)
}

// An option that must be there, whose value is a path.
fn path<'a>(alloc: Global, name: &'a str) -> Arg<'a>
    ensures rule { rule_of result ≡ path_rule name.entry.now }
    ensures own { result.global ≡ false }
{
    option(alloc, name)
        .required(true)
        .value_parser(ValueParser::NonEmptyString)
}

// The option for the number of links to accept.
fn accept<'a>(alloc: Global) -> Arg<'a>
    ensures rule { rule_of result ≡ accept_rule }
    ensures own { result.global ≡ false }
{
    option(alloc, "accept")
        .required(true)
        .value_parser(ValueParser::signed(1, 65535))
}

// The option that asks for a tape.
fn tape<'a>(alloc: Global) -> Arg<'a>
    ensures rule { rule_of result ≡ tape_rule }
    ensures own { result.global ≡ false }
{
    Arg::new(alloc, "tape")
        .long("tape")
        .action(ArgAction::SetTrue)
}

// Adds the paths of the header file and the socket.
fn with_sources<'a>(alloc: Global, command: Command<'a>) -> Result<Command<'a>, AllocError>
    ensures { IfOk result (λ more. app_of more ≡ with_rule (with_rule (app_of command.entry) (path_rule (codes "header"))) (path_rule (codes "socket"))) }
{
    command
        .arg(path(alloc, "header"))?
        .arg(path(alloc, "socket"))
}

// Adds the options that are paths.
fn with_paths<'a>(alloc: Global, command: Command<'a>) -> Result<Command<'a>, AllocError>
    ensures { IfOk result (λ more. app_of more
        ≡ with_rule (with_rule (with_rule (app_of command.entry) (path_rule (codes "header"))) (path_rule (codes "socket"))) (path_rule (codes "out"))) }
{
    with_sources(alloc, command)?.arg(path(alloc, "out"))
}

// Adds the options with a value that may be left out.
fn with_named<'a>(alloc: Global, command: Command<'a>) -> Result<Command<'a>, AllocError>
    ensures { IfOk result (λ more. app_of more
        ≡ with_rule (with_rule (app_of command.entry) (option_rule (codes "history"))) (option_rule (codes "source"))) }
{
    command
        .arg(option(alloc, "history"))?
        .arg(option(alloc, "source"))
}

// Adds the options that may be left out.
fn with_optional<'a>(alloc: Global, command: Command<'a>) -> Result<Command<'a>, AllocError>
    ensures { IfOk result (λ more. app_of more
        ≡ with_rule (with_rule (with_rule (app_of command.entry) (option_rule (codes "history"))) (option_rule (codes "source"))) tape_rule) }
{
    with_named(alloc, command)?.arg(tape(alloc))
}

// Adds the options that take no path.
fn with_others<'a>(alloc: Global, command: Command<'a>) -> Result<Command<'a>, AllocError>
    ensures { IfOk result (λ more. app_of more
        ≡ with_rule (with_rule (with_rule (with_rule (app_of command.entry) accept_rule) (option_rule (codes "history"))) (option_rule (codes "source"))) tape_rule) }
{
    with_optional(alloc, command.arg(accept(alloc))?)
}

// The command, before it is built.
pub fn command<'a>(alloc: Global) -> Result<Command<'a>, AllocError>
    ensures { IfOk result (λ command. app_of command ≡ serve_command) }
{
    let empty = Command::new(alloc, "serve").disable_help_flag(true);
    with_others(alloc, with_paths(alloc, empty)?)
}
