// The commands that `clap` reads the words by.
ghost use Rattle.std.specs.Prelude.{◌≡◌, IfOk, false};
ghost use Rattle.clap.specs.Words.{app_of, rule_of};
ghost use Rattle.clap.specs.declared.builder.command.Command.TheViews.{out-Command as fields_of};
ghost use Rattle.cta_words.specs.Commands.{cta_app, durable_app, memory_app, mill_app, place_rule, replay_app, serve_app, server_app, top_app};

use clap::{Arg, Command};
use std::alloc::{AllocError, Global};

// A place that takes one word, and has to have it.
fn place<'a>(alloc: Global, name: &'a str) -> Arg<'a>
    ensures rule { rule_of result ≡ place_rule name.entry.now }
    ensures local { result.global ≡ false }
{
    Arg::new(alloc, name).required(true)
}

// `replay SITE`
fn replay_command<'a>(alloc: Global) -> Result<Command<'a>, AllocError>
    ensures app { IfOk result (λ c. app_of c ≡ replay_app) }
    ensures local { IfOk result (λ c. (fields_of c).has_globals ≡ false) }
{
    Command::new(alloc, "replay").arg(place(alloc, "SITE"))
}

// A subcommand of this name with the places of a server: SITE ADDR MEDIA WORKERS.
fn server_command<'a>(alloc: Global, name: &'a str) -> Result<Command<'a>, AllocError>
    ensures app { IfOk result (λ c. app_of c ≡ server_app name.entry.now) }
    ensures local { IfOk result (λ c. (fields_of c).has_globals ≡ false) }
{
    Command::new(alloc, name)
        .arg(place(alloc, "SITE"))?
        .arg(place(alloc, "ADDR"))?
        .arg(place(alloc, "MEDIA"))?
        .arg(place(alloc, "WORKERS"))
}

// `serve SITE ADDR MEDIA WORKERS`
fn serve_command<'a>(alloc: Global) -> Result<Command<'a>, AllocError>
    ensures app { IfOk result (λ c. app_of c ≡ serve_app) }
    ensures local { IfOk result (λ c. (fields_of c).has_globals ≡ false) }
{
    server_command(alloc, "serve")
}

// `mill SEED FILES WORKERS`
fn mill_command<'a>(alloc: Global) -> Result<Command<'a>, AllocError>
    ensures app { IfOk result (λ c. app_of c ≡ mill_app) }
    ensures local { IfOk result (λ c. (fields_of c).has_globals ≡ false) }
{
    Command::new(alloc, "mill")
        .arg(place(alloc, "SEED"))?
        .arg(place(alloc, "FILES"))?
        .arg(place(alloc, "WORKERS"))
}

// `durable SITE ADDR MEDIA WORKERS JOURNAL`
fn durable_command<'a>(alloc: Global) -> Result<Command<'a>, AllocError>
    ensures app { IfOk result (λ c. app_of c ≡ durable_app) }
    ensures local { IfOk result (λ c. (fields_of c).has_globals ≡ false) }
{
    server_command(alloc, "durable")?.arg(place(alloc, "JOURNAL"))
}

// `cta` with no subcommand yet: its words begin behind the program's name, and nothing is added to what it is given.
fn top_command<'a>(alloc: Global) -> Command<'a>
    ensures { app_of result ≡ top_app }
{
    Command::new(alloc, "cta")
        .no_binary_name(true)
        .subcommand_required(true)
        .disable_help_flag(true)
        .disable_help_subcommand(true)
        .disable_version_flag(true)
}

// `cta` with the three subcommands that keep their history in memory alone.
fn memory_command<'a>(alloc: Global) -> Result<Command<'a>, AllocError>
    ensures { IfOk result (λ c. app_of c ≡ memory_app) }
{
    top_command(alloc)
        .subcommand(replay_command(alloc)?)?
        .subcommand(serve_command(alloc)?)?
        .subcommand(mill_command(alloc)?)
}

// `cta` with its four subcommands.
pub(crate) fn cta_command<'a>(alloc: Global) -> Result<Command<'a>, AllocError>
    ensures { IfOk result (λ c. app_of c ≡ cta_app) }
{
    memory_command(alloc)?.subcommand(durable_command(alloc)?)
}
