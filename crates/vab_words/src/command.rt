// The command that the words are read by.
ghost use Rattle.std.specs.Prelude.{◌≡◌, IfOk, true, false, codes};
ghost use Rattle.clap.specs.Words.{app_of, new_app, rule_of};
ghost use Rattle.clap.specs.declared.builder.command.Command.TheViews.{out-Command as fields_of};
ghost use Rattle.vab_words.specs.Command.{flag_rule, option_rule, operand_rule, make_app};
ghost use Rattle.vab_words.specs.Command.{serve_app, operand_app, demo_app, no_verbs, vab_app};

use clap::{Arg, ArgAction, Command};
use std::alloc::{AllocError, Global};

fn option<'a>(alloc: Global, name: &'a str) -> Arg<'a>
    ensures rule { rule_of result ≡ option_rule name.entry.now }
    ensures local { result.global ≡ false }
{
    Arg::new(alloc, name).long(name).action(ArgAction::Set)
}

fn flag<'a>(alloc: Global, name: &'a str) -> Arg<'a>
    ensures rule { rule_of result ≡ flag_rule name.entry.now }
    ensures local { result.global ≡ false }
{
    Arg::new(alloc, name).long(name).action(ArgAction::SetTrue)
}

fn operand<'a>(alloc: Global, name: &'a str) -> Arg<'a>
    ensures rule { rule_of result ≡ operand_rule name.entry.now }
    ensures local { result.global ≡ false }
{
    Arg::new(alloc, name).required(true).action(ArgAction::Set)
}

fn make<'a>(alloc: Global) -> Result<Command<'a>, AllocError>
    ensures app { IfOk result (λ c. app_of c ≡ make_app) }
    ensures local { IfOk result (λ c. (fields_of c).has_globals ≡ false) }
{
    Command::new(alloc, "make")
        .arg(option(alloc, "limit"))?
        .arg(option(alloc, "metadata-max"))
}

fn serve<'a>(alloc: Global) -> Result<Command<'a>, AllocError>
    ensures app { IfOk result (λ c. app_of c ≡ serve_app) }
    ensures local { IfOk result (λ c. (fields_of c).has_globals ≡ false) }
{
    Command::new(alloc, "serve")
        .arg(flag(alloc, "fresh"))?
        .arg(option(alloc, "turns"))
}

fn with_operand<'a>(alloc: Global, verb: &'a str, name: &'a str) -> Result<Command<'a>, AllocError>
    ensures app { IfOk result (λ c. app_of c ≡ operand_app verb.entry.now name.entry.now) }
    ensures local { IfOk result (λ c. (fields_of c).has_globals ≡ false) }
{
    Command::new(alloc, verb).arg(operand(alloc, name))
}

fn demo<'a>(alloc: Global) -> Result<Command<'a>, AllocError>
    ensures app { IfOk result (λ c. app_of c ≡ demo_app) }
    ensures local { IfOk result (λ c. (fields_of c).has_globals ≡ false) }
{
    with_operand(alloc, "demo", "seed")?.arg(option(alloc, "scale"))
}

// The command of `vab` without its verbs.
fn without_verbs<'a>(alloc: Global) -> Command<'a>
    ensures { app_of result ≡ no_verbs }
{
    Command::new(alloc, "vab")
        .no_binary_name(true)
        .disable_help_flag(true)
        .disable_help_subcommand(true)
        .subcommand_required(true)
}

/// The command of `vab`, whose subcommands are its verbs.
pub(crate) fn vab<'a>(alloc: Global) -> Result<Command<'a>, AllocError>
    ensures { IfOk result (λ c. app_of c ≡ vab_app) }
{
    without_verbs(alloc)
        .subcommand(make(alloc)?)?
        .subcommand(with_operand(alloc, "adopt", "slot")?)?
        .subcommand(serve(alloc)?)?
        .subcommand(Command::new(alloc, "install"))?
        .subcommand(Command::new(alloc, "boot"))?
        .subcommand(Command::new(alloc, "mark"))?
        .subcommand(Command::new(alloc, "begin-merge"))?
        .subcommand(with_operand(alloc, "merge", "blocks")?)?
        .subcommand(Command::new(alloc, "cancel"))?
        .subcommand(with_operand(alloc, "activate", "slot")?)?
        .subcommand(with_operand(alloc, "print", "name")?)?
        .subcommand(with_operand(alloc, "digest", "name")?)?
        .subcommand(Command::new(alloc, "status"))?
        .subcommand(demo(alloc)?)
}
