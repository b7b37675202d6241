// The command line that the parser of words is given.
ghost use Rattle.std.specs.Prelude.{◌≡◌, IfOk, false};
ghost use Rattle.clap.specs.Words.{app_of, rule_of, with_rule};
ghost use Rattle.clap.specs.declared.builder.command.Command.TheViews.{out-Command};
ghost use Rattle.gcd_words.specs.CommandLine.{run_app, check_app, big_app, front_app, gcd_app, workers_rule, most_rule, count_rule, senders_rule, journal_rule, required_rule, option_rule};

use clap::{Arg, ArgAction, Command, value_parser};
use gcd_plan::{MAX_BLOCKS, MAX_EVENTS, MAX_WORKERS};
use std::alloc::{AllocError, Global};

/// The most blocks of the large script: `main` is none of them.
pub const MAX_BIG: u16 = (MAX_BLOCKS - 1) as u16;

/// The most senders of jobs beside a run.
pub const MAX_FRONT_SENDERS: u8 = 8;

fn required<'a>(alloc: Global, id: &'a str) -> Arg<'a>
    ensures rule { rule_of result ≡ required_rule id.entry.now }
    ensures local { result.global ≡ false }
{
    Arg::new(alloc, id).required(true)
}

fn option<'a>(alloc: Global, id: &'a str) -> Arg<'a>
    ensures rule { rule_of result ≡ option_rule id.entry.now }
    ensures local { result.global ≡ false }
{
    Arg::new(alloc, id).long(id)
}

fn workers<'a>(alloc: Global) -> Arg<'a>
    ensures rule { rule_of result ≡ workers_rule }
    ensures local { result.global ≡ false }
{
    Arg::new(alloc, "workers")
        .long("workers")
        .value_parser(value_parser!(u8).range(1..=i64::from(MAX_WORKERS)))
}

fn most<'a>(alloc: Global) -> Arg<'a>
    ensures rule { rule_of result ≡ most_rule }
    ensures local { result.global ≡ false }
{
    Arg::new(alloc, "most")
        .long("most")
        .value_parser(value_parser!(u32).range(1..=i64::from(MAX_EVENTS)))
}

fn count<'a>(alloc: Global) -> Arg<'a>
    ensures rule { rule_of result ≡ count_rule }
    ensures local { result.global ≡ false }
{
    Arg::new(alloc, "N")
        .required(true)
        .value_parser(value_parser!(u16).range(1..=i64::from(MAX_BIG)))
}

fn senders<'a>(alloc: Global) -> Arg<'a>
    ensures rule { rule_of result ≡ senders_rule }
    ensures local { result.global ≡ false }
{
    Arg::new(alloc, "SENDERS")
        .required(true)
        .value_parser(value_parser!(u8).range(1..=i64::from(MAX_FRONT_SENDERS)))
}

fn journal<'a>(alloc: Global) -> Arg<'a>
    ensures rule { rule_of result ≡ journal_rule }
    ensures local { result.global ≡ false }
{
    Arg::new(alloc, "journal")
        .long("journal")
        .action(ArgAction::SetTrue)
}

// The command with one more argument.
fn with<'a>(command: Command<'a>, arg: Arg<'a>) -> Result<Command<'a>, AllocError>
    requires command_local { (out-Command command).has_globals ≡ false }
    requires arg_local { arg.global ≡ false }
    ensures app { IfOk result (λ c. app_of c ≡ with_rule (app_of command.entry) (rule_of arg.entry)) }
    ensures local { IfOk result (λ c. (out-Command c).has_globals ≡ false) }
{
    command.arg(arg)
}

fn run<'a>(alloc: Global) -> Result<Command<'a>, AllocError>
    ensures app { IfOk result (λ c. app_of c ≡ run_app) }
    ensures local { IfOk result (λ c. (out-Command c).has_globals ≡ false) }
{
    let command = with(Command::new(alloc, "run"), required(alloc, "SCRIPT"))?;
    let command = with(command, workers(alloc))?;
    let command = with(command, journal(alloc))?;
    let command = with(command, most(alloc))?;
    with(command, option(alloc, "listen"))
}

fn check<'a>(alloc: Global) -> Result<Command<'a>, AllocError>
    ensures app { IfOk result (λ c. app_of c ≡ check_app) }
    ensures local { IfOk result (λ c. (out-Command c).has_globals ≡ false) }
{
    let command = with(Command::new(alloc, "check"), required(alloc, "SCRIPT"))?;
    with(command, required(alloc, "JOURNAL"))
}

fn big<'a>(alloc: Global) -> Result<Command<'a>, AllocError>
    ensures app { IfOk result (λ c. app_of c ≡ big_app) }
    ensures local { IfOk result (λ c. (out-Command c).has_globals ≡ false) }
{
    let command = with(Command::new(alloc, "big"), count(alloc))?;
    with(command, workers(alloc))
}

fn front<'a>(alloc: Global) -> Result<Command<'a>, AllocError>
    ensures app { IfOk result (λ c. app_of c ≡ front_app) }
    ensures local { IfOk result (λ c. (out-Command c).has_globals ≡ false) }
{
    let command = with(Command::new(alloc, "front"), required(alloc, "SCRIPT"))?;
    with(command, senders(alloc))
}

/// The whole command line.
pub fn gcd<'a>(alloc: Global) -> Result<Command<'a>, AllocError>
    ensures { IfOk result (λ c. app_of c ≡ gcd_app) }
{
    let command = Command::new(alloc, "gcd").no_binary_name(true);
    let command = command.subcommand(run(alloc)?)?;
    let command = command.subcommand(check(alloc)?)?;
    let command = command.subcommand(big(alloc)?)?;
    command.subcommand(front(alloc)?)
}
