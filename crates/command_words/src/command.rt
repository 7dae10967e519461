//! The commands of the program `smart`, and the reading of the words that name them.
ghost use Rattle.std.specs.Prelude.{◌≡◌, IfOk, IfErr, IfSome, Some, codes, false, map, option_map, string_bytes};
ghost use Rattle.clap.specs.Words.{FailsBy, app_of, fault_of, found_of, kind_of, rows_of, rule_of, shape_of, subcommand_of, subcommand_rows_of, with_subcommand};
ghost use Rattle.clap.specs.declared.builder.command.Command.TheViews.{out-Command};
ghost use Rattle.clap.specs.Walk.{first_of};
ghost use Rattle.command_words.specs.Commands.{Answers, Refuses, audit_shape, bare_program, command_in, command_of, count_rule, is_shown, load_of, load_shape, load_with, program, world_shape};
ghost use Rattle.command_words.specs.Ranges.{FitsCommand};
ghost use Rattle.command_words.specs.Options.{group_run_of, group_shape, node_shape, node_of};

use crate::node_options::{group_parser, node_parser};
use crate::node_values::{group_run_met, node_met};
use crate::node_words::{GroupWords, NodeWords};
use clap::error::ErrorKind;
use clap::{Arg, ArgMatches, Command as Parser, Error};
use smart_base::decimal::number_of;
use std::alloc::{AllocError, Global};
use std::fmt::Write;

/// A command of the program.
#[derive(Drop)]
pub enum Command {
    /// `world`: plays the script of the input.
    World,
    /// `load N`: plays the script of a load of N asks, 1 to 100,000.
    Load { count: u32 },
    /// `node`: runs one member of a group over frames.
    Node(NodeWords),
    /// `group`: runs a group of members and one client in threads.
    Group(GroupWords),
    /// `audit`: audits the recorded runs of the input.
    Audit,
}

/// The reason for which words are no command.
#[derive(Drop)]
pub enum NoCommand {
    /// They ask for help or for the version, or there are none. The text is the parser's answer.
    Shown(String),
    /// A word is wrong.
    Wrong,
    /// Memory ran out.
    NoMemory,
}

/// The most asks of a load.
const LAST_LOAD: u64 = 100_000;

/// The parser of the program's words before its subcommands.
fn bare_parser<'a>(alloc: Global) -> Parser<'a>
    ensures { app_of result ≡ bare_program }
{
    Parser::new(alloc, "smart")
        .about("Byzantine fault tolerant replication, step by step")
        .version("0.1")
        .after_help("Examples:\n  smart world < examples/first.smart\n  smart load 1000")
        .no_binary_name(true)
        .propagate_version(true)
        .arg_required_else_help(true)
        .subcommand_required(true)
}

/// The same, which names the program where it shows how a subcommand is used. Error: want of memory.
fn named_parser<'a>(alloc: Global) -> Result<Parser<'a>, AllocError>
    ensures { IfOk result (λ parser. app_of parser ≡ bare_program) }
{
    bare_parser(alloc).bin_name("smart")
}

/// Adds the subcommand `world`. Error: want of memory.
fn with_world<'a>(alloc: Global, parser: Parser<'a>) -> Result<Parser<'a>, AllocError>
    ensures { IfOk result (λ more. app_of more ≡ with_subcommand (app_of parser.entry) world_shape) }
{
    let world = Parser::new(alloc, "world")
        .about("Play a script from standard input and write its transcript")
        .after_help("Example:\n  smart world < examples/first.smart");
    parser.subcommand(world)
}

/// The argument of `load`.
fn count_argument<'a>(alloc: Global) -> Arg<'a>
    ensures rule { rule_of result ≡ count_rule }
    ensures local { result.global ≡ false }
{
    Arg::new(alloc, "N")
        .help("The number of asks, 1 to 100000")
        .required(true)
}

/// The subcommand `load`. Error: want of memory.
fn load_parser<'a>(alloc: Global) -> Result<Parser<'a>, AllocError>
    ensures shape { IfOk result (λ load. shape_of load ≡ load_shape) }
    ensures local { IfOk result (λ load. (out-Command load).has_globals ≡ false) }
{
    let load = Parser::new(alloc, "load")
        .about("Play the script of a load of N asks and write its totals")
        .after_help("Example:\n  smart load 1000");
    load.arg(count_argument(alloc))
}

/// Adds the subcommand `load`. Error: want of memory.
fn with_load<'a>(alloc: Global, parser: Parser<'a>) -> Result<Parser<'a>, AllocError>
    ensures { IfOk result (λ more. app_of more ≡ with_subcommand (app_of parser.entry) load_shape) }
{
    let load = load_parser(alloc)?;
    parser.subcommand(load)
}

/// Adds the subcommand `node`. Error: want of memory.
fn with_node<'a>(alloc: Global, parser: Parser<'a>) -> Result<Parser<'a>, AllocError>
    ensures { IfOk result (λ more. app_of more ≡ with_subcommand (app_of parser.entry) node_shape) }
{
    let node = node_parser(alloc)?;
    parser.subcommand(node)
}

/// Adds the subcommand `group`. Error: want of memory.
fn with_group<'a>(alloc: Global, parser: Parser<'a>) -> Result<Parser<'a>, AllocError>
    ensures { IfOk result (λ more. app_of more ≡ with_subcommand (app_of parser.entry) group_shape) }
{
    let group = group_parser(alloc)?;
    parser.subcommand(group)
}

/// Adds the subcommand `audit`. Error: want of memory.
fn with_audit<'a>(alloc: Global, parser: Parser<'a>) -> Result<Parser<'a>, AllocError>
    ensures { IfOk result (λ more. app_of more ≡ with_subcommand (app_of parser.entry) audit_shape) }
{
    let audit = Parser::new(alloc, "audit")
        .about("Read trails from standard input and say whether they are coherent")
        .after_help("Example:\n  cat DIR/n*.trail | smart audit");
    parser.subcommand(audit)
}

/// The parser of the program's words. Error: want of memory.
fn program_parser<'a>(alloc: Global) -> Result<Parser<'a>, AllocError>
    ensures { IfOk result (λ parser. app_of parser ≡ program) }
{
    let parser = named_parser(alloc)?;
    let parser = with_world(alloc, parser)?;
    let parser = with_load(alloc, parser)?;
    let parser = with_node(alloc, parser)?;
    let parser = with_group(alloc, parser)?;
    with_audit(alloc, parser)
}

/// The load of a number of asks, if it is in range.
fn load_with(count: u64) -> Option<Command>
    ensures { result ≡ load_with (Some count) }
{
    if 1 <= count && count <= LAST_LOAD {
        Some(Command::Load {
            count: count as u32,
        })
    } else {
        None
    }
}

/// The load that the argument of the subcommand `load` names, if it names one.
#[tactic(auto, using(crate::proofs::Parsing::first_word))]
fn load_met(matches: &ArgMatches<'_>) -> Option<Command>
    ensures { result ≡ load_of (first_of (codes "N") (rows_of (found_of matches.now))) }
{
    let word = matches.get_str("N")?;
    let count = number_of(word.as_bytes())?;
    load_with(count)
}

/// The node that the arguments of the subcommand `node` are, if they are one. Error: want of memory.
fn node_command(alloc: Global, found: &ArgMatches<'_>) -> Result<Option<Command>, AllocError>
    ensures is { IfOk result (λ command. command ≡ option_map Command.Node (node_of (rows_of (found_of found.now)))) }
    ensures fits { IfOk result (λ command. IfSome command FitsCommand) }
{
    match node_met(alloc, found)? {
        Some(node) => Ok(Some(Command::Node(node))),
        None => Ok(None),
    }
}

/// The run of a group that the arguments of the subcommand `group` are, if they are one. Error: want of
/// memory.
fn group_command(alloc: Global, found: &ArgMatches<'_>) -> Result<Option<Command>, AllocError>
    ensures is { IfOk result (λ command. command ≡ option_map Command.Group (group_run_of (rows_of (found_of found.now)))) }
    ensures fits { IfOk result (λ command. IfSome command FitsCommand) }
{
    match group_run_met(alloc, found)? {
        Some(run) => Ok(Some(Command::Group(run))),
        None => Ok(None),
    }
}

/// The command that the parser has met. Error: want of memory.
fn command_met(alloc: Global, matches: &ArgMatches<'_>) -> Result<Option<Command>, AllocError>
    ensures is { IfOk result (λ command. command ≡ command_in (subcommand_rows_of matches.now)) }
    ensures fits { IfOk result (λ command. IfSome command FitsCommand) }
{
    match matches.subcommand() {
        Some(("world", _)) => Ok(Some(Command::World)),
        Some(("load", found)) => Ok(load_met(found)),
        Some(("node", found)) => node_command(alloc, found),
        Some(("group", found)) => group_command(alloc, found),
        Some(("audit", _)) => Ok(Some(Command::Audit)),
        _ => Ok(None),
    }
}

/// Whether the parser answers with text for the user, and not with a wrong word.
fn is_shown(kind: ErrorKind) -> bool
    ensures { result ≡ is_shown kind }
{
    matches!(
        kind,
        ErrorKind::DisplayHelp
            | ErrorKind::DisplayHelpOnMissingArgumentOrSubcommand
            | ErrorKind::DisplayVersion
    )
}

/// What the parser makes of the words behind the program's name.
fn parse<'a>(alloc: Global, words: &'a [String]) -> Result<ArgMatches<'a>, Error>
    ensures met { IfOk result (λ matches. subcommand_rows_of matches ≡ subcommand_of program (map string_bytes words.now)) }
    ensures faults { FailsBy (fault_of program (map string_bytes words.now)) result }
{
    let parser = program_parser(alloc)?;
    parser.try_get_matches_from(words)
}

/// The text that the parser shows; behind a version stands the help. Error: want of memory.
fn shown_text(alloc: Global, error: &Error) -> Result<String, AllocError> {
    let mut text = String::new(alloc);
    write!(&mut text, "{error}")?;
    if error.kind() == ErrorKind::DisplayVersion {
        let help = program_parser(alloc)?.render_help()?;
        write!(&mut text, "\n{help}")?;
    }
    Ok(text)
}

/// What words are to which the parser answers with an error.
fn refusal(alloc: Global, error: &Error) -> NoCommand
    ensures { Answers (kind_of error.now) result }
{
    let kind = error.kind();
    if kind == ErrorKind::OutOfMemory {
        return NoCommand::NoMemory;
    }
    if !is_shown(kind) {
        return NoCommand::Wrong;
    }
    match shown_text(alloc, error) {
        Ok(text) => NoCommand::Shown(text),
        Err(_) => NoCommand::NoMemory,
    }
}

/// Reads the words behind the program's name.
pub fn read_words(alloc: Global, words: &[String]) -> Result<Command, NoCommand>
    // They are a command exactly by the parser's meaning and, of `load`, `node` and `group`, with values in range. All else is none.
    ensures command { IfOk result (λ command. command_of (map string_bytes words.now) ≡ Some command) }
    ensures fits { IfOk result FitsCommand }
    ensures none { IfErr result (Refuses (map string_bytes words.now)) }
{
    match parse(alloc, words) {
        Ok(matches) => match command_met(alloc, &matches) {
            Ok(Some(command)) => Ok(command),
            Ok(None) => Err(NoCommand::Wrong),
            Err(_) => Err(NoCommand::NoMemory),
        },
        Err(error) => Err(refusal(alloc, &error)),
    }
}
