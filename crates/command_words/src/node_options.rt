//! The options of `node` and `group`, as the parser is told of them.
ghost use Rattle.std.specs.Prelude.{◌≡◌, IfOk, codes, false};
ghost use Rattle.clap.specs.Simple.{new_shape};
ghost use Rattle.clap.specs.Words.{rule_of, shape_of};
ghost use Rattle.clap.specs.declared.builder.command.Command.TheViews.{out-Command};
ghost use Rattle.command_words.specs.Options.{group_shape, needed_rule, node_shape, option_rule, with_option};

use clap::{Arg, Command as Parser};
use std::alloc::{AllocError, Global};

/// An option with one value.
fn option<'a>(alloc: Global, name: &'a str, value: &'a str, help: &'a str) -> Arg<'a>
    ensures rule { rule_of result ≡ option_rule name.entry.now }
    ensures local { result.global ≡ false }
{
    Arg::new(alloc, name)
        .long(name)
        .value_name(value)
        .help(help)
}

/// An option with one value, which has to be there.
fn needed_option<'a>(alloc: Global, name: &'a str, value: &'a str, help: &'a str) -> Arg<'a>
    ensures rule { rule_of result ≡ needed_rule name.entry.now }
    ensures local { result.global ≡ false }
{
    option(alloc, name, value, help).required(true)
}

/// Adds an option to a command. Error: want of memory.
fn with_option<'a>(command: Parser<'a>, option: Arg<'a>) -> Result<Parser<'a>, AllocError>
    requires { option.global ≡ false }
    ensures shape { IfOk result (λ more. shape_of more ≡ with_option (shape_of command.entry) (rule_of option.entry)) }
    ensures globals { IfOk result (λ more. (out-Command more).has_globals ≡ (out-Command command.entry).has_globals) }
{
    command.arg(option)
}

/// The subcommand `node`. Error: want of memory.
pub(crate) fn node_parser<'a>(alloc: Global) -> Result<Parser<'a>, AllocError>
    ensures shape { IfOk result (λ node. shape_of node ≡ node_shape) }
    ensures local { IfOk result (λ node. (out-Command node).has_globals ≡ false) }
{
    let node = Parser::new(alloc, "node")
        .about("Run one member of a group: frames from standard input, frames to standard output")
        .after_help("Example:\n  smart node --id 1 --dir data --secret 736d617274 --group 4,1");
    let node = with_option(
        node,
        needed_option(alloc, "id", "M", "The member's number, 1 to 65535"),
    )?;
    let node = with_option(
        node,
        needed_option(
            alloc,
            "dir",
            "D",
            "The directory of its store and its trail",
        ),
    )?;
    let node = with_option(
        node,
        needed_option(
            alloc,
            "secret",
            "HEX",
            "The secret of the group, 1 to 64 bytes",
        ),
    )?;
    let node = with_option(
        node,
        needed_option(alloc, "group", "N,F", "N members, of which F may be faulty"),
    )?;
    with_option(
        node,
        option(
            alloc,
            "period",
            "P",
            "The places in which each member takes one checkpoint, 1024 if not told",
        ),
    )
}

/// The subcommand `group` before its options.
fn bare_group<'a>(alloc: Global) -> Parser<'a>
    ensures shape { shape_of result ≡ new_shape (codes "group") }
    ensures local { (out-Command result).has_globals ≡ false }
{
    Parser::new(alloc, "group")
        .about("Run a group of members and one client in threads, and audit what they recorded")
        .after_help(
            "Example:\n  smart group --n 4 --f 1 --period 8 --turns 1000000 --asks 3 --dir data",
        )
}

/// The subcommand `group`. Error: want of memory.
pub(crate) fn group_parser<'a>(alloc: Global) -> Result<Parser<'a>, AllocError>
    ensures shape { IfOk result (λ group. shape_of group ≡ group_shape) }
    ensures local { IfOk result (λ group. (out-Command group).has_globals ≡ false) }
{
    let group = bare_group(alloc);
    let group = with_option(
        group,
        needed_option(alloc, "n", "N", "The number of members"),
    )?;
    let group = with_option(
        group,
        needed_option(alloc, "f", "F", "The number of members that may be faulty"),
    )?;
    let group = with_option(
        group,
        needed_option(
            alloc,
            "period",
            "P",
            "The places in which each member takes one checkpoint",
        ),
    )?;
    let group = with_option(
        group,
        needed_option(
            alloc,
            "turns",
            "T",
            "The empty polls of the client behind which the threads end",
        ),
    )?;
    let group = with_option(
        group,
        needed_option(
            alloc,
            "asks",
            "A",
            "The number of requests of the client, up to 10000",
        ),
    )?;
    with_option(
        group,
        needed_option(alloc, "dir", "D", "The directory of the stores and trails"),
    )
}
