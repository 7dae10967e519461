//! Rows of the words of a command.
use crate::fault::RowFault;
use command_words::command::{Command, NoCommand, read_words};
use command_words::node_words::{GroupWords, NodeWords};
use smart_base::sequence::Bytes;
use std::alloc::{AllocError, Global};
use std::{io, str};

/// The words of a row, each behind a space: none of `smart`, one empty word of `smart `.
fn words_of(alloc: Global, row: &str) -> Result<Vec<String>, AllocError> {
    let mut words = Vec::new(alloc);
    for word in row.split(' ').skip(1) {
        words.push(String::from_str(alloc, word)?)?;
    }
    Ok(words)
}

/// The text that bytes are; none of bytes that are no text.
fn text_of(bytes: &Bytes) -> &str {
    str::from_utf8(bytes.as_slice()).unwrap_or("")
}

/// Says what node words are.
fn say_node(rt: &HostRuntime, node: &NodeWords) -> io::Result<()> {
    let secret = hex::encode(rt.alloc(), node.secret.as_slice())?;
    println!(rt;
        "the command node: member {}, directory \"{}\", secret {secret}, group {},{}, period {}",
        node.id,
        text_of(&node.dir),
        node.group.members,
        node.group.faulty,
        node.period
    )
}

/// Says what words of a group are.
fn say_group(rt: &HostRuntime, run: &GroupWords) -> io::Result<()> {
    println!(rt;
        "the command group: group {},{}, period {}, turns {}, asks {}, directory \"{}\"",
        run.group.members,
        run.group.faulty,
        run.period,
        run.turns,
        run.asks,
        text_of(&run.dir)
    )
}

/// Says which command the words of a row are, or what is shown of them.
pub fn say_command(rt: &HostRuntime, row: &str) -> Result<(), RowFault> {
    let words = words_of(rt.alloc(), row)?;
    match read_words(rt.alloc(), words.as_slice()) {
        Ok(Command::World) => println!(rt; "the command world")?,
        Ok(Command::Load { count }) => println!(rt; "the command load {count}")?,
        Ok(Command::Node(node)) => say_node(rt, &node)?,
        Ok(Command::Group(run)) => say_group(rt, &run)?,
        Ok(Command::Audit) => println!(rt; "the command audit")?,
        Err(NoCommand::Shown(text)) => println!(rt; "shown:\n{text}")?,
        Err(NoCommand::Wrong) => println!(rt; "wrong")?,
        Err(NoCommand::NoMemory) => return Err(RowFault::NoMemory),
    }
    Ok(())
}
