//! The commands: which word names which, and what each answers.
use super::answers::Answer;
use super::errors::Unreadable;
use super::fields::Fields;
use super::link_commands::Ends;
use super::listings::{FrameListing, Listing};
use super::{cover_commands, field_commands, generator_commands, link_commands};
use std::alloc::Global;
use std::fmt;

#[derive(Clone, Copy, PartialEq, Eq, PartialOrd, Ord)]
pub enum Command {
    Help,
    Recording,
    Dot,
    Polyval,
    Tag,
    Aes256,
    Key,
    Blocks,
    Nea5,
    Nia5,
    Nca5,
    Nca5Open,
    Frame,
    Parts,
    Sender,
    Receiver,
    Seal,
    Open,
    Loss,
}

impl<'a> TryFrom<&'a str> for Command {
    type Error = Unreadable<'a>;

    fn try_from(word: &'a str) -> Result<Command, Unreadable<'a>> {
        match word {
            "help" => Ok(Command::Help),
            "recording" => Ok(Command::Recording),
            "dot" => Ok(Command::Dot),
            "polyval" => Ok(Command::Polyval),
            "tag" => Ok(Command::Tag),
            "aes256" => Ok(Command::Aes256),
            "key" => Ok(Command::Key),
            "blocks" => Ok(Command::Blocks),
            "nea5" => Ok(Command::Nea5),
            "nia5" => Ok(Command::Nia5),
            "nca5" => Ok(Command::Nca5),
            "nca5-open" => Ok(Command::Nca5Open),
            "frame" => Ok(Command::Frame),
            "parts" => Ok(Command::Parts),
            "sender" => Ok(Command::Sender),
            "receiver" => Ok(Command::Receiver),
            "seal" => Ok(Command::Seal),
            "open" => Ok(Command::Open),
            "loss" => Ok(Command::Loss),
            _ => Err(Unreadable::UnknownCommand(word)),
        }
    }
}

/// The command by its word.
impl fmt::Display for Command {
    fn fmt<W: fmt::Write>(&self, f: &mut fmt::Formatter<W>) -> fmt::Result {
        f.write_str(match self {
            Command::Help => "help",
            Command::Recording => "recording",
            Command::Dot => "dot",
            Command::Polyval => "polyval",
            Command::Tag => "tag",
            Command::Aes256 => "aes256",
            Command::Key => "key",
            Command::Blocks => "blocks",
            Command::Nea5 => "nea5",
            Command::Nia5 => "nia5",
            Command::Nca5 => "nca5",
            Command::Nca5Open => "nca5-open",
            Command::Frame => "frame",
            Command::Parts => "parts",
            Command::Sender => "sender",
            Command::Receiver => "receiver",
            Command::Seal => "seal",
            Command::Open => "open",
            Command::Loss => "loss",
        })
    }
}

impl Command {
    /// Reads a line and answers its command. An empty line, and one that begins with `#`, holds none. A line that cannot be
    /// read leaves the ends as they were.
    pub fn read<'a>(
        heap: Global,
        ends: &mut Ends,
        line: &'a [u8],
    ) -> Result<Option<(Command, Answer)>, Unreadable<'a>> {
        let mut words = std::str::from_utf8(line)?.split_whitespace();
        let Some(word) = words.next().filter(|word| !word.starts_with('#')) else {
            return Ok(None);
        };
        let command = Command::try_from(word)?;
        let mut fields = Fields::read(heap, words)?;
        let answer = command.answer(ends, &mut fields)?;
        fields.end()?;
        Ok(Some((command, answer)))
    }

    /// Takes what the command needs from its fields, and answers.
    fn answer<'a>(
        self,
        ends: &mut Ends,
        fields: &mut Fields<'a>,
    ) -> Result<Answer, Unreadable<'a>> {
        match self {
            Command::Help => Ok(Answer::Help),
            Command::Recording => Ok(Answer::Recording(Listing::new(fields.bytes("data")?))),
            Command::Dot => Ok(Answer::Block(field_commands::dot(fields)?)),
            Command::Polyval => Ok(Answer::Block(field_commands::polyval(fields)?)),
            Command::Tag => Ok(Answer::Bytes(field_commands::tag(fields)?)),
            Command::Aes256 => Ok(Answer::of(generator_commands::aes256(fields)?.map(
                Answer::Block,
            ))),
            Command::Key => Ok(Answer::of(generator_commands::key(fields)?.map(|()| Answer::Ok))),
            Command::Blocks => Ok(Answer::of(generator_commands::blocks(fields)?.map(
                Answer::Blocks,
            ))),
            Command::Nea5 => Ok(Answer::of(cover_commands::nea5(fields)?.map(Answer::Bytes))),
            Command::Nia5 => Ok(Answer::of(cover_commands::nia5(fields)?.map(Answer::Bytes))),
            Command::Nca5 => Ok(Answer::of(cover_commands::nca5(fields)?.map(Answer::Covered))),
            Command::Nca5Open => Ok(Answer::of(cover_commands::nca5_open(fields)?.map(
                Answer::Bytes,
            ))),
            Command::Frame => Ok(Answer::of(link_commands::frame(fields)?.map(Answer::Bytes))),
            Command::Parts => Ok(Answer::Parts(FrameListing::new(fields.bytes("frame")?))),
            Command::Sender => Ok(Answer::of(ends.make_sender(fields)?.map(|()| Answer::Ok))),
            Command::Receiver => Ok(Answer::of(ends.make_receiver(fields)?.map(|()| Answer::Ok))),
            Command::Seal => Ok(Answer::of(ends.seal(fields)?.map(Answer::Bytes))),
            Command::Open => Ok(Answer::of(ends.open(fields)?.map(Answer::Received))),
            Command::Loss => Ok(Answer::Figure(ends.loss()?)),
        }
    }
}
