//! Why a line cannot be read, for people.
use std::alloc::AllocError;
use std::str::Utf8Error;
use thiserror::Error;

#[derive(Clone, Copy, Debug, Error)]
pub enum Unreadable<'a> {
    #[error("it is not UTF-8 text")]
    NoText(#[from] Utf8Error),
    #[error("unknown command '{0}'; 'help' lists the commands")]
    UnknownCommand(&'a str),
    #[error("'{0}' is not key=value")]
    NoField(&'a str),
    #[error("'{0}=' is given twice")]
    Twice(&'a str),
    #[error("'{0}=' is missing")]
    Missing(&'static str),
    #[error("'{0}=' and '{1}=' are both given")]
    Both(&'static str, &'static str),
    #[error("'{0}=' does not belong to this command")]
    Unexpected(&'a str),
    #[error("'{0}=' is not hexadecimal, two digits to a byte, or - for none")]
    NoHex(&'static str),
    #[error("'{0}=' is not a block of 16 bytes")]
    NoBlock(&'static str),
    #[error("'{0}=' is not a nonce of 12 bytes")]
    NoNonce(&'static str),
    #[error("'{0}=' is not an EXTRA_IV of 6 bytes, or - for none")]
    NoExtraIv(&'static str),
    #[error("'{key}=' is not a decimal number from {least} to {most}")]
    NoNumber {
        key: &'static str,
        least: u64,
        most: u64,
    },
    #[error("'{key}=' has not exactly the bytes that the bits of '{bits_key}=' fill")]
    NotFilled {
        key: &'static str,
        bits_key: &'static str,
    },
    #[error("'{0}=' has more than 536870911 bytes")]
    TooLong(&'static str),
    #[error("there is no sending end; 'sender' makes one")]
    NoSender,
    #[error("there is no receiving end; 'receiver' makes one")]
    NoReceiver,
    #[error("there is no memory for it")]
    NoMemory(#[from(alloc)] AllocError),
}
