// Why nothing, or not everything, was printed.
use std::io::Write;
use std::{fmt, io};

#[derive(Clone, Copy)]
pub enum Failure {
    Unread(io::Error),
    Unwritten(io::Error),
}

// The system's reason for an error, without the number that std puts after it.
fn reason<'a>(error: &io::Error, text: &'a mut [u8; 128]) -> &'a str {
    let mut room = &mut text[..];
    // What does not fit is cut off.
    let _ = write!(room, "{error}");
    let length = text.iter().position(|b| *b == 0).unwrap_or(text.len());
    let told = str::from_utf8(&text[..length]).unwrap_or("");
    match told.split_once(" (os error ") {
        Some((reason, _)) => reason,
        None => told,
    }
}

impl fmt::Display for Failure {
    fn fmt<W: fmt::Write>(&self, f: &mut fmt::Formatter<W>) -> fmt::Result {
        let mut text = [0u8; 128];
        match self {
            Failure::Unread(error) => {
                write!(
                    f,
                    "cannot read standard input: {}",
                    reason(error, &mut text)
                )
            }
            Failure::Unwritten(error) => {
                write!(
                    f,
                    "cannot write standard output: {}",
                    reason(error, &mut text)
                )
            }
        }
    }
}
