// Prints the answer to a step.
use crate::lines::Row;
use message_fields::Fields;
use protocol::message::Message;
use protocol::step::Answer;
use std::io;

// Prints the answer's number and value in 01.
fn line(rt: &impl Print, answer: u8, value: u64) -> io::Result<()> {
    println!(rt; " {answer} {value}")
}

// Prints done if no write completed, else completed and how many.
fn completed(rt: &impl Print, writes: u32) -> io::Result<()> {
    let answer = if writes == 0 { 0 } else { 3 };
    line(rt, answer, u64::from(writes))
}

fn delivered(rt: &impl Print, message: Message, writes: u32) -> io::Result<()> {
    completed(rt, writes)?;
    println!(rt; "  delivered:{}", Row(Fields::from(message)))
}

// Prints the case, the answer's number and value in 01, and the message in it.
pub fn show(rt: &impl Print, id: u64, answer: Answer) -> io::Result<()> {
    print!(rt; "{id}")?;
    match answer {
        Answer::Done => line(rt, 0, 0),
        Answer::Shown(value) => line(rt, 1, value),
        Answer::AskFirst => line(rt, 2, 0),
        Answer::Completed(writes) => completed(rt, writes),
        Answer::Delivered(message, writes) => delivered(rt, message, writes),
        Answer::Refused(question) => line(rt, 4, u64::from(question)),
    }
}
