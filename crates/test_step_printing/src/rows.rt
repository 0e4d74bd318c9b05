// Prints a line for each message and each client record, lent or not, that a step changed.
use crate::lines::{Prefix, Row};
use client_records::copies::copy_at;
use client_records::requests::request_at;
use message_fields::Fields;
use network_queue::list::message_at;
use setup::limits::{CLIENTS, PLACES};
use state_words::CLIENT_OBJECTS;
use std::io;
use test_case_reader::states::State;

pub fn messages(rt: &impl Print, prefix: Prefix, before: State, after: State) -> io::Result<()> {
    for i in 0..PLACES {
        let old = Fields::from(message_at(before.words, before.values, i));
        let new = Fields::from(message_at(after.words, after.values, i));
        if old != new {
            println!(rt; "{prefix}message {i}:{}", Row(new))?;
        }
    }
    Ok(())
}

pub fn copies(rt: &impl Print, prefix: Prefix, before: State, after: State) -> io::Result<()> {
    for i in 0..CLIENT_OBJECTS {
        let old = copy_at(before.words, before.values, i);
        let new = copy_at(after.words, after.values, i);
        if old != new {
            println!(rt;
                "{prefix}copy {i}: version {}, value {}, expiry {}",
                new.version, new.value, new.expiry
            )?;
        }
    }
    Ok(())
}

pub fn requests(rt: &impl Print, prefix: Prefix, before: State, after: State) -> io::Result<()> {
    for i in 0..CLIENTS {
        let old = request_at(before.words, i);
        let new = request_at(after.words, i);
        if old != new {
            let stands = if new.standing {
                "standing"
            } else {
                "none standing"
            };
            println!(rt;
                "{prefix}request {i}: next {}, {stands}, number {}, object {}",
                new.next, new.number, new.object
            )?;
        }
    }
    Ok(())
}
