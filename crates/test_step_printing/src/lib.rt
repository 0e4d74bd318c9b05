// Prints what a step changed: a line for each element of the tables, each message and each record that differs.
#![tactic(auto)]

pub mod answer;
mod elements;
mod lines;
mod rows;
mod tables;

use crate::lines::Prefix;
use crate::rows::{copies, messages, requests};
use crate::tables::{objects, one, views, volumes};
use state_words::network;
use state_words::saved::{NAMES, SAVED};
use std::io;
use test_case_reader::states::{State, States};

// Prints what changed in a state, each line after the prefix; of a saved one first whether it is there.
fn state(rt: &impl Print, prefix: Prefix, before: State, after: State) -> io::Result<()> {
    one(rt, prefix, "there", SAVED, before, after)?;
    one(rt, prefix, "clock", network::CLOCK, before, after)?;
    volumes(rt, prefix, before, after)?;
    objects(rt, prefix, before, after)?;
    views(rt, prefix, before, after)?;
    one(rt, prefix, "messages", network::LENGTH, before, after)?;
    messages(rt, prefix, before, after)?;
    copies(rt, prefix, before, after)?;
    requests(rt, prefix, before, after)
}

// Prints what changed in the present state, then in the saved ones.
pub fn show(rt: &impl Print, before: &States, after: &States) -> io::Result<()> {
    state(rt, Prefix::Present, before.present(), after.present())?;
    for name in 0..NAMES {
        state(
            rt,
            Prefix::Saved(name),
            before.named(name),
            after.named(name),
        )?;
    }
    Ok(())
}
