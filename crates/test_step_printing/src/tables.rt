// Prints a line for each element of the tables that a step changed.
ghost use Rattle.std.specs.Prelude.{◌<◌};
ghost use Rattle.state_words.specs.Fields.{WORDS};

use crate::elements::{Count, Field, changes, members};
use crate::lines::Prefix;
use setup::limits::{CLIENTS, SLOTS, VOLUMES};
use state_words::{CLIENT_OBJECTS, CLIENT_VOLUMES, client, server};
use std::io;
use test_case_reader::states::State;

// Prints a single number if it changed.
pub fn one(
    rt: &impl Print,
    prefix: Prefix,
    name: &str,
    at: usize,
    before: State,
    after: State,
) -> io::Result<()>
    requires { at < WORDS }
{
    let number = after.words[at];
    if before.words[at] == number {
        return Ok(());
    }
    println!(rt; "{prefix}{name}: {number}")
}

// A field with one element for each place of a kind.
fn each(name: &'static str, from: usize, count: usize) -> Field {
    Field {
        name,
        by: Count::One,
        from,
        count,
    }
}

// A field with an element for each client and volume.
fn per_volume(name: &'static str, from: usize) -> Field {
    Field {
        name,
        by: Count::Volumes,
        from,
        count: CLIENT_VOLUMES,
    }
}

// Prints the changes in fields of the words.
fn words(
    rt: &impl Print,
    prefix: Prefix,
    fields: &[Field],
    before: State,
    after: State,
) -> io::Result<()> {
    let (old, new) = (before.words, after.words);
    for field in fields {
        changes(rt, prefix, field, old, new)?;
    }
    Ok(())
}

pub fn volumes(rt: &impl Print, prefix: Prefix, before: State, after: State) -> io::Result<()> {
    let fields = [
        each("epoch", server::VOLUME_EPOCH, VOLUMES),
        each("VE", server::VOLUME_EXPIRY, VOLUMES),
        each("guard", server::GUARD, VOLUMES),
        each("seen", server::SEEN, CLIENTS),
        per_volume("volume lease", server::SESSION_EXPIRY),
        per_volume("unreachable", server::UNREACHABLE),
        per_volume("offer", server::OFFER),
        per_volume("notes", server::NOTES),
        per_volume("batch", server::BATCH),
    ];
    words(rt, prefix, &fields, before, after)
}

pub fn objects(rt: &impl Print, prefix: Prefix, before: State, after: State) -> io::Result<()> {
    let value = each("value", server::VALUE, SLOTS);
    let fields = [
        each("version", server::VERSION, SLOTS),
        each("OE", server::OBJECT_EXPIRY, SLOTS),
        each("standing", server::STANDING, SLOTS),
    ];
    let pending = each("pending", server::PENDING, SLOTS);
    let ends = [
        each("end", server::END, SLOTS),
        Field {
            name: "object lease",
            by: Count::Objects,
            from: server::LEASE,
            count: CLIENT_OBJECTS,
        },
    ];
    let (old, new) = (before.values, after.values);
    changes(rt, prefix, &value, old, new)?;
    words(rt, prefix, &fields, before, after)?;
    changes(rt, prefix, &pending, old, new)?;
    words(rt, prefix, &ends, before, after)?;
    members(
        rt,
        prefix,
        "waiting",
        server::WAITING,
        before.words,
        after.words,
    )
}

pub fn views(rt: &impl Print, prefix: Prefix, before: State, after: State) -> io::Result<()> {
    let fields = [
        per_volume("known epoch", client::VIEW_EPOCH),
        per_volume("known expiry", client::VIEW_EXPIRY),
    ];
    words(rt, prefix, &fields, before, after)
}
