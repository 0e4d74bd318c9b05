// Applies one change, by the number of its field: 1 to 8 the setup, 10 to 31 the tables, 40 to 50 the message list, 60 to 63 copies, 70 to 74 requests. From
// 100 on it is a saved state: field / 100 - 1 is its name, and field % 100 its field, 80 whether it is there, 81 a copy of the present state.
ghost use Rattle.std.specs.Prelude.{◌<◌};
ghost use Rattle.protocol.specs.Saved.{names};

use crate::Case;
use crate::states::States;
use crate::text::{byte, word};
use protocol::setup::Setup;
use setup::limits;
use state_words::saved::{NAMES, SAVED};
use state_words::{CLIENT_OBJECTS, Values, Words, client, network, server};

// Returns the case that changes start from: a setup of zeros, and no records lent.
pub fn none() -> Case {
    let setup = Setup {
        clients: 0,
        volumes: 0,
        objects: 0,
        tv: 0,
        t: 0,
        m: 0,
        volume: [0; limits::OBJECTS],
        delay: 0,
    };
    Case {
        setup,
        copies: 0,
        requests: 0,
    }
}

// Returns the setup with one field changed.
fn with(mut setup: Setup, field: u64, place: usize, number: u64) -> Setup {
    match field {
        1 => setup.clients = word(number),
        2 => setup.volumes = word(number),
        3 => setup.objects = word(number),
        4 => setup.tv = word(number),
        5 => setup.t = word(number),
        6 => setup.m = word(number),
        8 => setup.delay = word(number),
        _ => setup.volume[place % limits::OBJECTS] = byte(number),
    }
    setup
}

// Returns the case that lends as many records as the setup has, so that a changed setup is not refused for the number of records.
fn lending(setup: Setup) -> Case {
    let clients = setup.clients as usize;
    let objects = setup.objects as usize;
    Case {
        setup,
        copies: clients * objects,
        requests: clients,
    }
}

// Returns where a field begins in the words, if it is there.
fn in_words(field: u64) -> Option<usize> {
    match field {
        10 => Some(network::CLOCK),
        11 => Some(server::VOLUME_EPOCH),
        12 => Some(server::VOLUME_EXPIRY),
        13 => Some(server::GUARD),
        14 => Some(server::SEEN),
        15 => Some(server::SESSION_EXPIRY),
        16 => Some(server::UNREACHABLE),
        17 => Some(server::OFFER),
        18 => Some(server::NOTES),
        19 => Some(server::BATCH),
        21 => Some(server::VERSION),
        22 => Some(server::OBJECT_EXPIRY),
        23 => Some(server::STANDING),
        25 => Some(server::END),
        26 => Some(server::LEASE),
        30 => Some(client::VIEW_EPOCH),
        31 => Some(client::VIEW_EXPIRY),
        40 => Some(network::LENGTH),
        60 => Some(client::COPY_VERSION),
        62 => Some(client::COPY_EXPIRY),
        70 => Some(client::REQUEST_NEXT),
        71 => Some(client::REQUEST_STANDING),
        72 => Some(client::REQUEST_NUMBER),
        73 => Some(client::REQUEST_OBJECT),
        _ => None,
    }
}

// Returns where a field begins in the values, if it is there.
fn in_values(field: u64) -> Option<usize> {
    match field {
        20 => Some(server::VALUE),
        24 => Some(server::PENDING),
        50 => Some(network::MESSAGE_VALUE),
        61 => Some(client::COPY_VALUE),
        _ => None,
    }
}

// Stores an item of the field that begins at `from`, unless its index is past the end.
fn put<T: Copy>(items: &mut [T], from: usize, place: usize, item: T) {
    if let Some(i) = from.checked_add(place) {
        if let Some(slot) = items.get_mut(i) {
            *slot = item;
        }
    }
}

// Stores whether the write of an object waits for a client, unless there is no such place.
fn put_waiting(words: &mut Words, place: usize, number: u64) {
    if place < CLIENT_OBJECTS {
        let i = server::WAITING + place % limits::SLOTS;
        let client = place / limits::SLOTS;
        let others = sets::without(words[i], client);
        words[i] = sets::with_if(others, client, number != 0);
    }
}

// Stores a word of a message; fields 41 to 49 are its words in the frame's order.
fn put_message(words: &mut Words, field: u64, place: usize, number: u64) {
    if let Some(offset) = field.checked_sub(41) {
        let offset = offset as usize;
        if (place < limits::PLACES) & (offset < network::ROW) {
            words[network::MESSAGES + place * network::ROW + offset] = word(number);
        }
    }
}

// Applies a change to a state.
fn change_state(words: &mut Words, values: &mut Values, field: u64, place: usize, number: u64) {
    match field {
        27 => put_waiting(words, place, number),
        41..=49 => put_message(words, field, place, number),
        _ => {
            if let Some(from) = in_words(field) {
                put(words, from, place, word(number));
            }
            if let Some(from) = in_values(field) {
                put(values, from, place, number);
            }
        }
    }
}

// Applies a change to the saved state of a name.
fn change_saved(states: &mut States, name: usize, field: u64, place: usize, number: u64)
    requires { name < names }
{
    if field == 80 {
        states.saved[name][SAVED] = u32::from(number != 0);
    } else {
        let mut words = states.saved[name];
        let mut values = states.saved_values[name];
        change_state(&mut words, &mut values, field, place, number);
        states.saved[name] = words;
        states.saved_values[name] = values;
    }
}

// Copies the present state to a name.
fn save(states: &mut States, name: usize)
    requires { name < names }
{
    let words = states.words;
    let values = states.values;
    saved_states::save(
        &words,
        &values,
        &mut states.saved,
        &mut states.saved_values,
        name,
    );
}

// Applies a change to a saved state, unless there is no such name.
fn change_named(states: &mut States, field: u64, place: usize, number: u64) {
    if let Some(name) = (field / 100).checked_sub(1) {
        let name = name as usize;
        if name < NAMES {
            match field % 100 {
                81 => save(states, name),
                field => change_saved(states, name, field, place, number),
            }
        }
    }
}

// Applies a change to the setup, to the number of records lent, to the present state, or to a saved one.
pub fn change(mut case: Case, states: &mut States, field: u64, place: usize, number: u64) -> Case {
    match field {
        0..=9 => return lending(with(case.setup, field, place, number)),
        63 => case.copies = number as usize,
        74 => case.requests = number as usize,
        10..=99 => change_state(&mut states.words, &mut states.values, field, place, number),
        _ => change_named(states, field, place, number),
    }
    case
}
