// Performs a step on the client records in the words: lends the first of them to the public step, and stores them back afterwards.
#![tactic(auto)]

use protocol::records::{Copy, Request};
use protocol::step::{Answer, Step};
use setup::limits::CLIENTS;
use state_words::CLIENT_OBJECTS;
use std::array;
use test_case_reader::Case;
use test_case_reader::states::States;

// Returns all copies in the tables.
fn copies_in(states: &States) -> [Copy; CLIENT_OBJECTS] {
    array::from_fn(|i| client_records::copies::copy_at(&states.words, &states.values, i))
}

// Returns all requests in the words.
fn requests_in(states: &States) -> [Request; CLIENTS] {
    array::from_fn(|i| client_records::requests::request_at(&states.words, i))
}

// Stores all copies back in the tables.
fn keep_copies(states: &mut States, copies: &[Copy; CLIENT_OBJECTS]) {
    for (i, copy) in copies.iter().enumerate() {
        client_records::copies::put_copy(&mut states.words, &mut states.values, i, *copy);
    }
}

// Stores all requests back in the words.
fn keep_requests(states: &mut States, requests: &[Request; CLIENTS]) {
    for (i, request) in requests.iter().enumerate() {
        client_records::requests::put_request(&mut states.words, i, *request);
    }
}

// Performs a step of a case and returns its answer. Lends the first copies and requests, as many as the case says, so that a case can lend more or fewer
// than the setup has, which is unsound.
pub fn take(case: Case, states: &mut States, step: Step) -> Answer {
    let mut copies = copies_in(states);
    let mut requests = requests_in(states);
    let lent_copies = test_case_reader::copies_lent(case);
    let lent_requests = test_case_reader::requests_lent(case);
    let answer = step::step(
        case.setup,
        &mut states.words,
        &mut states.values,
        &mut copies[..lent_copies],
        &mut requests[..lent_requests],
        &mut states.saved,
        &mut states.saved_values,
        step,
    );
    keep_copies(states, &copies);
    keep_requests(states, &requests);
    answer
}
