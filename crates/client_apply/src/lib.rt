// Reads the client records that a step can touch from the words, and applies a decision to them. Indices outside the setup read as empty and are never
// written.
#![tactic(auto)]

ghost use Rattle.std.specs.Prelude.{true, ◌≡◌, ◌*◌, get_or};
ghost use Rattle.protocol.specs.Setup.{in_range};
ghost use Rattle.protocol.specs.Tables.{no_copy, no_request};
ghost use Rattle.protocol.specs.Client.{sweeps, CanTurn};
ghost use Rattle.state_words.specs.View.{world_of};
ghost use Rattle.client_apply.specs.Changes.{copy_put, copy_changed, swept_of, request_turned, changed_at};

use client_cache::request;
use client_records::{copies, requests};
use protocol::records::{Copy, Request};
use protocol::setup::Setup;
use protocol::step::{Change, CopyChange, Sweep, Target, Turn};
use setup::fresh;
use state_words::{Values, Words};

// Returns the copy that the step can touch.
#[tactic(auto, using(crate::proofs::Changing::copy_inside, state_words::proofs::Worlds::few_copies))]
pub fn copy_of(setup: Setup, words: &Words, values: &Values, at: Target) -> Copy
    requires { in_range setup ≡ true }
    ensures { result ≡ get_or (world_of setup words.now values.now).copies at.copy no_copy }
{
    if at.copy < setup.clients as usize * setup.objects as usize {
        copies::copy_at(words, values, at.copy)
    } else {
        fresh::fresh_copy()
    }
}

// Returns the request that the step can touch. Only the contract needs the values.
#[tactic(auto, using(crate::proofs::Changing::request_inside))]
pub fn request_of(setup: Setup, words: &Words, values: &Values, at: Target) -> Request
    requires { in_range setup ≡ true }
    ensures { result ≡ get_or (world_of setup words.now values.now).requests at.client no_request }
{
    if at.client < setup.clients as usize {
        requests::request_at(words, at.client)
    } else {
        fresh::no_request()
    }
}

// Stores a copy if its place is within the setup.
#[tactic(auto, using(crate::proofs::Changing::put_inside, state_words::proofs::Worlds::few_copies))]
fn put_copy(setup: Setup, words: &mut Words, values: &mut Values, place: usize, c: Copy)
    requires { in_range setup ≡ true }
    ensures { world_of setup words.new values.new ≡ copy_put (world_of setup words.old values.old) place c }
{
    if place < setup.clients as usize * setup.objects as usize {
        copies::put_copy(words, values, place, c);
    }
}

// Applies a change to one copy. Most steps keep it; then nothing is read or stored.
fn change_copy(setup: Setup, words: &mut Words, values: &mut Values, place: usize, u: CopyChange)
    requires { in_range setup ≡ true }
    ensures { world_of setup words.new values.new ≡ copy_changed (world_of setup words.old values.old) place u }
{
    match u {
        CopyChange::Keep => {}
        CopyChange::Fill(c) => put_copy(setup, words, values, place, c),
        CopyChange::Erase => put_copy(setup, words, values, place, fresh::fresh_copy()),
    }
}

// Sweeps all copies of a client if the setup has that client.
#[tactic(auto, using(crate::proofs::Changing::own_there, crate::proofs::Changing::sweep_own, crate::proofs::Changing::sweep_past))]
fn sweep_client(setup: Setup, words: &mut Words, values: &mut Values, at: Target, g: Sweep)
    requires setup_value { in_range setup ≡ true }
    requires first_value { at.first ≡ at.client * setup.objects }
    ensures { world_of setup words.new values.new ≡ swept_of setup g at.first setup.objects (world_of setup words.old values.old) }
{
    if at.client < setup.clients as usize {
        copies::sweep(setup, words, values, g, at.first, setup.objects as usize);
    }
}

// Sweeps a client's copies, or skips the pass if they are kept.
fn sweep(setup: Setup, words: &mut Words, values: &mut Values, at: Target, g: Sweep)
    requires setup_value { in_range setup ≡ true }
    requires first_value { at.first ≡ at.client * setup.objects }
    ensures { world_of setup words.new values.new ≡ swept_of setup g at.first (sweeps g setup.objects) (world_of setup words.old values.old) }
{
    match g {
        Sweep::Keep => {}
        _ => sweep_client(setup, words, values, at, g),
    }
}

// Applies a turn to a client's request if the setup has that client. Only the contract needs the values.
#[tactic(auto, using(crate::proofs::Changing::can_turn))]
fn turn_client(setup: Setup, words: &mut Words, values: &Values, client: usize, u: Turn)
    requires setup_value { in_range setup ≡ true }
    requires can_turn { CanTurn (get_or (world_of setup words.old values.now).requests client no_request) u }
    ensures { world_of setup words.new values.now ≡ request_turned (world_of setup words.old values.now) client u }
{
    if client < setup.clients as usize {
        let r = requests::request_at(words, client);
        let turned = request::turn(r, u);
        requests::put_request(words, client, turned);
    }
}

// Applies a turn to a client's request, or skips the store if it is kept.
fn turn(setup: Setup, words: &mut Words, values: &Values, client: usize, u: Turn)
    requires setup_value { in_range setup ≡ true }
    requires can_turn { CanTurn (get_or (world_of setup words.old values.now).requests client no_request) u }
    ensures { world_of setup words.new values.now ≡ request_turned (world_of setup words.old values.now) client u }
{
    match u {
        Turn::Keep => {}
        _ => turn_client(setup, words, values, client, u),
    }
}

// Applies a change to the records of the target's client.
#[tactic(auto, using(crate::proofs::Changing::still_turns))]
pub fn change(setup: Setup, words: &mut Words, values: &mut Values, at: Target, g: Change)
    requires setup_value { in_range setup ≡ true }
    requires first_value { at.first ≡ at.client * setup.objects }
    requires can_turn { CanTurn (get_or (world_of setup words.old values.old).requests at.client no_request) g.request }
    ensures { world_of setup words.new values.new ≡ changed_at setup (world_of setup words.old values.old) at g }
{
    change_copy(setup, words, values, at.copy, g.copy);
    sweep(setup, words, values, at, g.sweep);
    turn(setup, words, values, at.client, g.request);
}
