//! The states of a SipSession after responses (JSR 289 section 6.2.1, RFC 3261 section 12), and the
//! NOTIFY that ends a subscription (RFC 6665 section 4.1.3).

ghost use Rattle.std.specs.Prelude.{◌≡◌, ◌&&◌, not, if◌then◌else◌, position};
ghost use Rattle.std.specs.List.{find, prefix_len, take_while};
ghost use Rattle.std.specs.Option.{option_copied};
ghost use Rattle.sc_tokens.specs.Names.{same_name};
ghost use Rattle.sc_tokens.specs.Tokens.{is_token_byte};
ghost use Rattle.sc_model.specs.SessionStates.{is_final, ended_state};
ghost use Rattle.sc_model.specs.Transactions.{is_success, is_failure};
ghost use Rattle.sc_hosts.specs.States.{failed_state, is_ringing, invited_state, subscribed_state, after_initial, unsubscribed_state, after_later, after_response, subscription_state, terminated_word, begins_token, ends_subscription};

use sc_methods::{is_bye, is_failure, is_final, is_invite, is_notify, is_subscribe, is_success};
use sc_terms::{RequestView, Role, State};
use sc_value::{Field, is_token_byte, same_name};

#[tactic(auto, unfolding(sc_hosts::specs::States::failed_state))]
fn failed_state(role: Role) -> State
    ensures { result ≡ failed_state role }
{
    match role {
        Role::Uac => State::Initial,
        Role::Uas | Role::Proxy => State::Terminated,
    }
}

// Provisional and told: 101 to 199.
fn is_ringing(code: u16) -> bool
    ensures { result ≡ is_ringing code }
{
    100 < code && !is_final(code)
}

// The state after a final response, and after every other the given one.
fn final_state(failed: State, code: u16, other: State) -> State
    ensures { result
        ≡ (if is_failure code then failed
        else (if is_success code then State.Confirmed else other)) }
{
    if is_failure(code) {
        return failed;
    }
    if is_success(code) {
        return State::Confirmed;
    }
    other
}

fn ringing_state(tagged: bool, code: u16) -> State
    ensures { result ≡ (if tagged && is_ringing code then State.Early else State.Initial) }
{
    if tagged && is_ringing(code) {
        State::Early
    } else {
        State::Initial
    }
}

#[tactic(auto, unfolding(sc_hosts::specs::States::invited_state))]
fn invited_state(failed: State, tagged: bool, state: State, code: u16) -> State
    ensures { result ≡ invited_state failed tagged state code }
{
    match state {
        State::Initial => final_state(failed, code, ringing_state(tagged, code)),
        State::Early => final_state(failed, code, State::Early),
        State::Confirmed => State::Confirmed,
        State::Terminated => State::Terminated,
    }
}

#[tactic(auto, unfolding(sc_hosts::specs::States::subscribed_state))]
fn subscribed_state(state: State, code: u16) -> State
    ensures { result ≡ subscribed_state state code }
{
    if state != State::Initial {
        return state;
    }
    if is_failure(code) {
        return State::Terminated;
    }
    if is_success(code) {
        return State::Confirmed;
    }
    State::Initial
}

#[tactic(auto, unfolding(sc_hosts::specs::States::after_initial))]
pub fn after_initial(role: Role, method: &[u8], tagged: bool, state: State, code: u16) -> State
    ensures { result ≡ after_initial role method.now tagged state code }
{
    if is_invite(method) {
        return invited_state(failed_state(role), tagged, state, code);
    }
    if is_subscribe(method) {
        return subscribed_state(state, code);
    }
    if is_final(code) {
        return State::Terminated;
    }
    state
}

#[tactic(auto, unfolding(sc_model::specs::SessionStates::ended_state))]
fn ended_state(state: State) -> State
    ensures { result ≡ ended_state state }
{
    match state {
        State::Initial => State::Initial,
        State::Early | State::Confirmed | State::Terminated => State::Terminated,
    }
}

#[tactic(auto, unfolding(sc_hosts::specs::States::unsubscribed_state))]
fn unsubscribed_state(state: State) -> State
    ensures { result ≡ unsubscribed_state state }
{
    match state {
        State::Initial => State::Initial,
        State::Early => State::Early,
        State::Confirmed | State::Terminated => State::Terminated,
    }
}

#[tactic(auto, unfolding(sc_hosts::specs::States::after_later))]
fn after_later(method: &[u8], ends: bool, state: State, code: u16) -> State
    ensures { result ≡ after_later method.now ends state code }
{
    if !is_final(code) {
        return state;
    }
    if is_bye(method) {
        return ended_state(state);
    }
    if ends {
        return unsubscribed_state(state);
    }
    state
}

/// The state after a response of this code to a request, which has a To tag or hasn't.
#[tactic(auto, unfolding(sc_hosts::specs::States::after_response))]
pub fn after_response(
    role: Role,
    request: &RequestView,
    tagged: bool,
    state: State,
    code: u16,
) -> State
    ensures { result ≡ after_response role request.now tagged state code }
{
    if request.initial {
        after_initial(role, request.method.as_bytes(), tagged, state, code)
    } else {
        after_later(request.method.as_bytes(), request.ends, state, code)
    }
}

fn first_other(value: &[u8]) -> Option<usize>
    ensures { result ≡ position (λ b. not (is_token_byte b)) value.now }
{
    value.iter().position(|b| !is_token_byte(*b))
}

// How many bytes from the front on can stand in a token.
#[tactic(auto, using(crate::proofs::Prefixes::prefix_len_some, crate::proofs::Prefixes::prefix_len_none))]
fn token_end(value: &[u8]) -> usize
    ensures { result ≡ prefix_len is_token_byte value.now }
{
    match first_other(value) {
        Some(at) => at,
        None => value.len(),
    }
}

#[tactic(auto, using(crate::proofs::Prefixes::prefix_len_most))]
fn token_at_front(value: &[u8]) -> &[u8]
    ensures { result.now ≡ take_while is_token_byte value.now }
{
    &value[..token_end(value)]
}

#[tactic(auto, unfolding(sc_hosts::specs::States::terminated_word, sc_hosts::specs::States::begins_token))]
fn begins_terminated(value: &[u8]) -> bool
    ensures { result ≡ begins_token terminated_word value.now }
{
    same_name(token_at_front(value), b"terminated")
}

#[tactic(auto, unfolding(sc_hosts::specs::States::subscription_state))]
fn is_subscription_state(name: &[u8]) -> bool
    ensures { result ≡ same_name name.now subscription_state }
{
    same_name(name, b"Subscription-State")
}

fn state_place(fields: &[Field]) -> Option<usize>
    ensures { result ≡ position (λ field. same_name field.name subscription_state) fields.now }
{
    fields
        .iter()
        .position(|field| is_subscription_state(field.name.as_bytes()))
}

#[tactic(auto, using(sc_value::proofs::ListFacts::find_position, sc_value::proofs::ListFacts::find_none))]
fn state_field(fields: &[Field]) -> Option<&Field>
    ensures { option_copied result
        ≡ find (λ field. same_name field.name subscription_state) fields.now }
{
    match state_place(fields) {
        Some(at) => Some(&fields[at]),
        None => None,
    }
}

/// Whether a request of this method with these fields is a NOTIFY that ends its subscription.
#[tactic(auto, unfolding(sc_hosts::specs::States::ends_subscription))]
pub fn ends_subscription(method: &[u8], fields: &[Field]) -> bool
    ensures { result ≡ ends_subscription method.now fields.now }
{
    if !is_notify(method) {
        return false;
    }
    match state_field(fields) {
        Some(field) => begins_terminated(field.value.as_bytes()),
        None => false,
    }
}
