//! What every call is refused for.

use crate::playing::{called, play};
use sc_terms::{CallAnswer, CallRecord, End, Refusal};
use std::alloc::Global;

#[test]
fn no_call_after_the_application_session_ended(rt: HostRuntime) {
    play(
        &rt,
        rt.alloc(),
        "
        invalidate_application
        each = Invalidated
        send 99 = Invalidated  # before its number is judged",
    );
}

// How many calls are listed of a turn on which a table was played, where each row holds.
fn count_listed(alloc: Global, rows: &str) -> Option<usize> {
    match called(alloc, rows, End::Fine) {
        Some(called) => Some(called.calls.len()),
        None => None,
    }
}

// Those beyond aren't listed.
#[test]
fn no_call_after_256(rt: HostRuntime) {
    let listed = count_listed(
        rt.alloc(),
        "
        set_expires 1 = 255 times
        invalidate_application
        each = Limit(256)",
    );
    assert!(rt; listed == Some(256));
}

// Whether these are an accepted call and one that was refused so.
fn are_both(calls: &[CallRecord], refusal: Refusal) -> bool {
    match calls {
        [first, second] => {
            first.answer == CallAnswer::Fine && second.answer == CallAnswer::Refused(refusal)
        }
        _ => false,
    }
}

fn is_refused_call_listed(alloc: Global) -> bool {
    let rows = "
        set_expires 1
        send 1 = NotYours";
    match called(alloc, rows, End::Fault) {
        Some(called) => {
            called.end == End::Fault && are_both(called.calls.as_slice(), Refusal::NotYours)
        }
        None => false,
    }
}

#[test]
fn refused_call_is_listed(rt: HostRuntime) {
    assert!(rt; is_refused_call_listed(rt.alloc()));
}
