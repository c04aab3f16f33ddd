//! What the calls of helpers say.

use crate::playing::called;
use crate::reading::cut;
use sc_terms::{Call, CallRecord, End};
use sc_value::Field;
use std::alloc::Global;

fn value_in<'a>(fields: &'a [Field], name: &str) -> Option<&'a [u8]> {
    match fields
        .iter()
        .find(|field| field.name.as_bytes() == name.as_bytes())
    {
        Some(field) => Some(field.value.as_bytes()),
        None => None,
    }
}

// What a call says: the header of this name, the reason of a response, or the body of a request.
fn said<'a>(call: &'a Call, name: &str) -> Option<&'a [u8]> {
    match call {
        Call::Respond { answer, .. } => {
            if name == "reason" {
                Some(answer.reason.as_bytes())
            } else {
                value_in(answer.fields.as_slice(), name)
            }
        }
        Call::CreateInDialog { ask, .. } => {
            if name == "body" {
                Some(ask.body.as_bytes())
            } else {
                value_in(ask.fields.as_slice(), name)
            }
        }
        _ => None,
    }
}

// A value of a list; `-` stands for an empty one.
fn meant(value: &str) -> &str {
    let value = value.trim();
    if value == "-" { "" } else { value }
}

fn are_said(calls: &[CallRecord], name: &str, values: &str) -> bool {
    let mut rest = values;
    for record in calls {
        if let Some(said) = said(&record.call, name) {
            let (value, more) = cut(rest, ',');
            if meant(value).as_bytes() != said {
                return false;
            }
            rest = more;
        }
    }
    rest.is_empty()
}

/// Whether each row of a table holds, and its calls say these values of the header of this name, in
/// their order. A comma stands between two of them.
pub fn tell(alloc: Global, rows: &str, name: &str, values: &str) -> bool {
    match called(alloc, rows, End::Fine) {
        Some(called) => are_said(called.calls.as_slice(), name, values),
        None => false,
    }
}
