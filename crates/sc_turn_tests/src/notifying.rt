//! The calls of event notification.

use crate::helping::{request_of, written};
use crate::reading::{number, word};
use sc_notifies::{
    Asked, Grant, NotifyRefused, Rule, RuleRefused, accept, activate, asked_for, change, end,
    failed, fire,
};
use sc_turn::Turn;
use sc_value::{ReqId, Request, SessId, Text, TimerId};
use std::alloc::Global;

// The package presence, for so many seconds at least and at most.
fn rule_of(alloc: Global, least: u32, longest: u32) -> Option<Result<Rule, RuleRefused>> {
    let event_package = Text::from_slice(alloc, b"presence").ok()?;
    let body = Text::from_slice(alloc, b"open").ok()?;
    Some(Rule::new(event_package, least, longest, body))
}

// The same for one minute to one hour.
fn rule(alloc: Global) -> Option<Rule> {
    rule_of(alloc, 60, 3600)?.ok()
}

// The least time of a rule and its longest, in seconds.
fn rule_row(alloc: Global, row: &str) -> Option<String> {
    match rule_of(alloc, number(row, 1), number(row, 2))? {
        Ok(rule) => {
            let longest = rule.longest();
            written(format!(in alloc; "{longest}"))
        }
        Err(refused) => written(format!(in alloc; "{refused:?}")),
    }
}

fn grant(word: &str) -> Grant {
    match word {
        "pending" => Grant::Pending,
        _ => Grant::Active,
    }
}

fn accepted(alloc: Global, answered: Result<Asked, NotifyRefused>) -> Option<String> {
    match answered {
        Ok(asked) => written(format!(in alloc; "{asked:?}")),
        Err(refused) => written(format!(in alloc; "{refused:?}")),
    }
}

fn accept_by(t: &mut Turn, alloc: Global, row: &str, request: &Request) -> Option<String> {
    let req = ReqId(number(row, 1));
    let sess = SessId(number(row, 2));
    match rule(alloc) {
        Some(rule) => accepted(
            alloc,
            accept(t, req, sess, request, &rule, grant(word(row, 3))),
        ),
        None => None,
    }
}

// A SUBSCRIBE, its SipSession, and the word `pending` or `active`.
fn accept_row(t: &mut Turn, alloc: Global, row: &str) -> Option<String> {
    match request_of(alloc, row) {
        Some(request) => accept_by(t, alloc, row, request.get()),
        None => None,
    }
}

fn asked_by(alloc: Global, request: &Request) -> Option<String> {
    match rule(alloc) {
        Some(rule) => {
            let asked = asked_for(request, &rule);
            written(format!(in alloc; "{asked:?}"))
        }
        None => None,
    }
}

fn asked_row(alloc: Global, row: &str) -> Option<String> {
    match request_of(alloc, row) {
        Some(request) => asked_by(alloc, request.get()),
        None => None,
    }
}

fn notified(alloc: Global, answered: Result<ReqId, NotifyRefused>) -> Option<String> {
    match answered {
        Ok(req) => {
            let n = req.0;
            written(format!(in alloc; "{n}"))
        }
        Err(refused) => written(format!(in alloc; "{refused:?}")),
    }
}

fn over(alloc: Global, answered: Result<Option<ReqId>, NotifyRefused>) -> Option<String> {
    match answered {
        Ok(sent) => written(format!(in alloc; "{sent:?}")),
        Err(refused) => written(format!(in alloc; "{refused:?}")),
    }
}

fn gone(alloc: Global, answered: Result<(), NotifyRefused>) -> Option<String> {
    match answered {
        Ok(()) => Some(String::new(alloc)),
        Err(refused) => written(format!(in alloc; "{refused:?}")),
    }
}

/// Makes the call that a row names. None where it names none of these.
pub fn help_notifying(t: &mut Turn, alloc: Global, row: &str) -> Option<String> {
    let name = word(row, 0);
    let sess = SessId(number(row, 1));
    if name == "rule" {
        return rule_row(alloc, row);
    }
    if name == "asked" {
        return asked_row(alloc, row);
    }
    if name == "accept" {
        return accept_row(t, alloc, row);
    }
    if name == "change" {
        return notified(alloc, change(t, sess, b"closed"));
    }
    if name == "activate" {
        return notified(alloc, activate(t, sess, b"open"));
    }
    if name == "end" {
        return notified(alloc, end(t, sess, b"noresource"));
    }
    if name == "time_out" {
        return over(alloc, fire(t, TimerId(number(row, 1))));
    }
    if name == "failed" {
        return gone(alloc, failed(t, sess));
    }
    None
}
