//! The list of a line: its method, and its tuples.

ghost use Rattle.std.specs.Prelude.{◌≡◌, ◌<◌, ◌++◌, ◌||◌, IsTrue, length};
ghost use Rattle.sc_tokens.specs.Hosts.{begins};
ghost use Rattle.sc_tokens.specs.Quoted.{token_end};
ghost use Rattle.sc_terms.specs.RoutingTables.{is_listed};
ghost use Rattle.sc_dar.specs.Tables.{has_separator, list_in, list_of};
ghost use Rattle.sc_dar.specs.Answers.{IsRead};

use crate::cuts::drop_blanks;
use crate::lines::is_comment;
use crate::tuples::tuples_in;
use crate::unread::{DOUBLE_METHOD, NO_SEPARATOR, Unread};
use sc_ascii::{begins, token_end};
use sc_terms::MethodList;
use sc_value::Text;
use std::alloc::Global;

// Whether one of the lists is of this method.
#[tactic(auto, unfolding(sc_terms::specs::RoutingTables::is_listed))]
fn is_listed(lists: &[MethodList], method: &[u8]) -> bool
    ensures { result ≡ is_listed lists.now method.now }
{
    lists.iter().any(|list| list.method.as_bytes() == method)
}

// Whether : or = stands at the front.
fn begins_separator(text: &[u8]) -> bool
    ensures exact { result ≡ (begins 58 text.now || begins 61 text.now) }
    ensures within { IsTrue result → 0 < length text.now }
{
    begins(text, b':') || begins(text, b'=')
}

// The list of a line that is no comment.
#[tactic(auto, unfolding(crate::specs::Tables::list_in, crate::specs::Tables::has_separator, crate::specs::Tuples::then_read))]
fn list_in(
    alloc: Global,
    apps: &[Text],
    lists: &[MethodList],
    line: &[u8],
) -> Result<MethodList, Unread>
    ensures { IsRead result (list_in apps.now lists.now line.now) }
{
    let end = token_end(line, 0);
    let behind = drop_blanks(&line[end..]);
    if end == 0 || !begins_separator(behind) {
        return Err(Unread::Fault { kind: NO_SEPARATOR });
    }
    if is_listed(lists, &line[..end]) {
        return Err(Unread::Fault {
            kind: DOUBLE_METHOD,
        });
    }
    let method = Text::from_slice(alloc, &line[..end])?;
    let tuples = tuples_in(alloc, apps, &behind[1..])?;
    Ok(MethodList { method, tuples })
}

// The list of a line, None of a comment.
#[tactic(auto, unfolding(crate::specs::Tables::list_of, crate::specs::Tuples::then_read))]
fn list_of(
    alloc: Global,
    apps: &[Text],
    lists: &[MethodList],
    line: &[u8],
) -> Result<Option<MethodList>, Unread>
    ensures { IsRead result (list_of apps.now lists.now line.now) }
{
    if is_comment(line) {
        return Ok(None);
    }
    let list = list_in(alloc, apps, lists, line)?;
    Ok(Some(list))
}

// The list of a line that stands in two pieces.
pub fn list_of_line(
    alloc: Global,
    apps: &[Text],
    lists: &[MethodList],
    front: Text,
    last: &[u8],
) -> Result<Option<MethodList>, Unread>
    ensures { IsRead result (list_of apps.now lists.now (front ++ last.now)) }
{
    if front.is_empty() {
        return list_of(alloc, apps, lists, last);
    }
    let mut line = front;
    line.append(last)?;
    list_of(alloc, apps, lists, line.as_bytes())
}
