//! Session timers that run, as their attributes tell them (RFC 4028).

ghost use Rattle.std.specs.Prelude.{◌≡◌, ◌≤◌, ◌∷◌, [], IfOk, IfSome, slice_get, filter_map};
ghost use Rattle.sc_hosts.specs.SessionTimers.{named_timed, side_of, side_text, timed_in, timed_name, timed_of, timed_text};

use sc_helpers::{numbered, session_after, strict_number, three_pieces};
use sc_value::{Field, NoMemory, SessId, Text, TimerId, write_u64};
use std::alloc::Global;
use std::marker::Model;

/// The session timer of a SipSession.
#[derive(Drop)]
pub struct Refresh {
    /// The interval in seconds, at most 4,000,000.
    pub seconds: u32,
    /// Whether the application refreshes the session.
    pub me: bool,
    /// The servlet timer, 0 for none.
    pub timer: u64,
}

impl Model for Refresh {
    ghost use Rattle.sc_hosts.specs.SessionTimers.{Timed};

    ghost Value = { Timed };

    ghost view = { λ r. record { seconds = r.seconds; me = r.me; timer = r.timer } };
}

/// A session timer with the number of its SipSession.
#[derive(Drop)]
pub struct NamedRefresh {
    pub sess: SessId,
    pub refresh: Refresh,
}

impl Model for NamedRefresh {
    ghost use Rattle.sc_hosts.specs.SessionTimers.{Named};

    ghost Value = { Named };

    ghost view = { λ n. record { sess = n.sess; timed = n.refresh } };
}

/// The name of the attribute, and of the servlet timer, of a SipSession.
#[tactic(auto, unfolding(sc_hosts::specs::SessionTimers::timed_name))]
pub fn timed_name(alloc: Global, sess: SessId) -> Result<Text, NoMemory>
    ensures { IfOk result (λ text. text ≡ timed_name sess) }
{
    numbered(alloc, b"st", u64::from(sess.0))
}

#[tactic(auto, unfolding(sc_hosts::specs::SessionTimers::side_text))]
fn side_text(me: bool) -> &'static [u8]
    ensures { result.now ≡ side_text me }
{
    if me { b"me" } else { b"peer" }
}

/// A session timer, as its attribute tells it.
#[tactic(auto, unfolding(sc_hosts::specs::SessionTimers::timed_text))]
pub fn timed_text(alloc: Global, seconds: u32, me: bool, timer: u64) -> Result<Text, NoMemory>
    ensures { IfOk result (λ text. text ≡ timed_text seconds me timer) }
{
    let mut text = numbered(alloc, b"", u64::from(seconds))?;
    text.append(b" ")?;
    text.append(side_text(me))?;
    text.append(b" ")?;
    write_u64(timer, &mut text)?;
    Ok(text)
}

#[tactic(auto, unfolding(sc_hosts::specs::SessionTimers::side_of))]
fn side_of(word: &[u8]) -> Option<bool>
    ensures { result ≡ side_of word.now }
{
    if word == b"me".as_slice() {
        return Some(true);
    }
    if word == b"peer".as_slice() {
        return Some(false);
    }
    None
}

#[tactic(auto, unfolding(sc_hosts::specs::SessionTimers::timed_in))]
fn refresh_of(seconds: &[u8], side: &[u8], timer: &[u8]) -> Option<Refresh>
    ensures exact { result ≡ timed_in (seconds.now ∷ side.now ∷ timer.now ∷ []) }
    ensures within { IfSome result (λ refresh. refresh.seconds ≤ 4000000) }
{
    let seconds = strict_number(seconds)?;
    if 4_000_000 < seconds {
        return None;
    }
    Some(Refresh {
        seconds: seconds as u32,
        me: side_of(side)?,
        timer: strict_number(timer)?,
    })
}

/// The session timer that an attribute's value tells, None where it tells none.
#[tactic(auto, unfolding(sc_hosts::specs::SessionTimers::timed_of), using(sc_helpers::proofs::Triples::timed_three, sc_helpers::proofs::Triples::timed_other))]
pub fn timed_of(text: &[u8]) -> Option<Refresh>
    ensures exact { result ≡ timed_of text.now }
    ensures within { IfSome result (λ refresh. refresh.seconds ≤ 4000000) }
{
    let (seconds, side, timer) = three_pieces(text)?;
    refresh_of(seconds, side, timer)
}

#[tactic(auto, unfolding(sc_hosts::specs::SessionTimers::named_timed))]
fn named_timed(field: &Field, id: TimerId) -> Option<NamedRefresh>
    ensures exact { result ≡ named_timed id field.now }
    ensures within { IfSome result (λ named. named.timed.seconds ≤ 4000000) }
{
    let sess = session_after(field.name.as_bytes(), b"st")?;
    let refresh = timed_of(field.value.as_bytes())?;
    if refresh.timer == u64::from(id.0) {
        Some(NamedRefresh { sess, refresh })
    } else {
        None
    }
}

/// The first attribute that tells of this servlet timer.
#[tactic(auto, using(sc_helpers::proofs::Firsts::first_found, sc_helpers::proofs::Firsts::first_later))]
pub fn first_timed(fields: &[Field], id: TimerId) -> Option<NamedRefresh>
    ensures exact { result ≡ slice_get (filter_map (named_timed id) fields.now) 0 }
    ensures within { IfSome result (λ named. named.timed.seconds ≤ 4000000) }
{
    for field in fields {
        match named_timed(field, id) {
            Some(named) => return Some(named),
            None => {}
        }
    }
    None
}
