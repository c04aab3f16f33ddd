ghost use Rattle.std.specs.Prelude.{◌≡◌, ◌≤◌, ◌-◌, length, max, min, vec_capacity};
ghost use Rattle.sc_edge.specs.EdgeMemory.{IsPut, closes_after, coming_put, faults_after, places_after, places_put, put_share, share_at, taken_put, tells_put, told_closes};

use crate::mem_coming::Coming;
use crate::mem_places::{Known, Places};
use crate::mem_taken::Taken;
use crate::plan::counted;
use crate::{Closing, Got, Put};
use sc_value::Place;

/// What a put to an edge in memory takes.
#[derive(Clone, Copy, Debug, PartialEq, Eq)]
pub enum Share {
    /// At most so many bytes; 0 counts as 1.
    AtMost(usize),
    /// No byte yet.
    NotYet,
}

// What the put after so many takes.
pub(crate) fn share_of(shares: &[Share], puts: u64) -> Share
    ensures { result ≡ share_at shares.now puts }
{
    match shares.get(puts as usize) {
        Some(share) => *share,
        None => Share::AtMost(usize::MAX),
    }
}

// What a put of a piece of this length comes to, with room for `left` bytes.
pub(crate) fn offered(share: Share, left: usize, len: usize) -> Put
    ensures { result ≡ put_share share left len }
{
    match share {
        Share::AtMost(most) => {
            if len > 0 && left == 0 {
                Put::Failed
            } else {
                Put::Wrote(len.min(most.max(1)).min(left))
            }
        }
        Share::NotYet => Put::NotYet,
    }
}

// The places after an answer.
pub(crate) fn note_got(places: &mut Places, got: Got)
    ensures { places.new ≡ places_after places.old got }
{
    match got {
        Got::End(place) => places.set(places.at(place).ended()),
        Got::Failed(place) => places.set(places.at(place).failed()),
        _ => {}
    }
}

// The listener's faults after an answer.
pub(crate) fn faults_of(faults: u64, got: Got) -> u64
    ensures { result ≡ faults_after faults got }
{
    match got {
        Got::Fault => counted(faults),
        _ => faults,
    }
}

// The places after a put.
pub(crate) fn note_put(places: &mut Places, known: Known, put: Put, len: usize)
    ensures { places.new ≡ places_put places.old known put len }
{
    match put {
        Put::Wrote(count) => places.set(known.served(count, len)),
        Put::NotYet => {}
        Put::Failed => places.set(known.failed()),
    }
}

// What places took after a put.
pub(crate) fn take_put(taken: &mut Taken, to: Place, bytes: &[u8], put: Put)
    requires { IsPut put (length bytes.now) (taken.old.room - length taken.old.kept) }
    ensures { taken.new ≡ taken_put taken.old to bytes.now put }
{
    match put {
        Put::Wrote(count) => taken.take(to, &bytes[..count]),
        Put::NotYet => {}
        Put::Failed => {}
    }
}

// The closes after one more, where they are still told.
#[tactic(auto, unfolding(crate::specs::EdgeMemory::told_closes))]
pub(crate) fn note_close(closes: &mut Vec<Closing>, tells: &mut bool, room: usize, closing: Closing)
    requires { room ≤ vec_capacity closes.old }
    ensures told { told_closes tells.new closes.new.items
        ≡ closes_after (told_closes tells.old closes.old.items) room closing }
    ensures capacity { room ≤ vec_capacity closes.new }
{
    if *tells {
        if closes.len() < room {
            closes.push(closing).unwrap();
        } else {
            *tells = false;
        }
    }
}

// Notes a put that failed among what came.
pub(crate) fn note_failure(coming: &mut Coming, tells: &mut bool, to: Place, put: Put)
    ensures coming { coming.new ≡ coming_put coming.old to put }
    ensures tells { tells.new ≡ tells_put tells.old coming.old put }
{
    match put {
        Put::Wrote(_) => {}
        Put::NotYet => {}
        Put::Failed => fail_put(coming, tells, to),
    }
}

// Once there is no room for one, nothing that comes is told.
fn fail_put(coming: &mut Coming, tells: &mut bool, to: Place)
    ensures coming { coming.new ≡ coming_put coming.old to Put.Failed }
    ensures tells { tells.new ≡ tells_put tells.old coming.old Put.Failed }
{
    if coming.spare() > 0 {
        coming.fail(to);
    } else {
        *tells = false;
    }
}
