//! What comes from the edge.

ghost use Rattle.std.specs.Prelude.{◌≡◌, [], length, if◌then◌else◌, Ok, IfErr, IfOk, OnOk, OnErr};
ghost use Rattle.sc_tokens.specs.Bytes.{Bytes};
ghost use Rattle.sc_edge.specs.Edges.{EdgeState, IsWithin};
ghost use Rattle.sc_runs.specs.Following.{IsKept};
ghost use Rattle.sc_courses.specs.Courses.{Beginning};
ghost use Rattle.sc_rounds.specs.Dues.{HasDue};
ghost use Rattle.sc_rounds.specs.GivingUp.{GaveUp, GivesUp, HearsOut, broken_by};
ghost use Rattle.sc_rounds.specs.Polling.{Comes, GivesOn, Polls};
ghost use Rattle.sc_rounds.specs.Serving.{Ended, Serves, ServesOn};
ghost use Rattle.sc_streams.specs.Streaming.{bytes_of};

use crate::hearing::{hear_all, lose};
use crate::stepping::Core;
use sc_edge::{Got, Notice, Polled};
use sc_journal::Journal;
use sc_streams::Streams;
use sc_switch::StepRefused;
use sc_terms::Step;
use sc_value::{NoMemory, Place};

/// What an answer of the edge came to.
#[derive(Clone, Copy, Debug, PartialEq, Eq)]
pub enum Came {
    /// Nothing came.
    Nothing,
    /// Bytes came from the place.
    Bytes(Place),
    /// The place gave what is no message, or one that is too long.
    Broken(Place),
    /// The place gives nothing more, or failed.
    End(Place),
    /// Nothing comes any more from anywhere.
    Closed,
    /// The edge can't listen.
    Fault,
}

/// Takes the steps that an answer of the edge makes. It comes to `Broken` exactly where the place
/// of its bytes is given up.
///
/// # Errors
///
/// `JournalFull` where the journal has no room for a step, and `NoMemory`. The steps before it
/// stand.
pub fn take_got<N: Notice<Journal<Step>>>(
    core: &mut Core,
    streams: &mut Streams,
    notice: &mut N,
    got: Got,
    room: &[u8],
) -> Result<Came, StepRefused>
    requires { IsWithin got (length room.now) }
    ensures ok { (from : Beginning) (old new : EdgeState)
        → Serves from old (N.noted notice.old) core.old streams.old → Polls old new got room.now
        → OnOk result (Serves from new (N.noted notice.new) core.new streams.new) }
    ensures err { (from : Beginning) (old new : EdgeState)
        → Serves from old (N.noted notice.old) core.old streams.old → Polls old new got room.now
        → OnErr result (Ended from new (N.noted notice.new) core.new.switch) }
    ensures gave { (from : Beginning) (old new : EdgeState)
        → Serves from old (N.noted notice.old) core.old streams.old → Polls old new got room.now
        → (place : Place) → result ≡ Ok (Came.Broken place)
        → GaveUp from.edge.polled new.polled place }
    ensures gives { (old new : EdgeState) → Polls old new got room.now → IfOk result
        (λ came.
        GivesOn old new (bytes_of streams.old) (broken_by came) (bytes_of streams.new)) }
    ensures due { IfErr result (λ cause. HasDue core.new.switch cause) }
{
    match got {
        Got::Bytes(place, count) => take_bytes(core, streams, notice, place, &room[..count]),
        Got::End(place) => take_end(core, streams, notice, place),
        Got::Failed(place) => take_failure(core, streams, notice, place),
        Got::Closed => Ok(Came::Closed),
        Got::NotYet => Ok(Came::Nothing),
        Got::Fault => Ok(Came::Fault),
    }
}

/// A place gives nothing more.
fn take_end<N: Notice<Journal<Step>>>(
    core: &mut Core,
    streams: &mut Streams,
    notice: &mut N,
    at: Place,
) -> Result<Came, StepRefused>
    ensures ok { (from : Beginning) (old new : EdgeState)
        → Serves from old (N.noted notice.old) core.old streams.old → Comes old new (Polled.End at)
        → OnOk result (Serves from new (N.noted notice.new) core.new streams.new) }
    ensures err { (from : Beginning) (old new : EdgeState)
        → Serves from old (N.noted notice.old) core.old streams.old → Comes old new (Polled.End at)
        → OnErr result (Ended from new (N.noted notice.new) core.new.switch) }
    ensures none { (place : Place) → result ≡ Ok (Came.Broken place) → ⊥ }
    ensures gives { IfOk result
        (λ came.
        GivesUp (bytes_of streams.old) (Polled.End at) (broken_by came) (bytes_of streams.new)) }
    ensures due { IfErr result (λ cause. HasDue core.new.switch cause) }
{
    match lose(core, streams, notice, at) {
        Ok(()) => Ok(Came::End(at)),
        Err(cause) => Err(cause),
    }
}

/// A connection failed.
fn take_failure<N: Notice<Journal<Step>>>(
    core: &mut Core,
    streams: &mut Streams,
    notice: &mut N,
    at: Place,
) -> Result<Came, StepRefused>
    ensures ok { (from : Beginning) (old new : EdgeState)
        → Serves from old (N.noted notice.old) core.old streams.old
        → Comes old new (Polled.Failed at)
        → OnOk result (Serves from new (N.noted notice.new) core.new streams.new) }
    ensures err { (from : Beginning) (old new : EdgeState)
        → Serves from old (N.noted notice.old) core.old streams.old
        → Comes old new (Polled.Failed at)
        → OnErr result (Ended from new (N.noted notice.new) core.new.switch) }
    ensures none { (place : Place) → result ≡ Ok (Came.Broken place) → ⊥ }
    ensures gives { IfOk result
        (λ came.
        GivesUp (bytes_of streams.old) (Polled.Failed at) (broken_by came)
        (bytes_of streams.new)) }
    ensures due { IfErr result (λ cause. HasDue core.new.switch cause) }
{
    match fail(core, streams, notice, at) {
        Ok(()) => Ok(Came::End(at)),
        Err(cause) => Err(cause),
    }
}

/// A connection failed, at a poll or at a put: its place is lost, with its stream and what is left
/// to be put there.
pub fn fail<N: Notice<Journal<Step>>>(
    core: &mut Core,
    streams: &mut Streams,
    notice: &mut N,
    at: Place,
) -> Result<(), StepRefused>
    ensures ok { (from : Beginning) (old new : EdgeState)
        → Serves from old (N.noted notice.old) core.old streams.old
        → Comes old new (Polled.Failed at)
        → OnOk result (Serves from new (N.noted notice.new) core.new streams.new) }
    ensures err { (from : Beginning) (old new : EdgeState)
        → Serves from old (N.noted notice.old) core.old streams.old
        → Comes old new (Polled.Failed at)
        → OnErr result (Ended from new (N.noted notice.new) core.new.switch) }
    ensures kept { IsKept (bytes_of streams.old) at [] (bytes_of streams.new) }
    ensures due { IfErr result (λ cause. HasDue core.new.switch cause) }
{
    streams.drop_of(at);
    core.fail(notice, at)
}

/// Bytes came from a place.
fn take_bytes<N: Notice<Journal<Step>>>(
    core: &mut Core,
    streams: &mut Streams,
    notice: &mut N,
    at: Place,
    text: &[u8],
) -> Result<Came, StepRefused>
    ensures ok { (from : Beginning) (old new : EdgeState)
        → Serves from old (N.noted notice.old) core.old streams.old
        → Comes old new (Polled.Bytes at text.now)
        → OnOk result (Serves from new (N.noted notice.new) core.new streams.new) }
    ensures err { (from : Beginning) (old new : EdgeState)
        → Serves from old (N.noted notice.old) core.old streams.old
        → Comes old new (Polled.Bytes at text.now)
        → OnErr result (Ended from new (N.noted notice.new) core.new.switch) }
    ensures gave { (from : Beginning) (old new : EdgeState)
        → Serves from old (N.noted notice.old) core.old streams.old
        → Comes old new (Polled.Bytes at text.now)
        → (place : Place) → result ≡ Ok (Came.Broken place)
        → GaveUp from.edge.polled new.polled place }
    ensures gives { IfOk result
        (λ came.
        GivesUp (bytes_of streams.old) (Polled.Bytes at text.now) (broken_by came)
        (bytes_of streams.new)) }
    ensures due { IfErr result (λ cause. HasDue core.new.switch cause) }
{
    match streams.feed(core.alloc, at, text) {
        Ok(()) => hear_bytes(core, streams, notice, at),
        Err(NoMemory) => Err(StepRefused::NoMemory),
    }
}

/// Hears what a place's stream has.
fn hear_bytes<N: Notice<Journal<Step>>>(
    core: &mut Core,
    streams: &mut Streams,
    notice: &mut N,
    at: Place,
) -> Result<Came, StepRefused>
    ensures ok { (from : Beginning) (edge : EdgeState) (text : Bytes)
        → ServesOn from edge (N.noted notice.old) core.old streams.old at text
        → OnOk result (Serves from edge (N.noted notice.new) core.new streams.new) }
    ensures err { (from : Beginning) (edge : EdgeState) (text : Bytes)
        → ServesOn from edge (N.noted notice.old) core.old streams.old at text
        → OnErr result (Ended from edge (N.noted notice.new) core.new.switch) }
    ensures gave { (from : Beginning) (edge : EdgeState) (text : Bytes)
        → ServesOn from edge (N.noted notice.old) core.old streams.old at text
        → (place : Place) → result ≡ Ok (Came.Broken place)
        → GaveUp from.edge.polled edge.polled place }
    ensures gives { IfOk result
        (λ came. HearsOut at (bytes_of streams.old) (broken_by came) (bytes_of streams.new)) }
    ensures due { IfErr result (λ cause. HasDue core.new.switch cause) }
{
    let mut broken = false;
    match hear_all(core, streams, notice, at, &mut broken) {
        Ok(()) => Ok(came_of(at, broken)),
        Err(cause) => Err(cause),
    }
}

fn came_of(at: Place, broken: bool) -> Came
    ensures { result ≡ (if broken then Came.Broken at else Came.Bytes at) }
{
    if broken {
        Came::Broken(at)
    } else {
        Came::Bytes(at)
    }
}
