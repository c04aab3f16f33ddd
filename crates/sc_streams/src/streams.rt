//! What is kept of each place's stream.

ghost use Rattle.std.specs.Prelude.{◌≡◌, ◌<◌, ◌++◌, [], length, position, OnOk, Some, None};
ghost use Rattle.sc_value.specs.declared.ids.Place.{Place};
ghost use Rattle.sc_value.specs.Places.{same_place};
ghost use Rattle.sc_runs.specs.Following.{IsKept};
ghost use Rattle.sc_stream.specs.Hearing.{Hears};
ghost use Rattle.sc_streams.specs.Streaming.{bytes_of, is_at, is_elsewhere};
ghost use Rattle.sc_stream.specs.declared.streams.Heard.{Heard};
ghost use Rattle.sc_value.specs.declared.message.Message.{Message};

use sc_stream::{Heard, Stream, fronts_stay};
use sc_value::{List, NoMemory, Place, same_place};
use std::alloc::Global;
use std::marker::Model;

/// The stream of a place, from which the messages were taken.
#[derive(Drop)]
pub struct Pending {
    pub place: Place,
    pub stream: Stream,
}

/// The streams of the places that gave bytes and weren't lost since.
#[derive(Drop)]
pub struct Streams {
    pending: List<Pending>,
}

impl Model for Streams {
    ghost use Rattle.std.specs.Prelude.{List};
    ghost use Rattle.sc_streams.specs.declared.streams.Pending.{Pending};

    ghost Value = { List Pending };

    ghost view = { λ s. s.pending };
}

impl Streams {
    /// No place has a stream. It takes no memory.
    pub fn new(alloc: Global) -> Streams
        ensures { result ≡ [] }
    {
        Streams {
            pending: List::new(alloc),
        }
    }

    /// Bytes came from a place. They come behind what is kept of it.
    pub fn feed(&mut self, alloc: Global, place: Place, text: &[u8]) -> Result<(), NoMemory>
        ensures { OnOk result
            (IsKept (bytes_of self.old) place (bytes_of self.old place ++ text.now)
            (bytes_of self.new)) }
    {
        match place_of(self.pending.as_slice(), place) {
            Some(at) => feed_at(&mut self.pending.items, place, at, text),
            None => feed_new(alloc, &mut self.pending, place, text),
        }
    }

    /// The next message of a place's stream, which is taken from it, as [`Stream::next`].
    pub fn next(&mut self, place: Place) -> Heard
        ensures hears { Hears result (bytes_of self.old place) (bytes_of self.new place) }
        ensures kept { IsKept (bytes_of self.old) place (bytes_of self.new place)
            (bytes_of self.new) }
        ensures less { (message : Message) → result ≡ Heard.Message message
            → length (bytes_of self.new place) < length (bytes_of self.old place) }
    {
        next_in(&mut self.pending.items, place)
    }

    /// Drops what is kept of a place.
    pub fn drop_of(&mut self, place: Place)
        ensures { IsKept (bytes_of self.old) place [] (bytes_of self.new) }
    {
        drop_in(&mut self.pending.items, place);
    }
}

/// The place in the list of a place's stream.
fn place_of(streams: &[Pending], place: Place) -> Option<usize>
    ensures { result ≡ position (is_at place) streams.now }
{
    streams
        .iter()
        .position(|pending| same_place(place, pending.place))
}

#[tactic(auto, unfolding(crate::specs::Streaming::is_elsewhere))]
fn is_elsewhere(place: Place, pending: &Pending) -> bool
    ensures { result ≡ is_elsewhere place pending.now }
{
    !same_place(place, pending.place)
}

fn feed_at(streams: &mut [Pending], place: Place, at: usize, text: &[u8]) -> Result<(), NoMemory>
    requires { position (is_at place) streams.old ≡ Some at }
    ensures { OnOk result
        (IsKept (bytes_of streams.old) place (bytes_of streams.old place ++ text.now)
        (bytes_of streams.new)) }
{
    streams[at].stream.feed(text)
}

fn feed_new(
    alloc: Global,
    streams: &mut List<Pending>,
    place: Place,
    text: &[u8],
) -> Result<(), NoMemory>
    requires { position (is_at place) streams.old ≡ None }
    ensures { OnOk result
        (IsKept (bytes_of streams.old) place (bytes_of streams.old place ++ text.now)
        (bytes_of streams.new)) }
{
    let mut stream = Stream::new(alloc);
    match stream.feed(text) {
        Ok(()) => add_stream(streams, Pending { place, stream }),
        Err(NoMemory) => Err(NoMemory),
    }
}

fn add_stream(streams: &mut List<Pending>, pending: Pending) -> Result<(), NoMemory>
    requires { position (is_at pending.place) streams.old ≡ None }
    ensures { OnOk result
        (IsKept (bytes_of streams.old) pending.place pending.stream (bytes_of streams.new)) }
{
    streams.push(pending)?;
    Ok(())
}

fn next_in(streams: &mut [Pending], place: Place) -> Heard
    ensures hears { Hears result (bytes_of streams.old place) (bytes_of streams.new place) }
    ensures kept { IsKept (bytes_of streams.old) place (bytes_of streams.new place)
        (bytes_of streams.new) }
    ensures less { (message : Message) → result ≡ Heard.Message message
        → length (bytes_of streams.new place) < length (bytes_of streams.old place) }
{
    match place_of(streams, place) {
        Some(at) => next_at(streams, place, at),
        None => Heard::NotYet,
    }
}

fn next_at(streams: &mut [Pending], place: Place, at: usize) -> Heard
    requires { position (is_at place) streams.old ≡ Some at }
    ensures hears { Hears result (bytes_of streams.old place) (bytes_of streams.new place) }
    ensures kept { IsKept (bytes_of streams.old) place (bytes_of streams.new place)
        (bytes_of streams.new) }
    ensures less { (message : Message) → result ≡ Heard.Message message
        → length (bytes_of streams.new place) < length (bytes_of streams.old place) }
{
    fronts_stay();
    streams[at].stream.next()
}

fn drop_in(streams: &mut Vec<Pending>, place: Place)
    ensures { IsKept (bytes_of streams.old.items) place [] (bytes_of streams.new.items) }
{
    streams.retain(|pending| is_elsewhere(place, pending));
}
