use crate::{LimitedSink, Stream, room_of};
use sc_edge::OutSink;
use std::rt::Files;

/// The standard output of this runtime, up to the limit on the size of a file ([`room_of`]).
pub fn output<R: Files + Print>(rt: &R) -> LimitedSink<OutSink<'_, R>> {
    LimitedSink::new(OutSink::new(rt), room_of(rt, Stream::Output))
}
