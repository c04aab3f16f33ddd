//! Puts what is left to a place.

ghost use Rattle.std.specs.Prelude.{◌≡◌, Some, List as Items, ℕ, position};
ghost use Rattle.sc_edge.specs.Edges.{CountsOn};
ghost use Rattle.sc_edge.specs.EdgeCalls.{IsNoPoll};
ghost use Rattle.sc_edge.specs.Faults.{Rose};
ghost use Rattle.sc_outs.specs.Owing.{Distinct, Tried, is_at};

use crate::entries::{place_of, take_at};
use crate::held::Held;
use sc_edge::{Edge, Put};
use sc_value::{List, Place};

/// Puts what is left of a place once. Where nothing is left, the edge isn't asked.
pub fn put_left<E: Edge>(edge: &mut E, outs: &mut List<Held>, place: Place) -> Put
    requires distinct { Distinct outs.old }
    ensures distinct { Distinct outs.new }
    ensures tried { (gone : Items ℕ)
        → Tried (E.state edge.old) (E.state edge.new) place
        (record { outs = outs.old; gone = gone }) (record { outs = outs.new; gone = gone })
        result }
    ensures later { CountsOn (E.state edge.old) (E.state edge.new) }
    ensures polled { IsNoPoll (E.state edge.old) (E.state edge.new) }
    ensures closes { (E.state edge.new).closes ≡ (E.state edge.old).closes }
    ensures failed { result ≡ Put.Failed
        → Rose ((E.state edge.old).faults_at place) ((E.state edge.new).faults_at place) }
{
    match place_of(outs.as_slice(), place) {
        Some(at) => put_at(edge, outs, place, at),
        None => Put::NotYet,
    }
}

fn put_at<E: Edge>(edge: &mut E, outs: &mut List<Held>, place: Place, at: usize) -> Put
    requires distinct { Distinct outs.old }
    requires at { position (is_at place) outs.old ≡ Some at }
    ensures distinct { Distinct outs.new }
    ensures tried { (gone : Items ℕ)
        → Tried (E.state edge.old) (E.state edge.new) place
        (record { outs = outs.old; gone = gone }) (record { outs = outs.new; gone = gone })
        result }
    ensures later { CountsOn (E.state edge.old) (E.state edge.new) }
    ensures polled { IsNoPoll (E.state edge.old) (E.state edge.new) }
    ensures closes { (E.state edge.new).closes ≡ (E.state edge.old).closes }
    ensures failed { result ≡ Put.Failed
        → Rose ((E.state edge.old).faults_at place) ((E.state edge.new).faults_at place) }
{
    let left = outs.as_slice()[at].left();
    if left.is_empty() {
        return Put::NotYet;
    }
    match edge.put(place, left) {
        Put::Wrote(count) => {
            take_at(outs, place, at, count);
            Put::Wrote(count)
        }
        Put::NotYet => Put::NotYet,
        Put::Failed => Put::Failed,
    }
}
