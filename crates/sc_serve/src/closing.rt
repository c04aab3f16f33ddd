//! Closing places that gave what is no message.

ghost use Rattle.sc_value.specs.declared.ids.Place.{Place};
ghost use Rattle.sc_edge.specs.Edges.{CountsOn, EdgeState};
ghost use Rattle.sc_runs.specs.Following.{Streams};
ghost use Rattle.sc_serve.specs.Closing.{Closes, ClosesAll, Rests};

use crate::watch::Watch;
use sc_edge::Edge;
use sc_outs::Outs;
use sc_value::{List, Place};

/// Closes the broken places to which nothing is left to be put. The others wait.
pub fn close_broken<E: Edge>(edge: &mut E, broken: &mut List<Place>, outs: &Outs, watch: &mut Watch)
    ensures rests { Rests (E.state edge.old) (E.state edge.new) }
    ensures later { CountsOn (E.state edge.old) (E.state edge.new) }
    ensures closes { (first : EdgeState) → Closes first (E.state edge.old) broken.old
        → Closes first (E.state edge.new) broken.new }
    ensures closes_all { (first : EdgeState) (streams : Streams)
        → ClosesAll first (E.state edge.old) streams broken.old
        → ClosesAll first (E.state edge.new) streams broken.new }
{
    for back in 0..broken.len() {
        close_at(edge, broken, outs, watch, back);
    }
}

/// Closes the broken place that is so far from the last one, where nothing is left to be put there.
fn close_at<E: Edge>(
    edge: &mut E,
    broken: &mut List<Place>,
    outs: &Outs,
    watch: &mut Watch,
    back: usize,
)
    ensures rests { Rests (E.state edge.old) (E.state edge.new) }
    ensures later { CountsOn (E.state edge.old) (E.state edge.new) }
    ensures closes { (first : EdgeState) → Closes first (E.state edge.old) broken.old
        → Closes first (E.state edge.new) broken.new }
    ensures closes_all { (first : EdgeState) (streams : Streams)
        → ClosesAll first (E.state edge.old) streams broken.old
        → ClosesAll first (E.state edge.new) streams broken.new }
{
    if back >= broken.len() {
        return;
    }
    let at = broken.len() - 1 - back;
    let place = broken.as_slice()[at];
    if outs.has_left(place) {
        return;
    }
    edge.close(place);
    watch.note_loss(place);
    broken.items.swap_remove(at);
}
