//! All kinds of applications that every container comes with, under their names.

ghost use Rattle.std.specs.Prelude.{◌≡◌};
ghost use Rattle.sc_kinds.specs.BuiltIns.{charter_of};

use crate::built_in::BuiltIn;
use sc_apps::{Answers, B2bs, Blocks, Dials, Forks, Forwards, Records, Reverses, Rings};
use sc_notifies::Notifies;
use sc_offers::Offers;
use sc_refreshes::Refreshes;
use sc_servlets::SipServlet;
use sc_terms::{Charter, End, Event};
use sc_turn::Turn;

impl BuiltIn {
    /// All of them, in the order in which they are told.
    pub fn all() -> [BuiltIn; 12] {
        [
            BuiltIn::Answer,
            BuiltIn::Block,
            BuiltIn::Forward,
            BuiltIn::Fork,
            BuiltIn::Recorder,
            BuiltIn::B2b,
            BuiltIn::Dial,
            BuiltIn::Reverse,
            BuiltIn::Ringer,
            BuiltIn::Early,
            BuiltIn::Timed,
            BuiltIn::Notify,
        ]
    }

    /// The name by which a configuration asks for it.
    pub fn name(self) -> &'static [u8] {
        match self {
            BuiltIn::Answer => b"answer",
            BuiltIn::Block => b"block",
            BuiltIn::Forward => b"forward",
            BuiltIn::Fork => b"fork",
            BuiltIn::Recorder => b"recorder",
            BuiltIn::B2b => b"b2b",
            BuiltIn::Dial => b"dial",
            BuiltIn::Reverse => b"reverse",
            BuiltIn::Ringer => b"ringer",
            BuiltIn::Early => b"early",
            BuiltIn::Timed => b"timed",
            BuiltIn::Notify => b"notify",
        }
    }

    /// Whether [`ExtendsOnce`](sc_apps::ExtendsOnce) listens for it.
    pub fn is_extended(self) -> bool {
        match self {
            BuiltIn::Ringer => true,
            _ => false,
        }
    }
}

impl SipServlet for BuiltIn {
    ghost stated = { λ kind. charter_of kind };

    #[tactic(auto, unfolding(crate::specs::BuiltIns::charter_of))]
    fn charter(&self) -> Charter {
        match self {
            BuiltIn::Answer => Charter::Answer,
            BuiltIn::Block => Charter::Block,
            BuiltIn::Forward => Charter::Forward,
            BuiltIn::Fork => Charter::Fork,
            BuiltIn::Recorder => Charter::Recorder,
            BuiltIn::B2b => Charter::B2b,
            BuiltIn::Dial => Charter::Dial,
            BuiltIn::Reverse => Charter::Reverse,
            BuiltIn::Ringer => Charter::Ringer,
            BuiltIn::Early => Charter::Early,
            BuiltIn::Timed => Charter::Timed,
            BuiltIn::Notify => Charter::Notify,
        }
    }

    fn is_short(&self) -> bool {
        true
    }

    #[tactic(auto, unfolding(crate::specs::BuiltIns::charter_of))]
    fn turn(&self, t: &mut Turn, e: &Event) -> End {
        match self {
            BuiltIn::Answer => Answers.turn(t, e),
            BuiltIn::Block => Blocks.turn(t, e),
            BuiltIn::Forward => Forwards.turn(t, e),
            BuiltIn::Fork => Forks.turn(t, e),
            BuiltIn::Recorder => Records.turn(t, e),
            BuiltIn::B2b => B2bs.turn(t, e),
            BuiltIn::Dial => Dials.turn(t, e),
            BuiltIn::Reverse => Reverses.turn(t, e),
            BuiltIn::Ringer => Rings.turn(t, e),
            BuiltIn::Early => Offers.turn(t, e),
            BuiltIn::Timed => Refreshes.turn(t, e),
            BuiltIn::Notify => Notifies.turn(t, e),
        }
    }
}
