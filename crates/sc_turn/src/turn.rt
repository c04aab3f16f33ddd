ghost use Rattle.std.specs.Prelude.{◌≡◌, [], false, IfOk, IfErr};
ghost use Rattle.sc_hosts.specs.Scripting.{IsAnswered};
ghost use Rattle.sc_turn.specs.Working.{play_of, end_of};

use sc_effects::begun;
use sc_state::Play;
use sc_terms::{CallRecord, End, View};
use sc_value::{CloneIn, List, NoMemory, Shared};
use std::alloc::Global;
use std::marker::Model;

/// A turn in the hands of a servlet or a listener. A contract sees the view that was shown, the
/// calls with their answers, and whether a call wanted memory.
///
/// Of every turn it is known that each listed call has the answer that is right there.
#[derive(Drop)]
pub struct Turn {
    pub(crate) alloc: Global,
    pub(crate) shown: Shared<View>,
    pub(crate) play: Play,
    pub(crate) calls: List<CallRecord>,
    pub(crate) starved: bool,
}

impl Model for Turn {
    ghost use Rattle.sc_turn.specs.Working.{Working, IsWorking};

    ghost Value = { Working };

    ghost view = { λ t. record { shown = t.shown; calls = t.calls; starved = t.starved } };

    ghost invariant = { λ t. IsWorking t.shown t.play t.calls t.starved };
}

impl Turn {
    /// The view as the calls left it: at first that of the event. It counts unless a call wanted
    /// memory; the turn is then over.
    #[tactic(auto, unfolding(crate::specs::Working::play_of))]
    pub fn view(&self) -> &View
        ensures { self.now.starved ≡ false → result.now ≡ (play_of self.now).view }
    {
        &self.play.view
    }
}

impl Turn {
    /// A turn that shows this view. For want of memory the view is handed back.
    #[tactic(auto, using(crate::proofs::Listing::begins))]
    pub fn begin(alloc: Global, shown: Shared<View>) -> Result<Turn, Shared<View>>
        ensures ok { IfOk result (λ t. t ≡ record { shown = shown; calls = []; starved = false }) }
        ensures back { IfErr result (λ view. view ≡ shown) }
    {
        match shown.get().clone_in(alloc) {
            Ok(view) => Ok(Turn {
                alloc,
                shown,
                play: begun(alloc, view),
                calls: List::new(alloc),
                starved: false,
            }),
            Err(NoMemory) => Err(shown),
        }
    }

    /// What is left of the turn, which its servlet or listener ended so: the view that was shown,
    /// the calls, each with the answer that is right, and the end. For want of memory the end is
    /// `Starved`, whatever the servlet or listener said.
    #[tactic(auto, unfolding(crate::specs::Working::end_of))]
    pub fn finish(self, end: End) -> Called
        ensures shown { result.shown ≡ self.shown }
        ensures calls { result.calls ≡ self.calls }
        ensures end { result.end ≡ end_of self.starved end }
        ensures answered { IsAnswered self.shown self.calls }
    {
        let Turn {
            shown,
            play,
            calls,
            starved,
            ..
        } = self;
        drop(play);
        Called {
            shown,
            calls,
            end: if starved { End::Starved } else { end },
        }
    }
}

/// What is left of a turn.
#[derive(Drop)]
pub struct Called {
    pub shown: Shared<View>,
    pub calls: List<CallRecord>,
    pub end: End,
}
