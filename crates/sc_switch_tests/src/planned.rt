//! The servlet of a plan.

ghost use Rattle.std.specs.Prelude.{◌≡◌};
ghost use Rattle.sc_terms.specs.declared.charters.Charter.{Charter};

use crate::deeds::play;
use crate::plans::{Part, Plan, nothing};
use sc_servlets::SipServlet;
use sc_terms::{Charter, End, Event};
use sc_turn::Turn;
use sc_value::NoMemory;

/// The servlet that does what a plan says.
#[derive(Clone, Copy)]
pub struct Planned(pub Plan);

impl SipServlet for Planned {
    ghost stated = { λ _. Charter.Free };

    fn charter(&self) -> Charter {
        Charter::Free
    }

    #[tactic(auto, using(crate::proofs::Freedom::any_turn))]
    fn turn(&self, t: &mut Turn, e: &Event) -> End {
        play_part(t, part_at(self.0, e))
    }
}

fn part_at(plan: Plan, e: &Event) -> Part {
    match e {
        Event::Initial { .. } => plan.first(),
        Event::Request { .. } => plan.later(),
        Event::Response { response, .. } => plan.heard(response.get().code),
        _ => nothing(),
    }
}

fn play_part(t: &mut Turn, part: Part) -> End
    ensures same { t.new.shown ≡ t.old.shown }
{
    match play_all(t, part) {
        Ok(()) => part.end,
        Err(NoMemory) => End::Starved,
    }
}

fn play_all(t: &mut Turn, part: Part) -> Result<(), NoMemory>
    ensures same { t.new.shown ≡ t.old.shown }
{
    play(t, part.first)?;
    play(t, part.second)?;
    play(t, part.third)
}
