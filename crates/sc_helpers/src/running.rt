//! Which timers run and which attributes are set, read before the first call of a turn.

ghost use Rattle.std.specs.Prelude.{◌≡◌, is_some, position};
ghost use Rattle.std.specs.List.{find};
ghost use Rattle.std.specs.Option.{option_copied};
ghost use Rattle.sc_hosts.specs.Looking.{is_timer};
ghost use Rattle.sc_hosts.specs.Scripting.{attribute};
ghost use Rattle.sc_helpers.specs.Leading.{timer_named};

use sc_apps::attribute;
use sc_terms::{TimerView, View};
use sc_value::TimerId;

fn timer_place(timers: &[TimerView], number: u64) -> Option<usize>
    ensures { result ≡ position (is_timer (record { 0 = number })) timers.now }
{
    timers
        .iter()
        .position(|timer| u64::from(timer.id.0) == number)
}

#[tactic(auto, using(sc_value::proofs::ListFacts::find_position, sc_value::proofs::ListFacts::find_none))]
fn timer_among(timers: &[TimerView], number: u64) -> Option<&TimerView>
    ensures { option_copied result ≡ find (is_timer (record { 0 = number })) timers.now }
{
    match timer_place(timers, number) {
        Some(at) => Some(&timers[at]),
        None => None,
    }
}

/// The running timer of this number.
#[tactic(auto, unfolding(crate::specs::Leading::timer_named))]
pub fn timer_named(view: &View, number: u64) -> Option<TimerId>
    ensures { result ≡ timer_named view.entry.now number }
{
    match timer_among(view.timers.as_slice(), number) {
        Some(timer) => Some(timer.id),
        None => None,
    }
}

/// Whether an attribute is set.
pub fn has_attribute(view: &View, name: &[u8]) -> bool
    ensures { result ≡ is_some (attribute name.now view.entry.now) }
{
    attribute(view, name).is_some()
}
