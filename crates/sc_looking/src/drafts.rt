//! The drafts of a turn, by their numbers.

ghost use Rattle.std.specs.Prelude.{◌≡◌, ◌==◌, position};
ghost use Rattle.std.specs.List.{find};
ghost use Rattle.std.specs.Option.{option_copied};
ghost use Rattle.sc_hosts.specs.RefusalParts.{draft_in};

use sc_state::{Draft, Play};

/// The place of the draft of this number.
pub fn draft_place(drafts: &[Draft], number: u32) -> Option<usize>
    ensures { result ≡ position (λ draft. draft.number == number) drafts.now }
{
    drafts.iter().position(|draft| draft.number == number)
}

#[tactic(auto, using(sc_value::proofs::ListFacts::find_position, sc_value::proofs::ListFacts::find_none))]
fn draft_among(drafts: &[Draft], number: u32) -> Option<&Draft>
    ensures { option_copied result ≡ find (λ draft. draft.number == number) drafts.now }
{
    match draft_place(drafts, number) {
        Some(at) => Some(&drafts[at]),
        None => None,
    }
}

/// The draft of this number, where it is neither sent nor discarded.
pub fn draft_in(play: &Play, number: u32) -> Option<&Draft>
    ensures { option_copied result ≡ draft_in play.now number }
{
    draft_among(play.drafts.as_slice(), number)
}
