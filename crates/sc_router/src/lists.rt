//! The list of a method in the routing table.

ghost use Rattle.std.specs.Prelude.{◌≡◌, position};
ghost use Rattle.std.specs.List.{find};
ghost use Rattle.std.specs.Option.{option_copied};
ghost use Rattle.sc_tokens.specs.Names.{same_bytes};
ghost use Rattle.sc_model.specs.Routing.{list_of};

use sc_terms::{Dar, MethodList};

/// The list of a method, None where the table has none.
#[tactic(auto, unfolding(sc_model::specs::Routing::list_of))]
pub fn list_of<'a>(dar: &'a Dar, method: &[u8]) -> Option<&'a MethodList>
    ensures { option_copied result ≡ list_of method.now dar.now }
{
    list_in(dar.lists.as_slice(), method)
}

#[tactic(auto, using(sc_value::proofs::ListFacts::find_position, sc_value::proofs::ListFacts::find_none))]
fn list_in<'a>(lists: &'a [MethodList], method: &[u8]) -> Option<&'a MethodList>
    ensures { option_copied result ≡ find (λ list. same_bytes list.method method.now) lists.now }
{
    match list_place(lists, method) {
        Some(at) => Some(&lists[at]),
        None => None,
    }
}

fn list_place(lists: &[MethodList], method: &[u8]) -> Option<usize>
    ensures { result ≡ position (λ list. same_bytes list.method method.now) lists.now }
{
    lists
        .iter()
        .position(|list| list.method.as_bytes() == method)
}
