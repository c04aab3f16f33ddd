//! The choice (RFC 3261 section 16.7, step 6).

ghost use Rattle.std.specs.Prelude.{◌≡◌, ◌==◌, ◌<◌, length, position, IfSome, is_none};
ghost use Rattle.sc_model.specs.BestResponses.{best_of, class_of, is_global, is_lowest};

use sc_value::{List, Response, Shared};

/// The place of the best response: that of the first 6xx, else of the first of the lowest class;
/// None exactly where the list is empty.
pub fn best(list: &List<Shared<Response>>) -> Option<usize>
    ensures best { result ≡ best_of list.now }
    ensures none { is_none result ≡ (length list.now == 0) }
    ensures below { IfSome result (λ place. place < length list.now) }
{
    best_place(list.as_slice())
}

#[tactic(auto, unfolding(sc_model::specs::BestResponses::best_of))]
fn best_place(responses: &[Shared<Response>]) -> Option<usize>
    ensures { result ≡ best_of responses.now }
{
    match first_global(responses) {
        Some(place) => Some(place),
        None => first_lowest(responses),
    }
}

fn first_global(responses: &[Shared<Response>]) -> Option<usize>
    ensures { result ≡ position is_global responses.now }
{
    responses
        .iter()
        .position(|response| class_of(response.get()) == 6)
}

fn first_lowest(responses: &[Shared<Response>]) -> Option<usize>
    ensures { result ≡ position (is_lowest responses.now) responses.now }
{
    responses
        .iter()
        .position(|response| is_lowest(responses, response.get()))
}

#[tactic(auto, unfolding(sc_model::specs::BestResponses::is_lowest))]
fn is_lowest(responses: &[Shared<Response>], response: &Response) -> bool
    ensures { result ≡ is_lowest responses.now response.now }
{
    let class = class_of(response);
    responses.iter().all(|other| class <= class_of(other.get()))
}

fn class_of(response: &Response) -> u16
    ensures { result ≡ class_of response.now }
{
    response.code / 100
}
