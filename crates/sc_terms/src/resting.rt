//! Requests that rest: the walks of a turn find nothing to do with them.

ghost use Rattle.std.specs.Prelude.{◌≡◌};
ghost use Rattle.sc_tokens.specs.Names.{same_bytes};
ghost use Rattle.sc_terms.specs.Resting.{ack_word, is_resting};

use crate::RequestView;
use sc_pages::Paged;

fn is_ack(method: &[u8]) -> bool
    ensures { result ≡ same_bytes method.now ack_word }
{
    method == b"ACK".as_slice()
}

#[tactic(auto, unfolding(crate::specs::Resting::is_resting))]
fn is_resting(request: &RequestView) -> bool
    ensures { result ≡ is_resting request.now }
{
    !request.initial
        && request.answered.is_none()
        && request.branches == 0
        && request.unacked.is_empty()
        && !is_ack(request.method.as_bytes())
}

impl Paged for RequestView {
    ghost number = { λ request. request.id.0 };

    ghost rests = { λ request. is_resting request };

    fn number(&self) -> u32 {
        self.id.0
    }

    fn rests(&self) -> bool {
        is_resting(self)
    }
}
