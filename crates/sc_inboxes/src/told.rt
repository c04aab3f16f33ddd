ghost use Rattle.std.specs.Prelude.{◌≡◌, Some, None, IfOk};
ghost use Rattle.sc_value.specs.declared.message.Message.{Message};

use sc_state::{Peer, Reply};
use sc_value::{Message, NoMemory, Request, Response, Shared};
use std::alloc::Global;

/// What a host answers at once where it took something.
#[derive(Drop)]
pub struct Told {
    pub reply: Option<Reply>,
    /// How many events were queued since the container began.
    pub count: u64,
}

/// No answer.
pub fn quiet(count: u64) -> Told
    ensures { result ≡ record { reply = None; count = count } }
{
    Told { reply: None, count }
}

/// The same with this message.
pub fn replying(peer: Peer, message: Message, told: Told) -> Told
    ensures { result ≡ record told { reply = Some (record { peer = peer; message = message }) } }
{
    Told {
        reply: Some(Reply { peer, message }),
        count: told.count,
    }
}

/// The same with this response.
pub fn answering(
    alloc: Global,
    peer: Peer,
    response: Response,
    told: Told,
) -> Result<Told, NoMemory>
    ensures { IfOk result
        (λ t.
        t
        ≡ record told {
          reply = Some (record { peer = peer; message = Message.Response response });
        }) }
{
    let response = Shared::new(alloc, response)?;
    Ok(replying(peer, Message::Response(response), told))
}

/// The same with this request.
pub fn asking(alloc: Global, peer: Peer, request: Request, told: Told) -> Result<Told, NoMemory>
    ensures { IfOk result
        (λ t.
        t
        ≡ record told {
          reply = Some (record { peer = peer; message = Message.Request request });
        }) }
{
    let request = Shared::new(alloc, request)?;
    Ok(replying(peer, Message::Request(request), told))
}
