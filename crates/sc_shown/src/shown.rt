ghost use Rattle.std.specs.Prelude.{◌≡◌, ◌∷◌, [], None, Some, if◌then◌else◌, IfOk};
ghost use Rattle.sc_state.specs.declared.orders.Order.{Order};
ghost use Rattle.sc_hosts.specs.Looking.{is_gone_in};

use sc_looking::is_gone_in;
use sc_state::Order;
use sc_terms::{Event, View};
use sc_value::{List, NoMemory, ReqId, Response, SessId, Shared};
use std::alloc::Global;

/// What a turn shows beside its session.
#[derive(Drop)]
pub struct Shown {
    /// What is shown, None where nobody is called.
    pub event: Option<Event>,
    /// The received request that the event is about.
    pub req: Option<ReqId>,
    /// What the container answers by itself.
    pub orders: List<Order>,
}

/// Nobody is called.
pub fn silent(orders: List<Order>) -> Shown
    ensures { result ≡ record { event = None; req = None; orders = orders } }
{
    Shown {
        event: None,
        req: None,
        orders,
    }
}

/// This event is shown.
pub fn showing(event: Event, req: Option<ReqId>, orders: List<Order>) -> Shown
    ensures { result ≡ record { event = Some event; req = req; orders = orders } }
{
    Shown {
        event: Some(event),
        req,
        orders,
    }
}

/// This event is shown where its SipSession is there.
pub fn showing_in(
    view: &View,
    sess: SessId,
    event: Event,
    req: Option<ReqId>,
    orders: List<Order>,
) -> Shown
    ensures { result
        ≡ record {
          event = if is_gone_in view.entry.now sess then None else Some event;
          req = req;
          orders = orders;
        } }
{
    let event = if is_gone_in(view, sess) {
        None
    } else {
        Some(event)
    };
    Shown { event, req, orders }
}

/// One response, by the server transaction of this event.
pub fn one_response(alloc: Global, event: u64, response: Response) -> Result<List<Order>, NoMemory>
    ensures { IfOk result (λ l. l ≡ Order.Respond event response ∷ []) }
{
    let response = Shared::new(alloc, response)?;
    let mut orders = List::new(alloc);
    orders.push(Order::Respond { event, response })?;
    Ok(orders)
}
