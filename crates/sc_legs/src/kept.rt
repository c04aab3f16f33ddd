//! The proxied requests that an application session keeps.

ghost use Rattle.std.specs.Prelude.{◌≡◌, OnOk};
ghost use Rattle.sc_hosts.specs.Branches.{without_search};
ghost use Rattle.sc_hosts.specs.PreparingResponses.{change_proxy};

use sc_branches::stopped;
use sc_effects::ProxyNumbered;
use sc_pages::{Change, Scope};
use sc_state::{Known, Proxy};
use sc_value::{NoMemory, ReqId};

// A proxied request that is stopped.
#[derive(Clone, Copy)]
struct Stopping;

impl Change<Proxy> for Stopping {
    ghost changed = { λ _. without_search };

    fn change(&self, proxy: &mut Proxy) -> Result<(), NoMemory> {
        stopped(proxy);
        Ok(())
    }
}

/// Stops the proxy of a request: no further target, and a CANCEL to each open branch.
pub fn stop_proxy(known: &mut Known, req: ReqId) -> Result<(), NoMemory>
    ensures { OnOk result (known.new ≡ change_proxy req without_search known.old) }
{
    let numbered = ProxyNumbered { req };
    known
        .proxies
        .change_first(Scope::Number(req.0), &numbered, &Stopping)
}
