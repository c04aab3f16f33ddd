//! Proxies, and CANCEL.

ghost use Rattle.std.specs.Prelude.{◌≡◌, Some, IfOk, OnOk};
ghost use Rattle.sc_state.specs.declared.proxy.Proxy.{Proxy};
ghost use Rattle.sc_hosts.specs.Branches.{new_proxy, with_targets};
ghost use Rattle.sc_hosts.specs.PreparingResponses.{change_proxy};
ghost use Rattle.sc_hosts.specs.Preparing.{kept_of};
ghost use Rattle.sc_hosts.specs.Working.{cancels, event_of, proxies, proxies_first};

use sc_branches::{new_proxy, with_targets};
use sc_effects::{ProxyNumbered, kept_of, proxy_of};
use sc_pages::{Change, Scope};
use sc_state::{Kept, Known, Order, Proxy, Way, Working};
use sc_terms::ProxyOptions;
use sc_value::{NoMemory, ReqId, Uri};
use std::alloc::Global;

/// Cancels an INVITE that was sent, where it is kept.
#[tactic(auto, unfolding(sc_hosts::specs::Working::cancels, sc_hosts::specs::Working::sent_branch, sc_hosts::specs::Working::branch_of))]
pub fn cancels(working: &mut Working, req: ReqId) -> Result<(), NoMemory>
    ensures { OnOk result (working.new ≡ cancels (kept_of working.old.known req) working.old) }
{
    let Some(kept) = kept_of(&working.known, req) else {
        return Ok(());
    };
    match kept.way {
        Way::Sent { branch } => {
            working.orders.push(Order::Cancel { branch })?;
            Ok(())
        }
        Way::Received { .. } => Ok(()),
    }
}

// More targets of a proxied request.
#[derive(Clone, Copy)]
struct MoreTargets<'a> {
    alloc: Global,
    uris: &'a [Uri],
}

impl Change<Proxy> for MoreTargets<'_> {
    ghost changed = { λ p. with_targets p.uris.now };

    fn change(&self, proxy: &mut Proxy) -> Result<(), NoMemory> {
        with_targets(self.alloc, proxy, self.uris)
    }
}

fn add_targets(alloc: Global, known: &mut Known, req: ReqId, uris: &[Uri]) -> Result<(), NoMemory>
    ensures { OnOk result (known.new ≡ change_proxy req (with_targets uris.now) known.old) }
{
    let numbered = ProxyNumbered { req };
    let more = MoreTargets { alloc, uris };
    known
        .proxies
        .change_first(Scope::Number(req.0), &numbered, &more)
}

/// The number of the event of a request that came, 0 of another.
#[tactic(auto, unfolding(sc_hosts::specs::Working::event_of))]
pub fn event_of(way: Way) -> u64
    ensures { result ≡ event_of way }
{
    match way {
        Way::Received { event } => event,
        Way::Sent { .. } => 0,
    }
}

fn first_proxy(
    alloc: Global,
    req: ReqId,
    uris: &[Uri],
    how: ProxyOptions,
    kept: &Kept,
) -> Result<Proxy, NoMemory>
    ensures { IfOk result
        (λ proxy.
        proxy
        ≡ with_targets uris.now
        (new_proxy req kept.now.sess (event_of kept.now.way) kept.now.request (Some how))) }
{
    let event = event_of(kept.way);
    let mut proxy = new_proxy(alloc, req, kept.sess, event, &kept.request, Some(how))?;
    with_targets(alloc, &mut proxy, uris)?;
    Ok(proxy)
}

#[tactic(auto, unfolding(sc_hosts::specs::Working::proxies_first))]
fn proxies_first(
    alloc: Global,
    req: ReqId,
    uris: &[Uri],
    how: ProxyOptions,
    known: &mut Known,
) -> Result<(), NoMemory>
    ensures { OnOk result
        (known.new ≡ proxies_first req uris.now how (kept_of known.old req) known.old) }
{
    let Some(kept) = kept_of(known, req) else {
        return Ok(());
    };
    let proxy = first_proxy(alloc, req, uris, how, kept)?;
    known.proxies.push(proxy)?;
    Ok(())
}

/// Proxies a request to these targets. The options count where it wasn't proxied before.
#[tactic(auto, unfolding(sc_hosts::specs::Working::proxies))]
pub fn proxies(
    alloc: Global,
    req: ReqId,
    uris: &[Uri],
    how: ProxyOptions,
    known: &mut Known,
) -> Result<(), NoMemory>
    ensures { OnOk result (known.new ≡ proxies req uris.now how known.old) }
{
    if proxy_of(known, req).is_some() {
        return add_targets(alloc, known, req, uris);
    }
    proxies_first(alloc, req, uris, how, known)
}
