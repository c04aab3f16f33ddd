//! What is told of a session's interval, and when its timer fires (RFC 4028 sections 4, 7 and 9).

ghost use Rattle.std.specs.Prelude.{◌≡◌, ◌≤◌, ◌++◌, ◌∷◌, [], true, false, codes, decimal, IfOk};
ghost use Rattle.sc_hosts.specs.HelperParts.{field, require_word, supported_word};
ghost use Rattle.sc_hosts.specs.SessionTimers.{On, deadline, granted_fields, session_expires, timer_option};
ghost use Rattle.sc_refreshes.specs.Intervals.{granted_of};

use crate::intervals::Interval;
use sc_helpers::{field, numbered, one, two};
use sc_value::{Field, List, NoMemory};
use std::alloc::Global;

/// How many milliseconds after its start a session's timer fires: after half of the interval for
/// the side that refreshes, and for the other side a third of it, at most 32 seconds, before its
/// end (RFC 4028 sections 7.2 and 10).
#[tactic(auto, unfolding(sc_hosts::specs::SessionTimers::deadline))]
pub fn deadline(seconds: u32, me: bool) -> u32
    requires { seconds ≤ 4000000 }
    ensures { result ≡ deadline seconds me }
{
    if me {
        500 * seconds
    } else {
        1000 * (seconds - (seconds / 3).min(32))
    }
}

fn interval_field(alloc: Global, seconds: u32, refresher: &[u8]) -> Result<Field, NoMemory>
    ensures { IfOk result
        (λ made. made ≡ field session_expires (decimal seconds ++ refresher.now)) }
{
    let mut value = numbered(alloc, b"", u64::from(seconds))?;
    value.append(refresher)?;
    expires_field(alloc, value.as_bytes())
}

#[tactic(auto, unfolding(sc_hosts::specs::SessionTimers::session_expires))]
fn expires_field(alloc: Global, value: &[u8]) -> Result<Field, NoMemory>
    ensures { IfOk result (λ made. made ≡ field session_expires value.now) }
{
    field(alloc, b"Session-Expires", value)
}

#[tactic(auto, unfolding(sc_hosts::specs::HelperParts::require_word, sc_hosts::specs::SessionTimers::timer_option))]
fn require_timer(alloc: Global) -> Result<Field, NoMemory>
    ensures { IfOk result (λ made. made ≡ field require_word timer_option) }
{
    field(alloc, b"Require", b"timer")
}

#[tactic(auto, unfolding(sc_hosts::specs::HelperParts::supported_word, sc_hosts::specs::SessionTimers::timer_option))]
fn support_timer(alloc: Global) -> Result<Field, NoMemory>
    ensures { IfOk result (λ made. made ≡ field supported_word timer_option) }
{
    field(alloc, b"Supported", b"timer")
}

fn before_supported(alloc: Global, expires: Field) -> Result<List<Field>, NoMemory>
    ensures { IfOk result (λ fields. fields ≡ expires ∷ field supported_word timer_option ∷ []) }
{
    let supported = support_timer(alloc)?;
    two(alloc, expires, supported)
}

fn before_require(alloc: Global, expires: Field) -> Result<List<Field>, NoMemory>
    ensures { IfOk result (λ fields. fields ≡ expires ∷ field require_word timer_option ∷ []) }
{
    let require = require_timer(alloc)?;
    two(alloc, expires, require)
}

/// The fields of a request that refreshes a session.
pub fn refresh_fields(alloc: Global, seconds: u32) -> Result<List<Field>, NoMemory>
    ensures { IfOk result
        (λ fields.
        fields
        ≡ field session_expires (decimal seconds ++ codes ";refresher=uac")
        ∷ field supported_word timer_option ∷ []) }
{
    let expires = interval_field(alloc, seconds, b";refresher=uac")?;
    before_supported(alloc, expires)
}

#[tactic(auto, unfolding(sc_hosts::specs::SessionTimers::granted_fields))]
fn my_fields(alloc: Global, seconds: u32) -> Result<List<Field>, NoMemory>
    ensures { IfOk result (λ fields. fields ≡ granted_fields (On seconds true)) }
{
    let expires = interval_field(alloc, seconds, b";refresher=uas")?;
    one(alloc, expires)
}

#[tactic(auto, unfolding(sc_hosts::specs::SessionTimers::granted_fields))]
fn peer_fields(alloc: Global, seconds: u32) -> Result<List<Field>, NoMemory>
    ensures { IfOk result (λ fields. fields ≡ granted_fields (On seconds false)) }
{
    let expires = interval_field(alloc, seconds, b";refresher=uac")?;
    before_require(alloc, expires)
}

/// The fields of a 200 that tell which interval a session gets.
#[tactic(auto, unfolding(sc_hosts::specs::SessionTimers::granted_fields, crate::specs::Intervals::granted_of))]
pub fn granted_fields(alloc: Global, interval: Interval) -> Result<List<Field>, NoMemory>
    ensures { IfOk result (λ fields. fields ≡ granted_fields (granted_of interval)) }
{
    match interval {
        Interval::Off => Ok(List::new(alloc)),
        Interval::TooSmall => Ok(List::new(alloc)),
        Interval::On(seconds, true) => my_fields(alloc, seconds),
        Interval::On(seconds, false) => peer_fields(alloc, seconds),
    }
}
