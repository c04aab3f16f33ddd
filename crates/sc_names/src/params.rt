//! The parameters of own URIs (RFC 3261 sections 16.4 and 19.1.1). The one error of each call is
//! want of memory.

ghost use Rattle.std.specs.Prelude.{◌≡◌, IfOk};
ghost use Rattle.sc_model.specs.Names.{ar_value, loose_param, tcp_param};

use crate::writing::put_ar_value;
use sc_value::{NoMemory, Param, Region, Text};
use std::alloc::Global;

/// `transport=tcp`.
#[tactic(auto, unfolding(sc_model::specs::Names::tcp_param))]
pub fn tcp_param(alloc: Global) -> Result<Param, NoMemory>
    ensures { IfOk result (λ p. p ≡ tcp_param) }
{
    let name = Text::from_slice(alloc, b"transport")?;
    let value = Text::from_slice(alloc, b"tcp")?;
    Ok(Param {
        name,
        value: Some(value),
    })
}

/// `lr`, of a loose route.
#[tactic(auto, unfolding(sc_model::specs::Names::loose_param))]
pub fn loose_param(alloc: Global) -> Result<Param, NoMemory>
    ensures { IfOk result (λ p. p ≡ loose_param) }
{
    let name = Text::from_slice(alloc, b"lr")?;
    Ok(Param { name, value: None })
}

/// The value of an `ar` parameter: `n-R`, where `n` is the place in the router's list at which a
/// request goes on, and R the letter O, T or N of the region.
pub fn ar_value(alloc: Global, n: u32, region: Region) -> Result<Text, NoMemory>
    ensures { IfOk result (λ t. t ≡ ar_value n region) }
{
    let mut value = Text::new(alloc);
    put_ar_value(n, region, &mut value)?;
    Ok(value)
}
