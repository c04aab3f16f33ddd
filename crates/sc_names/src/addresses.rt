//! The text of addresses and of places outside.

ghost use Rattle.std.specs.Prelude.{◌≡◌, ◌++◌, ◌∷◌, [], decimal, true, IfOk, OnOk};
ghost use Rattle.sc_tokens.specs.Hosts.{is_host};
ghost use Rattle.sc_model.specs.Records.{ip_text, place_text};

use sc_value::{NoMemory, Place, Text, write_u64};
use std::alloc::Global;

/// The text of an address, `a.b.c.d`, which is a host (RFC 3261 section 25.1). The one error is
/// want of memory.
#[tactic(auto, using(sc_model::proofs::HostFacts::ip_is_host))]
pub fn ip_text(alloc: Global, ip: [u8; 4]) -> Result<Text, NoMemory>
    ensures exact { IfOk result (λ t. t ≡ ip_text ip) }
    ensures host { IfOk result (λ t. is_host t ≡ true) }
{
    let mut text = Text::new(alloc);
    put_ip(ip, &mut text)?;
    Ok(text)
}

/// Appends the text of a place: `cN` for the connection N that a peer opened, and `a.b.c.d:port`
/// for an address. For want of memory `out` may hold a part of it.
#[tactic(auto, unfolding(sc_model::specs::Records::place_text))]
pub fn put_place(place: Place, out: &mut Text) -> Result<(), NoMemory>
    ensures { OnOk result (out.new ≡ out.old ++ place_text place) }
{
    match place {
        Place::Back(number) => {
            out.push(b'c')?;
            write_u64(number, out)
        }
        Place::To(ip, port) => {
            put_ip(ip, out)?;
            out.push(b':')?;
            write_u64(u64::from(port), out)
        }
    }
}

/// Appends the text of an address, `a.b.c.d`. For want of memory `out` may hold a part of it.
#[tactic(auto, unfolding(sc_model::specs::Records::ip_text))]
pub fn put_ip(ip: [u8; 4], out: &mut Text) -> Result<(), NoMemory>
    ensures { OnOk result (out.new ≡ out.old ++ ip_text ip) }
{
    put_pair(ip[0], ip[1], out)?;
    out.push(b'.')?;
    put_pair(ip[2], ip[3], out)
}

// `a.b`
fn put_pair(a: u8, b: u8, out: &mut Text) -> Result<(), NoMemory>
    ensures { OnOk result (out.new ≡ out.old ++ (decimal a ++ 46 ∷ [] ++ decimal b)) }
{
    write_u64(u64::from(a), out)?;
    out.push(b'.')?;
    write_u64(u64::from(b), out)
}
