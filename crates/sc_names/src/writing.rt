//! Names as text. The one error of each call is want of memory, and then the text is as before.

ghost use Rattle.std.specs.Prelude.{◌≡◌, ◌++◌, ◌∷◌, [], OnOk, OnErr};
ghost use Rattle.sc_grammar.specs.Written.{scheme, sip_uri_text};
ghost use Rattle.sc_model.specs.Names.{mark_text, counted_text, tag_text, branch_cookie, branch_text, call_id_text, edge_word, edge_tag as edge_tag_text, app_text, ap_value, ar_value, region_letter, own_uri, session_uri, return_uri};
ghost use Rattle.sc_model.specs.Records.{ip_text};
ghost use Rattle.sc_names.specs.OwnUris.{listen_text, fixed_params, named_value};

use crate::addresses::put_ip;
use sc_value::{AppId, NoMemory, Region, Text, write_u64};
use std::alloc::Global;

/// Puts the branch of this number at the end of a text: `z9hG4bK<mark>-h-s-k` (RFC 3261 section
/// 8.1.1.7). The mark is the salt, and from epoch 1 on the salt, `.` and the epoch.
#[tactic(auto, unfolding(sc_model::specs::Names::branch_text))]
pub fn branch(
    alloc: Global,
    salt: &Text,
    epoch: u32,
    app: AppId,
    k: u64,
    out: &mut Text,
) -> Result<(), NoMemory>
    ensures ok { OnOk result (out.new ≡ out.old ++ branch_text salt.now epoch app k) }
    ensures err { OnErr result (out.new ≡ out.old) }
{
    let mut text = Text::new(alloc);
    put_cookie(&mut text)?;
    put_tag(salt, epoch, app, k, &mut text)?;
    out.append_text(text)
}

/// Puts the tag of this number at the end of a text: `<mark>-h-s-k` (RFC 3261 section 19.3).
pub fn tag(
    alloc: Global,
    salt: &Text,
    epoch: u32,
    app: AppId,
    k: u64,
    out: &mut Text,
) -> Result<(), NoMemory>
    ensures ok { OnOk result (out.new ≡ out.old ++ tag_text salt.now epoch app k) }
    ensures err { OnErr result (out.new ≡ out.old) }
{
    let mut text = Text::new(alloc);
    put_tag(salt, epoch, app, k, &mut text)?;
    out.append_text(text)
}

/// Puts the Call-ID of this number at the end of a text: `<mark>-h-s-k@<host>`, where the host is
/// the address that the container listens on (RFC 3261 section 8.1.1.4).
#[tactic(auto, unfolding(sc_model::specs::Names::call_id_text))]
pub fn call_id(
    alloc: Global,
    salt: &Text,
    epoch: u32,
    ip: [u8; 4],
    app: AppId,
    k: u64,
    out: &mut Text,
) -> Result<(), NoMemory>
    ensures ok { OnOk result (out.new ≡ out.old ++ call_id_text salt.now epoch (ip_text ip) app k) }
    ensures err { OnErr result (out.new ≡ out.old) }
{
    let mut text = Text::new(alloc);
    put_tag(salt, epoch, app, k, &mut text)?;
    text.push(b'@')?;
    put_ip(ip, &mut text)?;
    out.append_text(text)
}

/// Puts the tag of an answer that no session gives at the end of a text: `<salt>-edge`, in every
/// epoch (RFC 3261 section 8.2.6.2).
#[tactic(auto, unfolding(sc_model::specs::Names::edge_tag))]
pub fn edge_tag(alloc: Global, salt: &Text, out: &mut Text) -> Result<(), NoMemory>
    ensures ok { OnOk result (out.new ≡ out.old ++ edge_tag_text salt.now) }
    ensures err { OnErr result (out.new ≡ out.old) }
{
    let mut text = Text::new(alloc);
    text.append(salt.as_bytes())?;
    put_edge_word(&mut text)?;
    out.append_text(text)
}

/// Puts the Record-Route and Contact URI of a session at the end of a text:
/// `sip:<ip>:<port>;transport=tcp;lr;ap=h-s`, from epoch 1 on with `.` and the epoch after it.
pub fn ap_uri(
    alloc: Global,
    ip: [u8; 4],
    port: u16,
    epoch: u32,
    app: AppId,
    out: &mut Text,
) -> Result<(), NoMemory>
    ensures ok { OnOk result
        (out.new ≡ out.old ++ sip_uri_text (session_uri (ip_text ip) port epoch app)) }
    ensures err { OnErr result (out.new ≡ out.old) }
{
    let mut text = Text::new(alloc);
    put_session_uri(alloc, ip, port, epoch, app, &mut text)?;
    out.append_text(text)
}

/// Puts the Route URI by which a request comes back to the router at the end of a text:
/// `sip:<ip>:<port>;transport=tcp;lr;ar=n-R`, where `n` is the place in the router's list at which
/// it goes on, and R the letter O, T or N of the region.
pub fn ar_uri(
    alloc: Global,
    ip: [u8; 4],
    port: u16,
    n: u32,
    region: Region,
    out: &mut Text,
) -> Result<(), NoMemory>
    ensures ok { OnOk result
        (out.new ≡ out.old ++ sip_uri_text (return_uri (ip_text ip) port n region)) }
    ensures err { OnErr result (out.new ≡ out.old) }
{
    let mut text = Text::new(alloc);
    put_return_uri(alloc, ip, port, n, region, &mut text)?;
    out.append_text(text)
}

#[tactic(auto, unfolding(sc_model::specs::Names::tag_text))]
fn put_tag(salt: &Text, epoch: u32, app: AppId, k: u64, out: &mut Text) -> Result<(), NoMemory>
    ensures { OnOk result (out.new ≡ out.old ++ tag_text salt.now epoch app k) }
{
    put_mark(salt, epoch, out)?;
    out.push(b'-')?;
    put_counted(app, k, out)
}

#[tactic(auto, unfolding(sc_model::specs::Names::mark_text))]
fn put_mark(salt: &Text, epoch: u32, out: &mut Text) -> Result<(), NoMemory>
    ensures { OnOk result (out.new ≡ out.old ++ mark_text salt.now epoch) }
{
    out.append(salt.as_bytes())?;
    if epoch == 0 {
        return Ok(());
    }
    out.push(b'.')?;
    write_u64(u64::from(epoch), out)
}

// `h-s-k`
#[tactic(auto, unfolding(sc_model::specs::Names::counted_text))]
fn put_counted(app: AppId, k: u64, out: &mut Text) -> Result<(), NoMemory>
    ensures { OnOk result (out.new ≡ out.old ++ counted_text app k) }
{
    write_u64(u64::from(app.host), out)?;
    out.push(b'-')?;
    write_u64(app.serial, out)?;
    out.push(b'-')?;
    write_u64(k, out)
}

#[tactic(auto, unfolding(sc_model::specs::Names::branch_cookie))]
fn put_cookie(out: &mut Text) -> Result<(), NoMemory>
    ensures { OnOk result (out.new ≡ out.old ++ branch_cookie) }
{
    out.append(b"z9hG4bK")
}

#[tactic(auto, unfolding(sc_model::specs::Names::edge_word))]
fn put_edge_word(out: &mut Text) -> Result<(), NoMemory>
    ensures { OnOk result (out.new ≡ out.old ++ edge_word) }
{
    out.append(b"-edge")
}

#[tactic(auto, unfolding(sc_model::specs::Names::session_uri, sc_model::specs::Names::ap_name))]
fn put_session_uri(
    alloc: Global,
    ip: [u8; 4],
    port: u16,
    epoch: u32,
    app: AppId,
    out: &mut Text,
) -> Result<(), NoMemory>
    ensures { OnOk result
        (out.new ≡ out.old ++ sip_uri_text (session_uri (ip_text ip) port epoch app)) }
{
    let mut value = Text::new(alloc);
    put_ap_value(epoch, app, &mut value)?;
    put_own_uri(ip, port, b"ap", value.as_bytes(), out)
}

#[tactic(auto, unfolding(sc_model::specs::Names::return_uri, sc_model::specs::Names::ar_name))]
fn put_return_uri(
    alloc: Global,
    ip: [u8; 4],
    port: u16,
    n: u32,
    region: Region,
    out: &mut Text,
) -> Result<(), NoMemory>
    ensures { OnOk result
        (out.new ≡ out.old ++ sip_uri_text (return_uri (ip_text ip) port n region)) }
{
    let mut value = Text::new(alloc);
    put_ar_value(n, region, &mut value)?;
    put_own_uri(ip, port, b"ar", value.as_bytes(), out)
}

/// Appends the value of an `ap` parameter: `h-s`, and behind a dot the epoch where it isn't 0. For
/// want of memory
/// `out` may hold a part of it.
#[tactic(auto, unfolding(sc_model::specs::Names::ap_value))]
pub fn put_ap_value(epoch: u32, app: AppId, out: &mut Text) -> Result<(), NoMemory>
    ensures { OnOk result (out.new ≡ out.old ++ ap_value epoch app) }
{
    put_app(app, out)?;
    if epoch == 0 {
        return Ok(());
    }
    out.push(b'.')?;
    write_u64(u64::from(epoch), out)
}

// `h-s`
#[tactic(auto, unfolding(sc_model::specs::Names::app_text))]
fn put_app(app: AppId, out: &mut Text) -> Result<(), NoMemory>
    ensures { OnOk result (out.new ≡ out.old ++ app_text app) }
{
    write_u64(u64::from(app.host), out)?;
    out.push(b'-')?;
    write_u64(app.serial, out)
}

#[tactic(auto, unfolding(sc_model::specs::Names::ar_value))]
pub fn put_ar_value(n: u32, region: Region, out: &mut Text) -> Result<(), NoMemory>
    ensures { OnOk result (out.new ≡ out.old ++ ar_value n region) }
{
    write_u64(u64::from(n), out)?;
    out.push(b'-')?;
    put_letter(region, out)
}

fn put_letter(region: Region, out: &mut Text) -> Result<(), NoMemory>
    ensures { OnOk result (out.new ≡ out.old ++ region_letter region ∷ []) }
{
    match region {
        Region::Originating => out.push(b'O'),
        Region::Terminating => out.push(b'T'),
        Region::Neutral => out.push(b'N'),
    }
}

#[tactic(auto, using(crate::proofs::OwnUriLaws::own_uri_is))]
fn put_own_uri(
    ip: [u8; 4],
    port: u16,
    name: &[u8],
    value: &[u8],
    out: &mut Text,
) -> Result<(), NoMemory>
    ensures { OnOk result
        (out.new ≡ out.old ++ sip_uri_text (own_uri (ip_text ip) port name.now value.now)) }
{
    put_pieces(ip, port, name, value, out)
}

fn put_pieces(
    ip: [u8; 4],
    port: u16,
    name: &[u8],
    value: &[u8],
    out: &mut Text,
) -> Result<(), NoMemory>
    ensures { OnOk result
        (out.new
        ≡ out.old
        ++ (listen_text (ip_text ip) port ++ fixed_params ++ named_value name.now value.now)) }
{
    put_listen(ip, port, out)?;
    put_fixed_params(out)?;
    put_named_value(name, value, out)
}

// `sip:host:port`
#[tactic(auto, unfolding(crate::specs::OwnUris::listen_text))]
fn put_listen(ip: [u8; 4], port: u16, out: &mut Text) -> Result<(), NoMemory>
    ensures { OnOk result (out.new ≡ out.old ++ listen_text (ip_text ip) port) }
{
    put_scheme(out)?;
    put_ip(ip, out)?;
    out.push(b':')?;
    write_u64(u64::from(port), out)
}

#[tactic(auto, unfolding(sc_grammar::specs::Written::scheme))]
fn put_scheme(out: &mut Text) -> Result<(), NoMemory>
    ensures { OnOk result (out.new ≡ out.old ++ scheme) }
{
    out.append(b"sip:")
}

// `;transport=tcp;lr`
#[tactic(auto, unfolding(crate::specs::OwnUris::fixed_params, sc_grammar::specs::Written::param_text, sc_grammar::specs::Written::signed_text, sc_model::specs::Names::tcp_param, sc_model::specs::Names::loose_param))]
fn put_fixed_params(out: &mut Text) -> Result<(), NoMemory>
    ensures { OnOk result (out.new ≡ out.old ++ fixed_params) }
{
    out.append(b";transport=tcp;lr")
}

// `;name=value`
#[tactic(auto, unfolding(crate::specs::OwnUris::named_value))]
fn put_named_value(name: &[u8], value: &[u8], out: &mut Text) -> Result<(), NoMemory>
    ensures { OnOk result (out.new ≡ out.old ++ named_value name.now value.now) }
{
    out.push(b';')?;
    out.append(name)?;
    out.push(b'=')?;
    out.append(value)
}
