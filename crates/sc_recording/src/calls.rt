//! The calls of a turn.

ghost use Rattle.std.specs.Prelude.{◌≡◌, ◌++◌, codes, IfOk, OnOk};
ghost use Rattle.sc_recording.specs.CallTexts.{acting_on, ask_text, call_line, call_text, calls_text, create_in_dialog_word, create_request_word, decimal_text, directive_text, flag_text, flags_text, given_text, inside_text, integer_text, number_or, numbered_or, options_text, origin_of, period_text, routed_text, set_attribute_word, set_ready_flag_word, target_text, text_with_length, uri_or, uris_text};

use crate::answers::put_answer;
use crate::forms::{Form, put_items};
use crate::parts::{
    put_acting, put_address_part, put_contacts, put_fields, put_flag, put_number, put_request_or,
    put_signed_number, put_sized, put_uri_or, put_uri_part, put_uris,
};
use crate::words;
use sc_terms::{Answer, Ask, Call, CallRecord, Inside, Period, ProxyOptions, Target};
use sc_uri_text::put_byte;
use sc_value::{Directive, List, NoMemory, ReqId, Text, Uri};
use std::alloc::Global;

/// The lines of the calls of a turn, in their order: of each its name, its arguments and what it
/// answered.
#[tactic(auto, unfolding(crate::specs::CallTexts::calls_text))]
pub fn calls_text(alloc: Global, calls: &List<CallRecord>) -> Result<Text, NoMemory>
    ensures { IfOk result (λ text. text ≡ calls_text calls.now) }
{
    let mut text = Text::new(alloc);
    put_items::<CallRecord, CallLine>(alloc, calls.as_slice(), &mut text)?;
    Ok(text)
}

/// The line of a call.
struct CallLine;

impl Form<CallRecord> for CallLine {
    ghost form = { call_line };

    #[tactic(auto, unfolding(crate::specs::CallTexts::call_line))]
    fn put(alloc: Global, item: &CallRecord, out: &mut Text) -> Result<(), NoMemory> {
        put_call(alloc, &item.call, out)?;
        put_answer(item.answer, out)?;
        put_byte(b'\n', out)
    }
}

#[tactic(auto, unfolding(crate::specs::CallTexts::call_text))]
fn put_call(alloc: Global, call: &Call, out: &mut Text) -> Result<(), NoMemory>
    ensures { OnOk result (out.new ≡ out.old ++ call_text call.now) }
{
    match call {
        Call::Respond { req, answer } => put_given(alloc, b"respond", req.0, answer, out),
        Call::CreateRequest { ask } => put_ask(alloc, ask, out),
        Call::CreateInDialog { sess, ask } => put_inside(alloc, sess.0, ask, out),
        Call::B2bCreate { req, uri } => put_leg(alloc, req.0, uri, out),
        Call::SetDirective {
            draft,
            directive,
            origin,
        } => put_directed(*draft, *directive, *origin, out),
        Call::Send { draft } => put_acting(b"send", *draft, out),
        Call::Discard { draft } => put_acting(b"discard", *draft, out),
        Call::Ack { sess, body } => put_ack(sess.0, body, out),
        Call::Cancel { req } => put_acting(b"cancel", req.0, out),
        Call::ProxyTo {
            req,
            targets,
            options,
        } => put_proxied(alloc, req.0, targets, *options, out),
        Call::ProxyCancel { req } => put_acting(b"proxy_cancel", req.0, out),
        Call::B2bRespond { sess, answer } => put_given(
            alloc,
            words::b2b_respond(),
            sess.0,
            answer,
            out,
        ),
        Call::Link { a, b } => put_link(a.0, b.0, out),
        Call::Unlink { a } => put_acting(b"unlink", a.0, out),
        Call::StartTimer {
            delay_ms,
            period,
            info,
        } => put_timer(*delay_ms, *period, info, out),
        Call::CancelTimer { id } => put_acting(b"cancel_timer", id.0, out),
        Call::SetAttribute { name, value } => put_attribute(name, value, out),
        Call::RemoveAttribute { name } => put_removed(name, out),
        Call::SetExpires { minutes } => put_expires(*minutes, out),
        Call::SetReadyFlag { target, flag } => put_ready(*target, *flag, out),
        Call::InvalidateSession { sess } => put_acting(words::invalidate_session(), sess.0, out),
        Call::InvalidateApplication => out.append(words::invalidate_application()),
    }
}

#[tactic(auto, unfolding(crate::specs::CallTexts::given_text))]
fn put_given(
    alloc: Global,
    name: &[u8],
    n: u32,
    answer: &Answer,
    out: &mut Text,
) -> Result<(), NoMemory>
    ensures { OnOk result (out.new ≡ out.old ++ (acting_on name.now n ++ given_text answer.now)) }
{
    put_acting(name, n, out)?;
    put_number(u64::from(answer.code), out)?;
    put_sized(answer.reason.as_bytes(), out)?;
    put_fields(alloc, answer.fields.as_slice(), out)?;
    put_contacts(alloc, answer.contact.as_slice(), out)?;
    put_sized(answer.body.as_bytes(), out)
}

#[tactic(auto, unfolding(crate::specs::CallTexts::ask_text))]
fn put_ask(alloc: Global, ask: &Ask, out: &mut Text) -> Result<(), NoMemory>
    ensures { OnOk result (out.new ≡ out.old ++ (create_request_word ++ ask_text ask.now)) }
{
    out.append(words::create_request())?;
    put_sized(ask.method.as_bytes(), out)?;
    put_routed(alloc, ask, out)?;
    put_fields(alloc, ask.fields.as_slice(), out)?;
    put_contacts(alloc, ask.contact.as_slice(), out)?;
    put_sized(ask.body.as_bytes(), out)
}

#[tactic(auto, unfolding(crate::specs::CallTexts::routed_text, crate::specs::CallTexts::origin_of, crate::specs::CallTexts::uri_part))]
fn put_routed(alloc: Global, ask: &Ask, out: &mut Text) -> Result<(), NoMemory>
    ensures { OnOk result (out.new ≡ out.old ++ routed_text ask.now) }
{
    put_uri_part(alloc, &ask.uri, out)?;
    put_address_part(alloc, &ask.from, out)?;
    put_address_part(alloc, &ask.to, out)?;
    put_directive(ask.directive, out)?;
    put_request_or(ask.origin, out)
}

#[tactic(auto, unfolding(crate::specs::CallTexts::inside_text))]
fn put_inside(alloc: Global, sess: u32, ask: &Inside, out: &mut Text) -> Result<(), NoMemory>
    ensures { OnOk result
        (out.new ≡ out.old ++ (acting_on create_in_dialog_word sess ++ inside_text ask.now)) }
{
    put_acting(words::create_in_dialog(), sess, out)?;
    put_sized(ask.method.as_bytes(), out)?;
    put_fields(alloc, ask.fields.as_slice(), out)?;
    put_sized(ask.body.as_bytes(), out)
}

fn put_leg(alloc: Global, req: u32, uri: &Option<Uri>, out: &mut Text) -> Result<(), NoMemory>
    ensures { OnOk result
        (out.new ≡ out.old ++ (acting_on (codes "b2b_create") req ++ uri_or uri.now)) }
{
    put_acting(b"b2b_create", req, out)?;
    put_uri_or(alloc, uri, out)
}

fn put_directed(
    draft: u32,
    directive: Directive,
    origin: Option<ReqId>,
    out: &mut Text,
) -> Result<(), NoMemory>
    ensures { OnOk result
        (out.new
        ≡ out.old
        ++ (acting_on (codes "set_directive") draft ++ directive_text directive
        ++ numbered_or (number_or origin))) }
{
    put_acting(b"set_directive", draft, out)?;
    put_directive(directive, out)?;
    put_request_or(origin, out)
}

#[tactic(auto, unfolding(crate::specs::CallTexts::directive_text))]
fn put_directive(directive: Directive, out: &mut Text) -> Result<(), NoMemory>
    ensures { OnOk result (out.new ≡ out.old ++ directive_text directive) }
{
    match directive {
        Directive::New => out.append(b" new"),
        Directive::Continue => out.append(b" continue"),
        Directive::Reverse => out.append(b" reverse"),
    }
}

fn put_ack(sess: u32, body: &Text, out: &mut Text) -> Result<(), NoMemory>
    ensures { OnOk result
        (out.new ≡ out.old ++ (acting_on (codes "ack") sess ++ text_with_length body.now)) }
{
    put_acting(b"ack", sess, out)?;
    put_sized(body.as_bytes(), out)
}

fn put_proxied(
    alloc: Global,
    req: u32,
    targets: &List<Uri>,
    options: ProxyOptions,
    out: &mut Text,
) -> Result<(), NoMemory>
    ensures { OnOk result
        (out.new
        ≡ out.old
        ++ (acting_on (codes "proxy_to") req ++ options_text options
        ++ uris_text targets.now)) }
{
    put_acting(b"proxy_to", req, out)?;
    put_options(options, out)?;
    put_uris(alloc, targets.as_slice(), out)
}

#[tactic(auto, unfolding(crate::specs::CallTexts::options_text))]
fn put_options(options: ProxyOptions, out: &mut Text) -> Result<(), NoMemory>
    ensures { OnOk result (out.new ≡ out.old ++ options_text options) }
{
    put_flags(options, out)?;
    put_number(u64::from(options.timeout), out)
}

#[tactic(auto, unfolding(crate::specs::CallTexts::flags_text))]
fn put_flags(options: ProxyOptions, out: &mut Text) -> Result<(), NoMemory>
    ensures { OnOk result (out.new ≡ out.old ++ flags_text options) }
{
    put_flag(options.parallel, out)?;
    put_flag(options.recurse, out)?;
    put_flag(options.supervised, out)?;
    put_flag(options.record_route, out)
}

fn put_link(a: u32, b: u32, out: &mut Text) -> Result<(), NoMemory>
    ensures { OnOk result (out.new ≡ out.old ++ (acting_on (codes "link") a ++ decimal_text b)) }
{
    put_acting(b"link", a, out)?;
    put_number(u64::from(b), out)
}

fn put_timer(delay: u32, period: Period, info: &Text, out: &mut Text) -> Result<(), NoMemory>
    ensures { OnOk result
        (out.new
        ≡ out.old
        ++ (acting_on (codes "start_timer") delay ++ period_text period ++ text_with_length info.now)) }
{
    put_acting(b"start_timer", delay, out)?;
    put_period(period, out)?;
    put_sized(info.as_bytes(), out)
}

#[tactic(auto, unfolding(crate::specs::CallTexts::period_text, crate::specs::CallTexts::acting_on))]
fn put_period(period: Period, out: &mut Text) -> Result<(), NoMemory>
    ensures { OnOk result (out.new ≡ out.old ++ period_text period) }
{
    match period {
        Period::Once => out.append(b" once"),
        Period::Rate(ms) => put_acting(b" rate", ms, out),
        Period::Delay(ms) => put_acting(b" delay", ms, out),
    }
}

fn put_attribute(name: &Text, value: &Text, out: &mut Text) -> Result<(), NoMemory>
    ensures { OnOk result
        (out.new ≡ out.old ++ (set_attribute_word ++ text_with_length name.now ++ text_with_length value.now)) }
{
    out.append(words::set_attribute())?;
    put_sized(name.as_bytes(), out)?;
    put_sized(value.as_bytes(), out)
}

fn put_removed(name: &Text, out: &mut Text) -> Result<(), NoMemory>
    ensures { OnOk result
        (out.new ≡ out.old ++ (codes "remove_attribute" ++ text_with_length name.now)) }
{
    out.append(b"remove_attribute")?;
    put_sized(name.as_bytes(), out)
}

fn put_expires(minutes: i32, out: &mut Text) -> Result<(), NoMemory>
    ensures { OnOk result (out.new ≡ out.old ++ (codes "set_expires" ++ integer_text minutes)) }
{
    out.append(b"set_expires")?;
    put_signed_number(minutes, out)
}

fn put_ready(target: Target, flag: bool, out: &mut Text) -> Result<(), NoMemory>
    ensures { OnOk result
        (out.new ≡ out.old ++ (set_ready_flag_word ++ target_text target ++ flag_text flag)) }
{
    out.append(words::set_ready_flag())?;
    put_target(target, out)?;
    put_flag(flag, out)
}

#[tactic(auto, unfolding(crate::specs::CallTexts::target_text, crate::specs::CallTexts::acting_on))]
fn put_target(target: Target, out: &mut Text) -> Result<(), NoMemory>
    ensures { OnOk result (out.new ≡ out.old ++ target_text target) }
{
    match target {
        Target::Application => out.append(b" application"),
        Target::Session(sess) => put_acting(b" session", sess.0, out),
    }
}
