//! Calls in short.

use crate::answers::write_answer;
use sc_terms::{Answer, Call, CallRecord, ProxyOptions, Target};
use sc_value::{Directive, NoMemory, ReqId, SessId, Text, TimerId, write_counted, write_u64};

/// Appends a call with its answer in short.
pub fn write_record(record: &CallRecord, out: &mut Text) -> Result<(), NoMemory> {
    write_call(&record.call, out)?;
    write_answer(record.answer, out)
}

fn write_call(call: &Call, out: &mut Text) -> Result<(), NoMemory> {
    match call {
        Call::Respond { answer, .. } => write_response(b"respond ", answer, out),
        Call::B2bRespond { answer, .. } => write_response(b"b2b_respond ", answer, out),
        Call::CreateRequest { ask } => write_named(b"create_request ", &ask.method, out),
        Call::CreateInDialog { ask, .. } => write_named(b"create_in_dialog ", &ask.method, out),
        Call::B2bCreate { .. } => out.append(b"b2b_create"),
        Call::SetDirective {
            draft,
            directive,
            ..
        } => write_directive(*draft, *directive, out),
        Call::Send { draft } => write_counted(b"send ", u64::from(*draft), out),
        Call::Discard { draft } => write_counted(b"discard ", u64::from(*draft), out),
        Call::Ack { .. } => out.append(b"ack"),
        Call::Cancel { req } => write_on_request(b"cancel ", *req, out),
        Call::ProxyTo {
            targets,
            options,
            ..
        } => write_proxy(targets.len(), *options, out),
        Call::ProxyCancel { req } => write_on_request(b"proxy_cancel ", *req, out),
        other => write_session_call(other, out),
    }
}

fn write_session_call(call: &Call, out: &mut Text) -> Result<(), NoMemory> {
    match call {
        Call::Link { a, b } => write_link(*a, *b, out),
        Call::Unlink { a } => write_on_session(b"unlink ", *a, out),
        Call::StartTimer { delay_ms, .. } => write_start(*delay_ms, out),
        Call::CancelTimer { id } => write_on_timer(b"cancel_timer ", *id, out),
        Call::SetAttribute { name, .. } => write_named(b"set_attribute ", name, out),
        Call::RemoveAttribute { name } => write_named(b"remove_attribute ", name, out),
        Call::SetExpires { minutes } => write_expires(*minutes, out),
        Call::SetReadyFlag { target, flag } => write_flag(*target, *flag, out),
        Call::InvalidateSession { sess } => write_on_session(b"invalidate_session ", *sess, out),
        Call::InvalidateApplication => out.append(b"invalidate_application"),
        _ => Ok(()),
    }
}

fn write_response(name: &[u8], answer: &Answer, out: &mut Text) -> Result<(), NoMemory> {
    out.append(name)?;
    write_u64(u64::from(answer.code), out)?;
    out.append(b" ")?;
    out.append(answer.reason.as_bytes())
}

fn write_named(name: &[u8], what: &Text, out: &mut Text) -> Result<(), NoMemory> {
    out.append(name)?;
    out.append(what.as_bytes())
}

fn write_on_request(name: &[u8], req: ReqId, out: &mut Text) -> Result<(), NoMemory> {
    write_counted(name, u64::from(req.0), out)
}

fn write_on_session(name: &[u8], sess: SessId, out: &mut Text) -> Result<(), NoMemory> {
    write_counted(name, u64::from(sess.0), out)
}

fn write_on_timer(name: &[u8], id: TimerId, out: &mut Text) -> Result<(), NoMemory> {
    write_counted(name, u64::from(id.0), out)
}

fn write_directive(draft: u32, directive: Directive, out: &mut Text) -> Result<(), NoMemory> {
    write_counted(b"set_directive ", u64::from(draft), out)?;
    match directive {
        Directive::New => out.append(b" new"),
        Directive::Continue => out.append(b" continue"),
        Directive::Reverse => out.append(b" reverse"),
    }
}

fn write_proxy(targets: usize, options: ProxyOptions, out: &mut Text) -> Result<(), NoMemory> {
    out.append(b"proxy_to ")?;
    write_u64(targets as u64, out)?;
    if targets == 1 {
        out.append(b" target")?;
    } else if options.parallel {
        out.append(b" targets at once")?;
    } else {
        out.append(b" targets in turn")?;
    }
    write_options(options, out)
}

fn write_options(options: ProxyOptions, out: &mut Text) -> Result<(), NoMemory> {
    if options.recurse {
        out.append(b", recurse")?;
    }
    if options.record_route {
        out.append(b", record_route")?;
    }
    Ok(())
}

fn write_link(a: SessId, b: SessId, out: &mut Text) -> Result<(), NoMemory> {
    write_counted(b"link ", u64::from(a.0), out)?;
    write_counted(b" ", u64::from(b.0), out)
}

fn write_start(delay_ms: u32, out: &mut Text) -> Result<(), NoMemory> {
    write_counted(b"start_timer ", u64::from(delay_ms), out)?;
    out.append(b" ms")
}

fn write_expires(minutes: i32, out: &mut Text) -> Result<(), NoMemory> {
    match u32::try_from(minutes) {
        Ok(minutes) if minutes > 0 => write_counted(b"set_expires ", u64::from(minutes), out),
        _ => out.append(b"set_expires never"),
    }
}

fn write_flag(target: Target, flag: bool, out: &mut Text) -> Result<(), NoMemory> {
    match target {
        Target::Application => out.append(b"set_ready_flag")?,
        Target::Session(sess) => write_on_session(b"set_ready_flag ", sess, out)?,
    }
    if flag {
        out.append(b" on")
    } else {
        out.append(b" off")
    }
}
