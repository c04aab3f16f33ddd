ghost use Rattle.std.specs.Prelude.{◌≡◌, ◌++◌, ◌+◌, ◌-◌, ◌*◌, ◌≤◌, IfOk, OnOk, OnErr};
ghost use Rattle.std.specs.List.{flat_map, range_with_len};
ghost use Rattle.sc_model.specs.Generated.{ack_of, bye_of, call_text, generated_text, invite_of, run_line, tick_line};

use crate::lines::{put_arrival, put_end, put_run, put_tick};
use crate::messages::{ack_of, bye_of, invite_of};
use sc_value::{NoMemory, Text};
use std::alloc::Global;

/// Puts the script of n calls at the end of a text: for each call an INVITE, its answer by a timer,
/// the ACK and the BYE, and two seconds on the clock; after the last one `end`. The script's
/// messages suit a container that listens at 127.0.0.1:5060 with the salt `s1`.
///
/// n is 1 to 1,000. For want of memory the text is as before.
pub fn script(alloc: Global, n: u32, out: &mut Text) -> Result<(), NoMemory>
    requires least { 1 ≤ n }
    requires most { n ≤ 1000 }
    ensures ok { OnOk result (out.new ≡ out.old ++ generated_text n) }
    ensures err { OnErr result (out.new ≡ out.old) }
{
    let whole = script_of(alloc, n)?;
    out.append(whole.as_bytes())
}

/// The script of n calls.
#[tactic(auto, unfolding(sc_model::specs::Generated::generated_text))]
fn script_of(alloc: Global, n: u32) -> Result<Text, NoMemory>
    requires { n ≤ 1000 }
    ensures { IfOk result (λ t. t ≡ generated_text n) }
{
    let mut text = calls(alloc, n)?;
    put_end(&mut text)?;
    Ok(text)
}

fn calls(alloc: Global, n: u32) -> Result<Text, NoMemory>
    requires { n ≤ 1000 }
    ensures { IfOk result (λ t. t ≡ flat_map call_text (range_with_len 1 n)) }
{
    let mut text = Text::new(alloc);
    for i in 0..n {
        put_call(alloc, u64::from(i) + 1, &mut text)?;
    }
    Ok(text)
}

#[tactic(auto, unfolding(sc_model::specs::Generated::call_text))]
fn put_call(alloc: Global, i: u64, out: &mut Text) -> Result<(), NoMemory>
    requires least { 1 ≤ i }
    requires most { i ≤ 1000 }
    ensures { OnOk result (out.new ≡ out.old ++ call_text i) }
{
    let invite = invite_of(alloc, i)?;
    put_arrival(alloc, invite, out)?;
    put_timer(2000 * i - 1000, out)?;
    let ack = ack_of(alloc, i)?;
    put_arrival(alloc, ack, out)?;
    let bye = bye_of(alloc, i)?;
    put_arrival(alloc, bye, out)?;
    put_tick(2000 * i, out)
}

/// The clock goes on to the moment at which the call is answered.
fn put_timer(now: u64, out: &mut Text) -> Result<(), NoMemory>
    ensures { OnOk result (out.new ≡ out.old ++ (tick_line now ++ run_line)) }
{
    put_tick(now, out)?;
    put_run(out)
}
