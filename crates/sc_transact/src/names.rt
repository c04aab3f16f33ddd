//! Whether a text is a name that the container drew. No name is written for it.

ghost use Rattle.std.specs.Prelude.{◌≡◌, ◌+◌, ◌^◌, ◌<◌, ℕ, false, length};
ghost use Rattle.std.specs.Option.{option_map_or};
ghost use Rattle.sc_tokens.specs.Names.{same_bytes};
ghost use Rattle.sc_value.specs.declared.ids.AppId.{AppId};
ghost use Rattle.sc_model.specs.Names.{branch_text, counted_text, mark_text, ap_value};
ghost use Rattle.sc_transact.specs.Named.{is_named};

use itoa::Buffer;
use sc_names::{read_ap, read_branch};
use sc_state::is_same_app;
use sc_value::AppId;

fn is_named(named: Option<(AppId, u64)>, app: AppId, branch: u64) -> bool
    ensures { result ≡ option_map_or (is_named app branch) named false }
{
    match named {
        Some((other, number)) => is_same_app(other, app) && number == branch,
        None => false,
    }
}

fn is_branch_of(text: &[u8], salt: &[u8], epoch: u32, host: u32, serial: u64, branch: u64) -> bool
    ensures { result
        ≡ same_bytes text.now
        (branch_text salt.now epoch (record { host = host; serial = serial }) branch) }
{
    is_named(
        read_branch(text, salt, epoch),
        AppId { host, serial },
        branch,
    )
}

/// Whether the text is the branch of this number.
pub fn is_branch_text(text: &[u8], salt: &[u8], epoch: u32, app: AppId, branch: u64) -> bool
    ensures { result ≡ same_bytes text.now (branch_text salt.now epoch app branch) }
{
    is_branch_of(text, salt, epoch, app.host, app.serial, branch)
}

/// Whether the text is the value of `ap` that names this session.
pub fn is_ap_value(text: &[u8], epoch: u32, app: AppId) -> bool
    ensures { result ≡ same_bytes (ap_value epoch app) text.now }
{
    match read_ap(text, epoch) {
        Some(named) => is_same_app(named, app),
        None => false,
    }
}

#[tactic(auto, unfolding(sc_model::specs::Names::mark_text))]
fn mark_len(salt: &[u8], epoch: u32) -> usize
    ensures len { result ≡ length (mark_text salt.now epoch) }
    ensures short { result + 8 < 2 ^ 64 }
{
    if epoch == 0 {
        return salt.len();
    }
    let mut buffer = Buffer::new();
    salt.len() + 1 + buffer.format(epoch).len()
}

/// What stands in a branch of this salt and epoch for the session and the number.
#[tactic(auto, using(crate::proofs::BranchTexts::counted_then, crate::proofs::BranchTexts::counted_else))]
pub fn counted_part<'a>(text: &'a [u8], salt: &[u8], epoch: u32) -> &'a [u8]
    ensures { (app : AppId) (branch : ℕ) → text.now ≡ branch_text salt.now epoch app branch
        → result.now ≡ counted_text app branch }
{
    let start = mark_len(salt, epoch) + 8;
    if start <= text.len() {
        &text[start..]
    } else {
        b""
    }
}
