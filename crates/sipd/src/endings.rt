//! How the program ends.

ghost use Rattle.std.specs.Prelude.{◌≡◌, ◌++◌, [], ◌∷◌, decimal, OnOk};
ghost use Rattle.sipd.specs.Endings.{exit_status, line_text, cause_text, program_word, config_word, dar_word, script_word};

use sc_replay::Status;
use sc_value::{NoMemory, Text, write_u64};

/// The exit status of the program.
#[tactic(auto, unfolding(crate::specs::Endings::exit_status))]
pub fn exit_status(status: &Status) -> u8
    ensures { result ≡ exit_status status.now }
{
    match status {
        Status::Done => 0,
        Status::Usage => 2,
        Status::Config { .. } => 3,
        Status::Dar { .. } => 4,
        Status::JournalFull => 5,
        Status::Edge => 6,
        Status::NoMemory => 7,
        Status::Script { .. } => 8,
        Status::Read => 9,
        Status::Write => 10,
    }
}

/// Appends the line on standard error, which is none where all was done.
#[tactic(auto, unfolding(crate::specs::Endings::line_text))]
pub fn write_line(status: &Status, out: &mut Text) -> Result<(), NoMemory>
    ensures { OnOk result (out.new ≡ out.old ++ line_text status.now) }
{
    if let Status::Done = status {
        return Ok(());
    }
    write_program(out)?;
    write_cause(status, out)?;
    out.append(b"\n")
}

#[tactic(auto, unfolding(crate::specs::Endings::program_word))]
fn write_program(out: &mut Text) -> Result<(), NoMemory>
    ensures { OnOk result (out.new ≡ out.old ++ program_word) }
{
    out.append(b"sipd: ")
}

#[tactic(auto, unfolding(crate::specs::Endings::cause_text))]
fn write_cause(status: &Status, out: &mut Text) -> Result<(), NoMemory>
    ensures { OnOk result (out.new ≡ out.old ++ cause_text status.now) }
{
    match status {
        Status::Done => Ok(()),
        Status::Usage => out.append(b"usage"),
        Status::Config { kind, key } => write_config(*kind, key, out),
        Status::Dar { line, kind } => write_dar(*line, *kind, out),
        Status::JournalFull => out.append(b"journal full"),
        Status::Edge => out.append(b"edge"),
        Status::NoMemory => out.append(b"no memory"),
        Status::Script { at, kind } => write_script(*at, *kind, out),
        Status::Read => out.append(b"read"),
        Status::Write => out.append(b"write"),
    }
}

#[tactic(auto, unfolding(crate::specs::Endings::config_word))]
fn write_config(kind: u8, key: &Text, out: &mut Text) -> Result<(), NoMemory>
    ensures { OnOk result
        (out.new ≡ out.old ++ (config_word ++ decimal kind ++ 32 ∷ [] ++ key.now)) }
{
    out.append(b"config ")?;
    write_u64(u64::from(kind), out)?;
    out.append(b" ")?;
    out.append(key.as_bytes())
}

#[tactic(auto, unfolding(crate::specs::Endings::dar_word))]
fn write_dar(line: u64, kind: u8, out: &mut Text) -> Result<(), NoMemory>
    ensures { OnOk result
        (out.new ≡ out.old ++ (dar_word ++ decimal line ++ 32 ∷ [] ++ decimal kind)) }
{
    out.append(b"dar ")?;
    write_u64(line, out)?;
    out.append(b" ")?;
    write_u64(u64::from(kind), out)
}

#[tactic(auto, unfolding(crate::specs::Endings::script_word))]
fn write_script(at: usize, kind: u8, out: &mut Text) -> Result<(), NoMemory>
    ensures { OnOk result
        (out.new ≡ out.old ++ (script_word ++ decimal at ++ 32 ∷ [] ++ decimal kind)) }
{
    out.append(b"script ")?;
    write_u64(at as u64, out)?;
    out.append(b" ")?;
    write_u64(u64::from(kind), out)
}
