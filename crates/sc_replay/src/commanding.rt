//! The command that the words of a command line are.

ghost use Rattle.std.specs.Prelude.{◌≡◌, ◌≤◌, IfSome, List, map, string_bytes, is_some, true};
ghost use Rattle.std.specs.Option.{option_map};
ghost use Rattle.sc_tokens.specs.Bytes.{Bytes};
ghost use Rattle.sc_replay.specs.Checking.{checked_names};
ghost use Rattle.sc_replay.specs.Making.{made_count};
ghost use Rattle.sc_replay.specs.Replaying.{IsReplay};
ghost use Rattle.sc_replay.specs.Trying.{tried_count};
ghost use Rattle.sc_tokens.specs.Names.{same_bytes};
ghost use Rattle.sc_replay.specs.Commands.{HasForm, IsNamed, command_of, count_after_name, count_behind, count_in, counted_command, scripted_command, settled_command, settled_names};
ghost use Rattle.sc_replay.specs.declared.commanding.Command.{Command};

use sc_script::decimal_upto;

/// A command of the program.
#[derive(Clone, Copy, Debug, PartialEq, Eq)]
pub enum Command {
    /// `replay CONFIG DAR SCRIPT`
    Replay,
    /// `check CONFIG DAR`
    Check,
    /// `make N`
    Make,
    /// `trial N`
    Trial,
    /// `serve CONFIG DAR`
    Serve,
    /// Any other words.
    Usage,
}

/// The command whose form the words have, and `Usage` exactly where they have none. N is a decimal
/// from 1 to 1,000 without leading zero; CONFIG, DAR and SCRIPT are any words.
#[tactic(auto, using(crate::proofs::FormLaws::form_named, crate::proofs::FormLaws::form_only))]
pub fn command_of(words: &[String]) -> Command
    ensures exact { result ≡ command_of (map string_bytes words.now) }
    ensures named { IsNamed result (map string_bytes words.now) }
    ensures only { (command : Command) → HasForm command (map string_bytes words.now)
        → result ≡ command }
{
    form_of(words)
}

/// `replay`, `check`, `make` and `trial` take exactly the words that are named so. The contract is
/// the law, and the call does nothing.
#[tactic(auto, using(crate::proofs::FormLaws::replay_taken, crate::proofs::FormLaws::replay_named, crate::proofs::FormLaws::check_taken, crate::proofs::FormLaws::check_named, crate::proofs::FormLaws::make_taken, crate::proofs::FormLaws::make_named, crate::proofs::FormLaws::trial_taken, crate::proofs::FormLaws::trial_named))]
pub fn commands_are_named()
    ensures replays { (words : List Bytes) → IsReplay words → command_of words ≡ Command.Replay }
    ensures replay { (words : List Bytes) → command_of words ≡ Command.Replay → IsReplay words }
    ensures checks { (words : List Bytes) → is_some (checked_names words) ≡ true
        → command_of words ≡ Command.Check }
    ensures check { (words : List Bytes) → command_of words ≡ Command.Check
        → is_some (checked_names words) ≡ true }
    ensures makes { (words : List Bytes) → is_some (made_count words) ≡ true
        → command_of words ≡ Command.Make }
    ensures make { (words : List Bytes) → command_of words ≡ Command.Make
        → is_some (made_count words) ≡ true }
    ensures trials { (words : List Bytes) → is_some (tried_count words) ≡ true
        → command_of words ≡ Command.Trial }
    ensures trial { (words : List Bytes) → command_of words ≡ Command.Trial
        → is_some (tried_count words) ≡ true }
{}

// The command by its first word and the number of words.
fn form_of(words: &[String]) -> Command
    ensures { result ≡ command_of (map string_bytes words.now) }
{
    match words {
        [word, count] => counted_command(word.as_bytes(), count.as_bytes()),
        [word, _, _] => settled_command(word.as_bytes()),
        [word, _, _, _] => scripted_command(word.as_bytes()),
        _ => Command::Usage,
    }
}

#[tactic(auto, unfolding(crate::specs::Commands::counted_command))]
fn counted_command(word: &[u8], count: &[u8]) -> Command
    ensures { result ≡ counted_command word.now count.now }
{
    if count_in(count).is_none() {
        return Command::Usage;
    }
    if is_word(word, b"make") {
        Command::Make
    } else if is_word(word, b"trial") {
        Command::Trial
    } else {
        Command::Usage
    }
}

#[tactic(auto, unfolding(crate::specs::Commands::settled_command))]
fn settled_command(word: &[u8]) -> Command
    ensures { result ≡ settled_command word.now }
{
    if is_word(word, b"check") {
        Command::Check
    } else if is_word(word, b"serve") {
        Command::Serve
    } else {
        Command::Usage
    }
}

#[tactic(auto, unfolding(crate::specs::Commands::scripted_command))]
fn scripted_command(word: &[u8]) -> Command
    ensures { result ≡ scripted_command word.now }
{
    if is_word(word, b"replay") {
        Command::Replay
    } else {
        Command::Usage
    }
}

/// The number N of a command, None exactly where the word is no decimal from 1 to 1,000 without
/// leading zero.
#[tactic(auto, unfolding(crate::specs::Commands::count_in))]
pub fn count_in(word: &[u8]) -> Option<u32>
    ensures exact { result ≡ count_in word.now }
    ensures least { IfSome result (λ n. 1 ≤ n) }
    ensures most { IfSome result (λ n. n ≤ 1000) }
{
    match decimal_upto(1000, word) {
        Some(count) if count >= 1 => Some(count as u32),
        _ => None,
    }
}

/// The N of the words `NAME N`, None exactly where the words aren't these.
pub fn counted(name: &[u8], words: &[String]) -> Option<u32>
    ensures exact { result ≡ count_after_name name.now (map string_bytes words.now) }
    ensures least { IfSome result (λ n. 1 ≤ n) }
    ensures most { IfSome result (λ n. n ≤ 1000) }
{
    let [word, count] = words else {
        return None;
    };
    count_behind(name, word.as_bytes(), count.as_bytes())
}

/// CONFIG and DAR of the words `NAME CONFIG DAR`, None exactly where the words aren't these.
pub fn settled_names<'a>(name: &[u8], words: &'a [String]) -> Option<(&'a String, &'a String)>
    ensures { option_map (λ p. (string_bytes p.0.now, string_bytes p.1.now)) result
        ≡ settled_names name.now (map string_bytes words.now) }
{
    let [word, config, dar] = words else {
        return None;
    };
    if is_word(word.as_bytes(), name) {
        Some((config, dar))
    } else {
        None
    }
}

fn count_behind(name: &[u8], word: &[u8], count: &[u8]) -> Option<u32>
    ensures exact { result ≡ count_behind name.now word.now count.now }
    ensures least { IfSome result (λ n. 1 ≤ n) }
    ensures most { IfSome result (λ n. n ≤ 1000) }
{
    if is_word(word, name) {
        count_in(count)
    } else {
        None
    }
}

/// Whether a word has these bytes.
fn is_word(word: &[u8], expected: &[u8]) -> bool
    ensures { result ≡ same_bytes word.now expected.now }
{
    word == expected
}
