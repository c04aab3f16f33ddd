//! Readers of names. They take no memory.

ghost use Rattle.std.specs.Prelude.{◌≡◌, ◌==◌, ◌++◌, ◌∷◌, [], ℕ, Some, decimal, position, ⊤};
ghost use Rattle.std.specs.Option.{option_copied, option_map};
ghost use Rattle.sc_model.specs.Names.{mark_text, counted_text, tag_text, branch_cookie, branch_text, app_text, ap_value, ar_value, region_letter};
ghost use Rattle.sc_names.specs.Reading.{Is32, Is64, IsApp, IsCounted, IsRead, Lacks, pair_text, two_with_sign};

use itoa::Buffer;
use sc_value::{AppId, Region};

/// The session and the number of a branch of this salt and epoch; None exactly where the bytes are
/// the branch of no host of 32 bits with serial and number of 64.
pub fn read_branch(b: &[u8], salt: &[u8], epoch: u32) -> Option<(AppId, u64)>
    ensures { IsRead (λ p. branch_text salt.now epoch p.0 p.1) IsCounted b.now result }
{
    let tag = after_cookie(b)?;
    read_tag(tag, salt, epoch)
}

/// The session that a value of `ap` of this epoch names; None exactly where the bytes name none of
/// a host of 32 bits with a serial of 64.
pub fn read_ap(b: &[u8], epoch: u32) -> Option<AppId>
    ensures { IsRead (ap_value epoch) IsApp b.now result }
{
    if epoch == 0 {
        return read_app(b);
    }
    let app = before_epoch(b, epoch)?;
    read_app(app)
}

/// The place in the router's list and the region that a value of `ar` names; None exactly where
/// the bytes name none with a place of 32 bits.
pub fn read_ar(b: &[u8]) -> Option<(u32, Region)>
    ensures { IsRead (λ p. ar_value p.0 p.1) (λ p. Is32 p.0) b.now result }
{
    let (place, letter) = cut(b, b'-')?;
    let n = read_u32(place)?;
    let region = read_region(letter)?;
    Some((n, region))
}

fn read_tag(bytes: &[u8], salt: &[u8], epoch: u32) -> Option<(AppId, u64)>
    ensures { IsRead (λ p. tag_text salt.now epoch p.0 p.1) IsCounted bytes.now result }
{
    let rest = after_mark(bytes, salt, epoch)?;
    let counted = after(rest, b"-")?;
    read_counted(counted)
}

// `h-s-k`
fn read_counted(bytes: &[u8]) -> Option<(AppId, u64)>
    ensures { IsRead (λ p. counted_text p.0 p.1) IsCounted bytes.now result }
{
    let (host, rest) = cut(bytes, b'-')?;
    let host = read_u32(host)?;
    let (serial, k) = read_pair(rest)?;
    Some((AppId { host, serial }, k))
}

// `h-s`
fn read_app(bytes: &[u8]) -> Option<AppId>
    ensures { IsRead app_text IsApp bytes.now result }
{
    let (host, serial) = cut(bytes, b'-')?;
    let host = read_u32(host)?;
    let serial = read_number(serial)?;
    Some(AppId { host, serial })
}

// Two numbers with `-` between them.
fn read_pair(bytes: &[u8]) -> Option<(u64, u64)>
    ensures { IsRead pair_text (λ p. Is64 p.0 × Is64 p.1) bytes.now result }
{
    let (first, second) = cut(bytes, b'-')?;
    let first = read_number(first)?;
    let second = read_number(second)?;
    Some((first, second))
}

fn read_region(bytes: &[u8]) -> Option<Region>
    ensures { IsRead (λ r. region_letter r ∷ []) (λ _. ⊤) bytes.now result }
{
    match bytes {
        [b'O'] => Some(Region::Originating),
        [b'T'] => Some(Region::Terminating),
        [b'N'] => Some(Region::Neutral),
        _ => None,
    }
}

fn read_u32(bytes: &[u8]) -> Option<u32>
    ensures { IsRead decimal Is32 bytes.now result }
{
    let number = read_number(bytes)?;
    u32::try_from(number).ok()
}

// A decimal without sign and leading zeros: the one that is written so.
fn read_number(bytes: &[u8]) -> Option<u64>
    ensures { IsRead decimal Is64 bytes.now result }
{
    let number = parsed(bytes)?;
    let mut buffer = Buffer::new();
    if buffer.format(number).as_bytes() == bytes {
        Some(number)
    } else {
        None
    }
}

// What a number's decimal is read as.
fn parsed(bytes: &[u8]) -> Option<u64>
    ensures { (n : ℕ) → Is64 n → bytes.now ≡ decimal n → result ≡ Some n }
{
    let text = match std::str::from_utf8(bytes) {
        Ok(text) => text,
        Err(_) => return None,
    };
    match text.parse::<u64>() {
        Ok(number) => Some(number),
        Err(_) => None,
    }
}

#[tactic(auto, unfolding(sc_model::specs::Names::branch_cookie))]
fn after_cookie(bytes: &[u8]) -> Option<&[u8]>
    ensures { IsRead (λ rest. branch_cookie ++ rest) (λ _. ⊤) bytes.now (option_copied result) }
{
    after(bytes, b"z9hG4bK")
}

// What follows the mark of an epoch.
fn after_mark<'a>(bytes: &'a [u8], salt: &[u8], epoch: u32) -> Option<&'a [u8]>
    ensures { IsRead (λ rest. mark_text salt.now epoch ++ rest) (λ _. ⊤) bytes.now
        (option_copied result) }
{
    let rest = after(bytes, salt)?;
    if epoch == 0 {
        return Some(rest);
    }
    let epoch_and_rest = after(rest, b".")?;
    after_decimal(epoch_and_rest, epoch)
}

// What stands before `.` and the epoch.
fn before_epoch(bytes: &[u8], epoch: u32) -> Option<&[u8]>
    ensures { IsRead (λ rest. rest ++ 46 ∷ decimal epoch) (λ _. ⊤) bytes.now
        (option_copied result) }
{
    let rest = before_decimal(bytes, epoch)?;
    before(rest, b".")
}

fn after_decimal(bytes: &[u8], n: u32) -> Option<&[u8]>
    ensures { IsRead (λ rest. decimal n ++ rest) (λ _. ⊤) bytes.now (option_copied result) }
{
    let mut buffer = Buffer::new();
    after(bytes, buffer.format(n).as_bytes())
}

fn before_decimal(bytes: &[u8], n: u32) -> Option<&[u8]>
    ensures { IsRead (λ rest. rest ++ decimal n) (λ _. ⊤) bytes.now (option_copied result) }
{
    let mut buffer = Buffer::new();
    before(bytes, buffer.format(n).as_bytes())
}

fn after<'a>(bytes: &'a [u8], prefix: &[u8]) -> Option<&'a [u8]>
    ensures { IsRead (λ rest. prefix.now ++ rest) (λ _. ⊤) bytes.now (option_copied result) }
{
    bytes.strip_prefix(prefix)
}

fn before<'a>(bytes: &'a [u8], suffix: &[u8]) -> Option<&'a [u8]>
    ensures { IsRead (λ rest. rest ++ suffix.now) (λ _. ⊤) bytes.now (option_copied result) }
{
    bytes.strip_suffix(suffix)
}

// What stands before the first such sign and what stands after it.
fn cut(bytes: &[u8], sign: u8) -> Option<(&[u8], &[u8])>
    ensures { IsRead (two_with_sign sign) (λ p. Lacks sign p.0) bytes.now
        (option_map (λ p. (p.0.now, p.1.now)) result) }
{
    let place = place_of(bytes, sign)?;
    Some((&bytes[..place], &bytes[place + 1..]))
}

// The first place of the sign.
fn place_of(bytes: &[u8], sign: u8) -> Option<usize>
    ensures { result ≡ position (λ b. b == sign) bytes.now }
{
    bytes.iter().position(|byte| *byte == sign)
}
