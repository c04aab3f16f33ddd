ghost use Rattle.std.specs.Prelude.{◌≡◌, ◌++◌, ◌+◌, decimal, IfOk, OnOk, OnErr};

use crate::{NoMemory, Text};
use itoa::Buffer;

/// Puts the decimal of a number at the end of a text, without leading zeros. For want of memory
/// the text is as before.
#[tactic(auto, using(crate::proofs::NumberLaws::digit_decimal))]
pub fn write_u64(n: u64, out: &mut Text) -> Result<(), NoMemory>
    ensures ok { OnOk result (out.new ≡ out.old ++ decimal n) }
    ensures err { OnErr result (out.new ≡ out.old) }
{
    if n < 10 {
        return out.push(b'0' + n as u8);
    }
    let mut buffer = Buffer::new();
    out.append(buffer.format(n).as_bytes())
}

/// Puts words at the end of a text, and the decimal of a number behind them. For want of memory the
/// words may stand there alone.
pub fn write_counted(words: &[u8], number: u64, out: &mut Text) -> Result<(), NoMemory>
    ensures { OnOk result (out.new ≡ out.old ++ words.now ++ decimal number) }
{
    out.append(words)?;
    write_u64(number, out)
}

/// The sum. A counter that would pass the greatest number of its type is answered as want of
/// memory: it would have to count as many things first.
pub fn sum(a: u64, b: u64) -> Result<u64, NoMemory>
    ensures { IfOk result (λ n. n ≡ a + b) }
{
    match a.checked_add(b) {
        Some(n) => Ok(n),
        None => Err(NoMemory),
    }
}

/// The sum of two smaller numbers, with the same answer past their greatest.
pub fn sum_u32(a: u32, b: u32) -> Result<u32, NoMemory>
    ensures { IfOk result (λ n. n ≡ a + b) }
{
    match a.checked_add(b) {
        Some(n) => Ok(n),
        None => Err(NoMemory),
    }
}

/// The sum of a small number and a count of things, with the same answer past the greatest number
/// of its type.
pub fn sum_u8(a: u8, count: usize) -> Result<u8, NoMemory>
    ensures { IfOk result (λ n. n ≡ a + count) }
{
    let Ok(more) = u8::try_from(count) else {
        return Err(NoMemory);
    };
    match a.checked_add(more) {
        Some(n) => Ok(n),
        None => Err(NoMemory),
    }
}

/// The number of a thing that follows so many others, with the same answer past the greatest.
pub fn number_after(count: usize) -> Result<u32, NoMemory>
    ensures { IfOk result (λ n. n ≡ count + 1) }
{
    match u32::try_from(count) {
        Ok(n) => sum_u32(n, 1),
        Err(_) => Err(NoMemory),
    }
}
