//! The lines of a table's text.

ghost use Rattle.std.specs.Prelude.{◌≡◌, ◌≤◌, ◌<◌, ◌+◌, ◌++◌, ◌∷◌, IfOk, length};
ghost use Rattle.sc_tokens.specs.Hosts.{begins};
ghost use Rattle.sc_dar.specs.Lines.{is_comment, lines, rows, without_cr};

use crate::cuts::{cut, drop_blanks, ends, without_last};
use sc_ascii::begins;
use sc_value::{NoMemory, Text};
use std::alloc::Global;

// The first line of a text: what it is joined from, in two pieces, and what follows it.
#[derive(Drop)]
pub struct FirstLine<'a> {
    pub front: Text,
    pub last: &'a [u8],
    // How many rows of the text it is.
    pub height: u64,
    pub rest: &'a [u8],
}

#[tactic(auto, unfolding(crate::specs::Lines::without_cr))]
fn without_cr(line: &[u8]) -> &[u8]
    ensures { result.now ≡ without_cr line.now }
{
    if ends(line, b'\r') {
        without_last(line)
    } else {
        line
    }
}

// The first row and what follows it.
#[tactic(auto, using(crate::proofs::Rows::row_first, crate::proofs::Rows::row_last))]
fn first_row(text: &[u8]) -> (&[u8], &[u8])
    requires { 0 < length text.now }
    ensures exact { rows text.now ≡ result.0.now ∷ rows result.1.now }
    ensures less { length result.1.now < length text.now }
{
    match cut(text, b'\n') {
        (row, Some(rest)) => (without_cr(row), rest),
        (row, None) => (row, &[]),
    }
}

// A row that ends with a backslash is joined with the next one, whose leading blanks are dropped.
#[tactic(auto, using(crate::proofs::Rows::goes_on, crate::proofs::Rows::stands_alone, crate::proofs::Rows::stands_last, crate::proofs::Rows::begun))]
pub fn first_line(alloc: Global, text: &[u8]) -> Result<FirstLine<'_>, NoMemory>
    requires { 0 < length text.now }
    ensures exact { IfOk result
        (λ l.
        lines text.now
        ≡ record { text = l.front ++ l.last.now; height = l.height } ∷ lines l.rest.now) }
    ensures less { IfOk result (λ l. l.height + length l.rest.now ≤ length text.now) }
    ensures some { IfOk result (λ l. 0 < l.height) }
{
    let (mut last, mut rest) = first_row(text);
    let mut front = Text::new(alloc);
    let mut above: u64 = 0;
    while ends(last, b'\\') && !rest.is_empty() {
        front.append(without_last(last))?;
        let (row, more) = first_row(rest);
        last = drop_blanks(row);
        rest = more;
        above += 1;
    }
    Ok(FirstLine {
        front,
        last,
        height: above + 1,
        rest,
    })
}

#[tactic(auto, unfolding(crate::specs::Lines::is_comment))]
pub fn is_comment(line: &[u8]) -> bool
    ensures { result ≡ is_comment line.now }
{
    let said = drop_blanks(line);
    said.is_empty() || begins(said, b'#') || begins(said, b'!')
}
