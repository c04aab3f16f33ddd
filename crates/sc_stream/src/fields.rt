//! The header lines of a head, each with its long name and its value (RFC 3261 section 7.3).

ghost use Rattle.std.specs.Prelude.{◌≡◌, ◌++◌, ◌∷◌, [], IfOk, OnOk, Some, filter_map, length, ◌≤◌, ◌<◌, ◌^◌};
ghost use Rattle.std.specs.List.{position_or_len};
ghost use Rattle.std.specs.Option.{option_copied};
ghost use Rattle.sc_syntax.specs.Lines.{lines_behind};
ghost use Rattle.sc_syntax.specs.Folds.{text_without_folds};
ghost use Rattle.sc_syntax.specs.Fronts.{field_of, only, values_of};
ghost use Rattle.sc_stream.specs.Fields.{is_of, with_some};

use sc_message_text::{join, split_piece, trim, trim_back};
use sc_syntax::Ending;
use sc_uri_text::cut;
use sc_value::{Field, List, NoMemory, Text, is_token, long_name, same_name};
use std::alloc::Global;

// The fields of the lines behind an end; a line whose name is none is passed over.
pub fn fields_behind(alloc: Global, rest: Option<&[u8]>) -> Result<List<Field>, NoMemory>
    ensures { IfOk result
        (λ fields.
        fields
        ≡ filter_map (λ line. field_of (text_without_folds line))
        (lines_behind (option_copied rest.entry))) }
{
    let mut fields = List::new(alloc);
    let mut rest = rest;
    loop {
        let text = match rest {
            Some(text) => text,
            None => return Ok(fields),
        };
        let (line, more) = split_piece(Ending::Unfolded, text);
        put_line(&mut fields, alloc, line)?;
        rest = more;
    }
}

// A line's field, at the end.
fn put_line(fields: &mut List<Field>, alloc: Global, line: &[u8]) -> Result<(), NoMemory>
    ensures { OnOk result
        (fields.new ≡ with_some fields.old (field_of (text_without_folds line.now))) }
{
    match read_line(alloc, line)? {
        Some(field) => put_last(fields, field),
        None => Ok(()),
    }
}

fn put_last(fields: &mut List<Field>, field: Field) -> Result<(), NoMemory>
    ensures { OnOk result (fields.new ≡ fields.old ++ field ∷ []) }
{
    fields.push(field)?;
    Ok(())
}

// The field of a line, whose folds are joined first.
fn read_line(alloc: Global, line: &[u8]) -> Result<Option<Field>, NoMemory>
    ensures { IfOk result (λ field. field ≡ field_of (text_without_folds line.now)) }
{
    let text = join(alloc, line)?;
    read_field(alloc, text.as_slice())
}

#[tactic(auto, unfolding(sc_syntax::specs::Fronts::field_of))]
fn read_field(alloc: Global, line: &[u8]) -> Result<Option<Field>, NoMemory>
    ensures { IfOk result (λ field. field ≡ field_of line.now) }
{
    let (name, value) = cut(line, b':');
    let name = trim_back(name);
    if !is_token(name) {
        return Ok(None);
    }
    match value {
        Some(value) => with_value(alloc, long_name(name), trim(value)),
        None => Ok(None),
    }
}

fn with_value(alloc: Global, name: &[u8], value: &[u8]) -> Result<Option<Field>, NoMemory>
    ensures { IfOk result (λ field. field ≡ Some (record { name = name.now; value = value.now })) }
{
    let name = Text::from_slice(alloc, name)?;
    let value = Text::from_slice(alloc, value)?;
    Ok(Some(Field { name, value }))
}

// The value of the header of this name, where it stands once.
#[tactic(auto, using(crate::proofs::ReadSteps::only_none))]
pub fn only_value<'a>(fields: &'a [Field], name: &[u8]) -> Option<&'a [u8]>
    ensures { option_copied result ≡ only (values_of name.now fields.now) }
{
    let first = place_of(fields, name);
    if fields.len() <= first {
        return None;
    }
    let behind = &fields[first + 1..];
    if place_of(behind, name) < behind.len() {
        return None;
    }
    Some(fields[first].value.as_bytes())
}

// The place of the first field of this name, or how many fields there are.
fn place_of(fields: &[Field], name: &[u8]) -> usize
    ensures exact { result ≡ position_or_len (is_of name.now) fields.now }
    ensures within { result ≤ length fields.now }
    ensures room { result < 2 ^ 63 }
{
    for i in 0..fields.len() {
        if is_of(&fields[i], name) {
            return i;
        }
    }
    fields.len()
}

// Whether the field has this name.
fn is_of(field: &Field, name: &[u8]) -> bool
    ensures { result ≡ is_of name.now field.now }
{
    same_name(field.name.as_bytes(), name)
}
