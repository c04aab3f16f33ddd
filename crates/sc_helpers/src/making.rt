//! Texts and fields that are made.

ghost use Rattle.std.specs.Prelude.{◌≡◌, ◌++◌, ◌∷◌, [], decimal, IfOk};
ghost use Rattle.sc_hosts.specs.HelperParts.{field};

use sc_terms::Inside;
use sc_value::{Field, List, NoMemory, Text, write_u64};
use std::alloc::Global;

/// A word and the decimal of a number.
pub fn numbered(alloc: Global, word: &[u8], number: u64) -> Result<Text, NoMemory>
    ensures { IfOk result (λ text. text ≡ word.now ++ decimal number) }
{
    let mut text = Text::from_slice(alloc, word)?;
    write_u64(number, &mut text)?;
    Ok(text)
}

/// A field of this name and value.
#[tactic(auto, unfolding(sc_hosts::specs::HelperParts::field))]
pub fn field(alloc: Global, name: &[u8], value: &[u8]) -> Result<Field, NoMemory>
    ensures { IfOk result (λ made. made ≡ field name.now value.now) }
{
    Ok(Field {
        name: Text::from_slice(alloc, name)?,
        value: Text::from_slice(alloc, value)?,
    })
}

/// A field whose value is a number.
#[tactic(auto, unfolding(sc_hosts::specs::HelperParts::field))]
pub fn number_field(alloc: Global, name: &[u8], number: u64) -> Result<Field, NoMemory>
    ensures { IfOk result (λ made. made ≡ field name.now (decimal number)) }
{
    Ok(Field {
        name: Text::from_slice(alloc, name)?,
        value: numbered(alloc, b"", number)?,
    })
}

/// One field alone.
pub fn one(alloc: Global, field: Field) -> Result<List<Field>, NoMemory>
    ensures { IfOk result (λ fields. fields ≡ field ∷ []) }
{
    let mut fields = List::new(alloc);
    fields.push(field)?;
    Ok(fields)
}

/// Two fields, in this order.
pub fn two(alloc: Global, first: Field, second: Field) -> Result<List<Field>, NoMemory>
    ensures { IfOk result (λ fields. fields ≡ first ∷ second ∷ []) }
{
    let mut fields = List::new(alloc);
    fields.push(first)?;
    fields.push(second)?;
    Ok(fields)
}

/// What a request in a dialog is asked with.
pub fn inside_of(
    alloc: Global,
    method: &[u8],
    fields: List<Field>,
    body: &[u8],
) -> Result<Inside, NoMemory>
    ensures { IfOk result
        (λ ask. ask ≡ record { method = method.now; fields = fields; body = body.now }) }
{
    let method = Text::from_slice(alloc, method)?;
    let body = Text::from_slice(alloc, body)?;
    Ok(Inside {
        method,
        fields,
        body,
    })
}
