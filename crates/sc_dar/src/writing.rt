//! Tables as text. Of want of memory a text may hold a part of what is put to it, but for `write`.

ghost use Rattle.std.specs.Prelude.{◌≡◌, ◌++◌, OnOk, OnErr};
ghost use Rattle.std.specs.List.{flat_map};
ghost use Rattle.sc_dar.specs.WrittenTables.{region_text, modifier_text, route_text, between, app_text, tuple_front, tuple_back, tuple_text, lead, tuples_text, list_text, dar_text};

use sc_terms::{Dar, MethodList, Modifier, Tuple};
use sc_value::{Address, List, NoMemory, Region, Text, write_u64};
use std::alloc::Global;

/// Puts the text of a table at the end (JSR 289 appendix C): a line a method, with the names of
/// these applications. An application that has no name here is written as an empty one. The one
/// error is want of memory, on which `out` is as before.
#[tactic(auto, unfolding(crate::specs::WrittenTables::dar_text))]
pub fn write(alloc: Global, dar: &Dar, apps: &List<Text>, out: &mut Text) -> Result<(), NoMemory>
    ensures ok { OnOk result (out.new ≡ out.old ++ dar_text dar.now apps.now) }
    ensures err { OnErr result (out.new ≡ out.old) }
{
    let mut text = Text::new(alloc);
    put_lists(alloc, dar.lists.as_slice(), apps.as_slice(), &mut text)?;
    out.append(text.as_bytes())
}

fn put_lists(
    alloc: Global,
    lists: &[MethodList],
    apps: &[Text],
    out: &mut Text,
) -> Result<(), NoMemory>
    ensures { OnOk result (out.new ≡ out.old ++ flat_map (list_text apps.now) lists.now) }
{
    for list in lists {
        put_list(alloc, list, apps, out)?;
    }
    Ok(())
}

#[tactic(auto, unfolding(crate::specs::WrittenTables::list_text))]
fn put_list(alloc: Global, list: &MethodList, apps: &[Text], out: &mut Text) -> Result<(), NoMemory>
    ensures { OnOk result (out.new ≡ out.old ++ list_text apps.now list.now) }
{
    out.append(list.method.as_bytes())?;
    out.append(b": ")?;
    put_tuples(alloc, list.tuples.as_slice(), apps, out)?;
    out.append(b"\n")
}

#[tactic(auto, using(crate::proofs::TupleTexts::tuple_put, crate::proofs::TupleTexts::all_put))]
fn put_tuples(
    alloc: Global,
    tuples: &[Tuple],
    apps: &[Text],
    out: &mut Text,
) -> Result<(), NoMemory>
    ensures { OnOk result (out.new ≡ out.old ++ tuples_text apps.now 0 tuples.now) }
{
    for order in 0..tuples.len() {
        put_lead(order, out)?;
        put_tuple(alloc, order, &tuples[order], apps, out)?;
    }
    Ok(())
}

// A comma before each tuple but the first.
#[tactic(auto, unfolding(crate::specs::WrittenTables::lead))]
fn put_lead(order: usize, out: &mut Text) -> Result<(), NoMemory>
    ensures { OnOk result (out.new ≡ out.old ++ lead order) }
{
    if order == 0 {
        return Ok(());
    }
    out.append(b", ")
}

#[tactic(auto, unfolding(crate::specs::WrittenTables::tuple_text))]
fn put_tuple(
    alloc: Global,
    order: usize,
    tuple: &Tuple,
    apps: &[Text],
    out: &mut Text,
) -> Result<(), NoMemory>
    ensures { OnOk result (out.new ≡ out.old ++ tuple_text apps.now order tuple.now) }
{
    out.append(b"(\"")?;
    put_front(tuple, apps, out)?;
    put_between(out)?;
    put_back(alloc, order, tuple, out)?;
    out.append(b"\")")
}

// Application, subscriber and region.
#[tactic(auto, unfolding(crate::specs::WrittenTables::tuple_front))]
fn put_front(tuple: &Tuple, apps: &[Text], out: &mut Text) -> Result<(), NoMemory>
    ensures { OnOk result (out.new ≡ out.old ++ tuple_front apps.now tuple.now) }
{
    out.append(app_text(apps, tuple.app))?;
    put_between(out)?;
    out.append(tuple.subscriber.as_bytes())?;
    put_between(out)?;
    out.append(region_text(tuple.region))
}

// Route, modifier and order.
#[tactic(auto, unfolding(crate::specs::WrittenTables::tuple_back))]
fn put_back(alloc: Global, order: usize, tuple: &Tuple, out: &mut Text) -> Result<(), NoMemory>
    ensures { OnOk result (out.new ≡ out.old ++ tuple_back order tuple.now) }
{
    put_route(alloc, &tuple.route, out)?;
    put_between(out)?;
    out.append(modifier_text(tuple.modifier))?;
    put_between(out)?;
    write_u64(order as u64, out)
}

#[tactic(auto, unfolding(crate::specs::WrittenTables::between))]
fn put_between(out: &mut Text) -> Result<(), NoMemory>
    ensures { OnOk result (out.new ≡ out.old ++ between) }
{
    out.append(b"\", \"")
}

#[tactic(auto, unfolding(crate::specs::WrittenTables::route_text))]
fn put_route(alloc: Global, route: &Option<Address>, out: &mut Text) -> Result<(), NoMemory>
    ensures { OnOk result (out.new ≡ out.old ++ route_text route.now) }
{
    match route {
        Some(address) => sc_uri_text::write(alloc, &address.uri, out),
        None => Ok(()),
    }
}

#[tactic(auto, unfolding(crate::specs::WrittenTables::app_text))]
fn app_text(apps: &[Text], app: u32) -> &[u8]
    ensures { result.now ≡ app_text apps.now app }
{
    match apps.get(app as usize) {
        Some(name) => name.as_bytes(),
        None => b"",
    }
}

#[tactic(auto, unfolding(crate::specs::WrittenTables::region_text))]
fn region_text(region: Region) -> &'static [u8]
    ensures { result.now ≡ region_text region }
{
    match region {
        Region::Originating => b"ORIGINATING",
        Region::Terminating => b"TERMINATING",
        Region::Neutral => b"NEUTRAL",
    }
}

#[tactic(auto, unfolding(crate::specs::WrittenTables::modifier_text))]
fn modifier_text(modifier: Modifier) -> &'static [u8]
    ensures { result.now ≡ modifier_text modifier }
{
    match modifier {
        Modifier::Route => b"ROUTE",
        Modifier::RouteBack => b"ROUTE_BACK",
        Modifier::NoRoute => b"NO_ROUTE",
    }
}
