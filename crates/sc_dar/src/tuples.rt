//! The tuples of a line.

ghost use Rattle.std.specs.Prelude.{◌≡◌, ◌<◌, ◌++◌, ◌∷◌, [], OnOk, false};
ghost use Rattle.sc_dar.specs.Tuples.{parts, tuple_at, tuple_of, tuples_in};
ghost use Rattle.sc_dar.specs.Answers.{IsRead};

use crate::parts::{Texts, first_six, is_parted, unquoted};
use crate::routes::route_of;
use crate::unread::{
    BAD_MODIFIER, BAD_ORDER, BAD_REGION, BAD_TUPLE, TOO_MANY, UNKNOWN_APPLICATION, Unread,
};
use crate::words::{app_of, is_order, modifier_of, region_of};
use sc_terms::{Modifier, Tuple};
use sc_value::{List, NoMemory, Region, Text};
use std::alloc::Global;

// The tuple that the texts say, at this place of its method.
#[tactic(auto, unfolding(crate::specs::Tuples::tuple_of, crate::specs::Tuples::then_read))]
fn tuple_of(alloc: Global, apps: &[Text], order: usize, texts: &Texts) -> Result<Tuple, Unread>
    ensures { IsRead result (tuple_of apps.now order texts.now) }
{
    let region = match region_of(texts.region) {
        Some(region) => region,
        None => return Err(Unread::Fault { kind: BAD_REGION }),
    };
    let modifier = match modifier_of(texts.modifier) {
        Some(modifier) => modifier,
        None => return Err(Unread::Fault { kind: BAD_MODIFIER }),
    };
    if !is_order(order, texts.order) {
        return Err(Unread::Fault { kind: BAD_ORDER });
    }
    let app = match app_of(apps, texts.app) {
        Some(app) => app,
        None => {
            return Err(Unread::Fault {
                kind: UNKNOWN_APPLICATION,
            });
        }
    };
    let subscriber = Text::from_slice(alloc, texts.subscriber)?;
    let route = route_of(alloc, texts.route)?;
    Ok(Tuple {
        app,
        subscriber,
        region,
        route,
        modifier,
    })
}

// The tuple of six parts; a method has at most 64. What stands behind its bracket is judged last.
#[tactic(auto, unfolding(crate::specs::Tuples::tuple_at, crate::specs::Tuples::tuple_within, crate::specs::Tuples::tuple_before_comma, crate::specs::Tuples::then_read))]
fn tuple_at(alloc: Global, apps: &[Text], order: usize, parts: &Texts) -> Result<Tuple, Unread>
    ensures { IsRead result (tuple_at apps.now order parts.now) }
{
    let texts = match unquoted(parts) {
        Some(texts) => texts,
        None => return Err(Unread::Fault { kind: BAD_TUPLE }),
    };
    let tuple = tuple_of(alloc, apps, order, &texts)?;
    if order >= 64 {
        return Err(Unread::Fault { kind: TOO_MANY });
    }
    if is_parted(parts.order) {
        Ok(tuple)
    } else {
        Err(Unread::Fault { kind: BAD_TUPLE })
    }
}

fn put_last(tuples: &mut List<Tuple>, tuple: Tuple) -> Result<(), NoMemory>
    ensures { OnOk result (tuples.new ≡ tuples.old ++ tuple ∷ []) }
{
    match tuples.push(tuple) {
        Ok(()) => Ok(()),
        Err(_) => Err(NoMemory),
    }
}

// The tuples of the text behind a method and its separator.
#[tactic(auto, using(crate::proofs::TupleSteps::tuples_begun, crate::proofs::TupleSteps::tuples_on, crate::proofs::TupleSteps::tuples_last, crate::proofs::TupleSteps::tuples_short, crate::proofs::TupleSteps::tuples_fault))]
pub fn tuples_in(alloc: Global, apps: &[Text], text: &[u8]) -> Result<List<Tuple>, Unread>
    ensures { IsRead result (tuples_in apps.now 0 (parts false text.now)) }
{
    let mut tuples = List::new(alloc);
    let mut rest = text;
    loop {
        let (parts, more) = match first_six(rest) {
            Some(six) => six,
            None => return Err(Unread::Fault { kind: BAD_TUPLE }),
        };
        let tuple = tuple_at(alloc, apps, tuples.len(), &parts)?;
        put_last(&mut tuples, tuple)?;
        match more {
            Some(more) => rest = more,
            None => return Ok(tuples),
        }
    }
}
