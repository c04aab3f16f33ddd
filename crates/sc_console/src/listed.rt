//! What the console writes of a listing.

ghost use Rattle.std.specs.Prelude.{◌≡◌, ◌++◌, decimal, OnOk};
ghost use Rattle.sc_console.specs.Answers.{app_text, apps_text, counts_text, list_text};

use sc_edge::Listing;
use sc_value::{AppId, NoMemory, Text, write_u64};
use std::alloc::Global;

/// Appends `list EPOCH STEPS LIVE WAITING`, and for each live session `app H S`, each with a line
/// feed.
///
/// # Errors
///
/// `NoMemory` for want of memory. The text may then have a part of them.
#[tactic(auto, unfolding(crate::specs::Answers::list_text))]
pub fn write_listing(listing: &Listing, out: &mut Text) -> Result<(), NoMemory>
    ensures { OnOk result (out.new ≡ out.old ++ list_text listing.now) }
{
    write_counts(listing, out)?;
    write_apps(listing.live.as_slice(), out)
}

/// The first line.
#[tactic(auto, unfolding(crate::specs::Answers::counts_text))]
fn write_counts(listing: &Listing, out: &mut Text) -> Result<(), NoMemory>
    ensures { OnOk result (out.new ≡ out.old ++ counts_text listing.now) }
{
    write_number(b"list ", u64::from(listing.epoch), out)?;
    write_number(b" ", listing.steps, out)?;
    write_number(b" ", listing.live.len() as u64, out)?;
    write_number(b" ", listing.waiting, out)?;
    out.append(b"\n")
}

/// Appends a text and then a number.
fn write_number(before: &[u8], number: u64, out: &mut Text) -> Result<(), NoMemory>
    ensures { OnOk result (out.new ≡ out.old ++ (before.now ++ decimal number)) }
{
    out.append(before)?;
    write_u64(number, out)
}

/// A line for each session.
#[tactic(auto, unfolding(crate::specs::Answers::apps_text))]
fn write_apps(apps: &[AppId], out: &mut Text) -> Result<(), NoMemory>
    ensures { OnOk result (out.new ≡ out.old ++ apps_text apps.now) }
{
    for app in apps {
        write_app(*app, out)?;
    }
    Ok(())
}

#[tactic(auto, unfolding(crate::specs::Answers::app_text))]
fn write_app(app: AppId, out: &mut Text) -> Result<(), NoMemory>
    ensures { OnOk result (out.new ≡ out.old ++ app_text app) }
{
    write_number(b"app ", u64::from(app.host), out)?;
    write_number(b" ", app.serial, out)?;
    out.append(b"\n")
}
