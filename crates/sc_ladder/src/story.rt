//! What happened in a run, row by row, before it is drawn.

use sc_value::{AppId, List, NoMemory, Place, Text};

/// Where an arrow of the picture begins or ends.
#[derive(Clone, Copy, Debug, PartialEq, Eq)]
pub enum Stop {
    /// An outside place.
    Outside(Place),
    /// The application of this host.
    App(u32),
    /// The container itself: its application that is drawn next to the other end.
    Edge,
}

/// What a row draws.
#[derive(Clone, Copy, Debug, PartialEq, Eq)]
pub enum Mark {
    Blank,
    Arrow { from: Stop, to: Stop },
    /// A turn.
    Turn(Stop),
    /// A call of the turn above.
    Call(Stop),
    /// An end from outside.
    Cut(Stop),
}

/// A message as it is told, and its Call-ID.
#[derive(Drop)]
pub struct Told {
    pub label: Text,
    pub call_id: Text,
}

/// A row of the picture.
#[derive(Drop)]
pub struct Row {
    /// The moment, in milliseconds.
    pub moment: u64,
    pub mark: Mark,
    pub text: Text,
    /// The message that came, until a turn shows it.
    pub came: Option<Told>,
}

/// All rows of a run.
#[derive(Drop)]
pub struct Story {
    /// The names of the applications, by their hosts.
    pub names: List<Text>,
    pub rows: List<Row>,
    /// How many messages were sent.
    pub sent: u64,
}

/// Puts a row at the end.
pub fn add_row(moment: u64, mark: Mark, text: Text, story: &mut Story) -> Result<(), NoMemory> {
    story.rows.push(Row {
        moment,
        mark,
        text,
        came: None,
    })?;
    Ok(())
}

/// Puts the row of a message that came, which a turn may show.
pub fn add_coming(
    moment: u64,
    from: Place,
    told: Told,
    text: Text,
    story: &mut Story,
) -> Result<(), NoMemory> {
    story.rows.push(Row {
        moment,
        mark: Mark::Arrow {
            from: Stop::Outside(from),
            to: Stop::Edge,
        },
        text,
        came: Some(told),
    })?;
    Ok(())
}

/// A turn of this session shows a message: the arrow of the first row by which it came goes to the
/// application.
pub fn show_to(app: AppId, told: &Told, rows: &mut [Row]) {
    for row in rows {
        if is_row_of(told, row) {
            lead_to(app, row);
            return;
        }
    }
}

fn is_row_of(told: &Told, row: &Row) -> bool {
    match &row.came {
        Some(came) => is_told(told, came),
        None => false,
    }
}

fn is_told(a: &Told, b: &Told) -> bool {
    a.label.as_bytes() == b.label.as_bytes() && a.call_id.as_bytes() == b.call_id.as_bytes()
}

fn lead_to(app: AppId, row: &mut Row) {
    if let Mark::Arrow { from, .. } = row.mark {
        row.mark = Mark::Arrow {
            from,
            to: Stop::App(app.host),
        };
    }
    row.came = None;
}
