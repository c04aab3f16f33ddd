//! What happened in a run of a script as a ladder diagram: in text, and as an SVG. The rows of a
//! run are plain values. What is drawn is outside of the promises: every function is proved to be
//! safe and to end, and no clause says what the picture shows.
#![tactic(auto)]

mod answers;
mod boxes;
mod calls;
mod columns;
mod drawing;
mod elements;
mod events;
mod labels;
mod picture;
mod places;
mod sizes;
mod story;
mod svg;

pub use calls::write_record;
pub use events::{told_event, write_event};
pub use labels::{told_message, write_message};
pub use picture::{Form, Pen, Picture, beginning, ending, pen_after, picture_of, row_text};
pub use places::{write_place, write_session};
pub use story::{Mark, Row, Stop, Story, Told, add_coming, add_row, show_to};
