//! What is known of the items of a page.

ghost use Rattle.std.specs.Prelude.{◌≡◌, ◌==◌, ◌+◌};
ghost use Rattle.std.specs.List.{fold};
ghost use Rattle.sc_pages.specs.Outlines.{alone, higher, lower, outline_of, widened};

use crate::Paged;

/// What is known of the items of a page.
#[derive(Clone, Copy)]
pub struct Outline {
    /// The least of their numbers.
    pub least: u32,
    /// The greatest of their numbers.
    pub most: u32,
    /// All of them rest.
    pub rests: bool,
    /// Each number is the one after the number before, so that none between is wanting.
    pub dense: bool,
}

#[tactic(auto, unfolding(crate::specs::Outlines::alone))]
fn alone<T: Paged>(item: &T) -> Outline
    ensures { result ≡ alone T.number T.rests item.now }
{
    let number = item.number();
    Outline {
        least: number,
        most: number,
        rests: item.rests(),
        dense: true,
    }
}

fn lower(a: u32, b: u32) -> u32
    ensures { result ≡ lower a b }
{
    if b < a { b } else { a }
}

fn higher(a: u32, b: u32) -> u32
    ensures { result ≡ higher a b }
{
    if a < b { b } else { a }
}

fn follows(a: u32, b: u32) -> bool
    ensures { result ≡ (b == a + 1) }
{
    u64::from(b) == u64::from(a) + 1
}

#[tactic(auto, unfolding(crate::specs::Outlines::widened))]
fn widen<T: Paged>(outline: &mut Outline, item: &T)
    ensures { outline.new ≡ widened T.number T.rests outline.old item.now }
{
    let number = item.number();
    let rests = item.rests();
    *outline = Outline {
        least: lower(outline.least, number),
        most: higher(outline.most, number),
        rests: outline.rests && rests,
        dense: outline.dense && follows(outline.most, number),
    };
}

fn widen_all<T: Paged>(outline: &mut Outline, items: &[T])
    ensures { outline.new ≡ fold (widened T.number T.rests) outline.old items.now }
{
    for item in items {
        widen(outline, item);
    }
}

/// The outline of these items.
#[tactic(auto, unfolding(crate::specs::Outlines::outline_of))]
pub fn outline_of<T: Paged>(items: &[T]) -> Outline
    ensures { result ≡ outline_of T.number T.rests items.now }
{
    match items.split_first() {
        Some((first, rest)) => {
            let mut outline = alone(first);
            widen_all(&mut outline, rest);
            outline
        }
        None => Outline {
            least: 0,
            most: 0,
            rests: true,
            dense: false,
        },
    }
}
