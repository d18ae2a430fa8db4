//! Boxes of space and time with whole numbers.
ghost use Rattle.std.specs.Prelude.{◌≡◌, true, IfSome};
ghost use Rattle.mob_stbox.specs.Boxes.{is_whole};

use crate::lines::span;
use mob_frac::Frac;
use mob_stbox::{Area, StBox};

fn number(n: i64) -> Option<Frac> {
    Frac::new(n, 1).ok()
}

fn area(x: (i64, i64), y: (i64, i64)) -> Option<Area> {
    let xmin = number(x.0)?;
    let xmax = number(x.1)?;
    let ymin = number(y.0)?;
    let ymax = number(y.1)?;
    Some(Area {
        xmin,
        xmax,
        ymin,
        ymax,
    })
}

/// The box with these sides, from the first instant to the second.
#[tactic(auto, unfolding(mob_stbox::specs::Boxes::is_whole))]
pub fn boxed(x: (i64, i64), y: (i64, i64), t: (i64, i64)) -> Option<StBox>
    ensures whole { IfSome result (λ b. is_whole b ≡ true) }
{
    let space = area(x, y)?;
    let time = span((t.0, t.1, true, true))?;
    StBox::new(Some(space), Some(time))
}
