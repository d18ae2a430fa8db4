//! Prints boxes.
ghost use Rattle.std.specs.Prelude.{◌≡◌, ◌++◌, codes, OnOk, OnErr, string_bytes};
ghost use Rattle.mob_geotext.specs.BoxText.{corner_text, corners_text, box_text};
ghost use Rattle.mob_geotext.specs.SpanText.{span_text};

use crate::printing::write_span;
use mob_frac::Frac;
use mob_numeral::write_number;
use mob_scalar::Epoch;
use mob_span::Span;
use mob_stbox::{Area, StBox};
use std::alloc::AllocError;

fn push_corner(x: &Frac, y: &Frac, into: &mut String) -> Result<(), AllocError>
    ensures written { OnOk result (string_bytes into.new ≡ string_bytes into.old ++ corner_text x.now y.now) }
{
    into.push_str("(")?;
    write_number(x, into)?;
    into.push_str(",")?;
    write_number(y, into)?;
    into.push_str(")")
}

fn push_corners(area: &Area, into: &mut String) -> Result<(), AllocError>
    ensures written { OnOk result (string_bytes into.new ≡ string_bytes into.old ++ corners_text area.now) }
{
    push_corner(&area.xmin, &area.ymin, into)?;
    into.push_str(",")?;
    push_corner(&area.xmax, &area.ymax, into)?;
    into.push_str(")")
}

fn push_space(area: &Area, into: &mut String) -> Result<(), AllocError>
    ensures written { OnOk result (string_bytes into.new ≡ string_bytes into.old ++ (codes "STBOX X(" ++ corners_text area.now)) }
{
    into.push_str("STBOX X(")?;
    push_corners(area, into)
}

fn push_time(span: &Span, epoch: &Epoch, into: &mut String) -> Result<(), AllocError>
    ensures written { OnOk result (string_bytes into.new ≡ string_bytes into.old ++ (codes "STBOX T(" ++ (span_text epoch.now span.now ++ codes ")"))) }
{
    into.push_str("STBOX T(")?;
    write_span(span, epoch, into)?;
    into.push_str(")")
}

fn push_both(area: &Area, span: &Span, epoch: &Epoch, into: &mut String) -> Result<(), AllocError>
    ensures written { OnOk result (string_bytes into.new ≡ string_bytes into.old ++ (codes "STBOX XT((" ++ (corners_text area.now ++ (codes "," ++ (span_text epoch.now span.now ++ codes ")"))))) }
{
    into.push_str("STBOX XT((")?;
    push_corners(area, into)?;
    into.push_str(",")?;
    write_span(span, epoch, into)?;
    into.push_str(")")
}

fn push_box(stbox: &StBox, epoch: &Epoch, into: &mut String) -> Result<(), AllocError>
    ensures written { OnOk result (string_bytes into.new ≡ string_bytes into.old ++ box_text epoch.now stbox.now) }
{
    match stbox.space() {
        Some(area) => match stbox.time() {
            Some(span) => push_both(area, span, epoch, into),
            None => push_space(area, into),
        },
        None => match stbox.time() {
            Some(span) => push_time(span, epoch, into),
            None => Ok(()),
        },
    }
}

/// Appends the text of a box, its lesser corner first: `STBOX X((x,y),(x,y))`, `STBOX T(span)` or
/// `STBOX XT(((x,y),(x,y)),span)`. An error means that an allocation failed; the text is then
/// unchanged.
pub fn write_stbox(stbox: &StBox, epoch: &Epoch, into: &mut String) -> Result<(), AllocError>
    ensures ok { OnOk result (string_bytes into.new ≡ string_bytes into.old ++ box_text epoch.now stbox.now) }
    ensures err { OnErr result (string_bytes into.new ≡ string_bytes into.old) }
{
    let mut text = String::new(*into.allocator());
    push_box(stbox, epoch, &mut text)?;
    into.push_str(text.as_str())
}
