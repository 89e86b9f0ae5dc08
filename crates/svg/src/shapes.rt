//! Shapes and labels, appended to a document.
ghost use Rattle.std.specs.Prelude.{[], ◌≡◌, ◌++◌, OnOk, string_bytes};
ghost use Rattle.svg.specs.Forests.{closing_tag_text, forest_text, opening_text};
ghost use Rattle.svg.specs.Shapes.{label_opening, label_tree, rect_opening, rect_tree, root_opening, style_tree};
ghost use Rattle.svg.specs.declared.tag.Tag.TheVariants.{Group};

use crate::escaping::push_escaped;
use crate::paint::{Paint, class_word};
use crate::tag::{Tag, tag_text};
use std::alloc::AllocError;

/// Where a rectangle stands, and how large it is, in pixels.
#[derive(Clone, Copy, Debug, PartialEq, Eq)]
pub struct Area {
    pub x: u64,
    pub y: u64,
    pub width: u64,
    pub height: u64,
}

/// Where a text begins, in pixels.
#[derive(Clone, Copy, Debug, PartialEq, Eq)]
pub struct Spot {
    pub x: u64,
    pub y: u64,
}

/// Appends a rectangle. Its title is what a browser shows of it.
pub fn push_rect(out: &mut String, area: Area, paint: Paint, title: &[u8]) -> Result<(), AllocError>
    ensures { OnOk result (string_bytes out.new ≡ string_bytes out.old ++ forest_text (rect_tree area paint title.now)) }
{
    open_rect(out, area.x, area.y, area.width, area.height, paint)?;
    out.push_str("<title>")?;
    push_escaped(out, title)?;
    out.push_str("</title>\n</rect>\n")?;
    Ok(())
}

/// Appends the beginning of a rectangle.
fn open_rect(
    out: &mut String,
    x: u64,
    y: u64,
    width: u64,
    height: u64,
    paint: Paint,
) -> Result<(), AllocError>
    ensures { OnOk result (string_bytes out.new ≡ string_bytes out.old ++ rect_opening x y width height paint) }
{
    let class = class_word(paint);
    write!(
        out,
        "<rect x=\"{x}\" y=\"{y}\" width=\"{width}\" height=\"{height}\" class=\"{class}\">"
    )?;
    Ok(())
}

/// Appends a text.
pub fn push_label(out: &mut String, spot: Spot, paint: Paint, text: &[u8]) -> Result<(), AllocError>
    ensures { OnOk result (string_bytes out.new ≡ string_bytes out.old ++ forest_text (label_tree spot paint text.now)) }
{
    open_text(out, spot.x, spot.y, paint)?;
    push_escaped(out, text)?;
    out.push_str("</text>\n")?;
    Ok(())
}

/// Appends the beginning of a text.
fn open_text(out: &mut String, x: u64, y: u64, paint: Paint) -> Result<(), AllocError>
    ensures { OnOk result (string_bytes out.new ≡ string_bytes out.old ++ label_opening x y paint) }
{
    let class = class_word(paint);
    write!(out, "<text x=\"{x}\" y=\"{y}\" class=\"{class}\">")?;
    Ok(())
}

/// Appends a style sheet.
pub fn push_style(out: &mut String, sheet: &str) -> Result<(), AllocError>
    ensures { OnOk result (string_bytes out.new ≡ string_bytes out.old ++ forest_text (style_tree sheet.now)) }
{
    out.push_str("<style>")?;
    push_escaped(out, sheet.as_bytes())?;
    out.push_str("</style>\n")
}

/// Appends the beginning of a picture of this width and height.
pub fn open_root(out: &mut String, width: u64, height: u64) -> Result<(), AllocError>
    ensures { OnOk result (string_bytes out.new ≡ string_bytes out.old ++ root_opening width height) }
{
    write!(
        out,
        "<svg xmlns=\"http://www.w3.org/2000/svg\" width=\"{width}\" height=\"{height}\" viewBox=\"0 0 {width} {height}\">"
    )?;
    Ok(())
}

/// Appends the beginning of a group.
pub fn open_group(out: &mut String) -> Result<(), AllocError>
    ensures { OnOk result (string_bytes out.new ≡ string_bytes out.old ++ opening_text Group []) }
{
    out.push_str("<g>")
}

/// Appends the end of an element.
pub fn close(out: &mut String, tag: Tag) -> Result<(), AllocError>
    ensures { OnOk result (string_bytes out.new ≡ string_bytes out.old ++ closing_tag_text tag) }
{
    let name = tag_text(tag);
    write!(out, "</{name}>\n")
}
