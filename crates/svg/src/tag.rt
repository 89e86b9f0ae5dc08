//! The elements that pictures are made of.
ghost use Rattle.std.specs.Prelude.{◌≡◌};
ghost use Rattle.svg.specs.Forests.{tag_text};

/// An element of SVG.
#[derive(Clone, Copy, PartialEq, Eq)]
pub enum Tag {
    Root,
    Style,
    Group,
    Rect,
    Text,
    Title,
}

/// What the element is called.
pub fn tag_text(tag: Tag) -> &'static str
    ensures { result.now ≡ tag_text tag }
{
    match tag {
        Tag::Root => "svg",
        Tag::Style => "style",
        Tag::Group => "g",
        Tag::Rect => "rect",
        Tag::Text => "text",
        Tag::Title => "title",
    }
}
