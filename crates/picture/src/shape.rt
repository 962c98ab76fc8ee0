//! The shapes of a drawing, and their text in SVG.
ghost use Rattle.std.specs.Prelude.{◌≡◌, [], ◌∷◌, ◌++◌, OnOk, codes, decimal, string_bytes};
ghost use Rattle.run_model.specs.Transcripts.{line_feed};
ghost use Rattle.picture.specs.Escaping.{escaped};
ghost use Rattle.picture.specs.Shapes.{attribute_text, box_start, class_text, dot_start, line_start, shape_text, shapes_text, start_text, tip_text, words_start};

use crate::bar::Fate;
use crate::escape::append_escaped;
use crate::marks::Message;
use itoa::Buffer;
use std::alloc::AllocError;

/// What a shape stands for. The style sheet says how it looks.
#[derive(Clone, Copy, Debug, PartialEq, Eq)]
pub(crate) enum Class {
    Page,
    Lane,
    Spine,
    Gap,
    Bar(Fate),
    /// From a bar's end to the end of its action.
    Tail(Fate),
    Tick,
    Arrow(Message),
    /// A message of a guardian to itself.
    Own(Message),
    Heading,
    Guardian,
    Label,
    Key,
    Axis,
}

#[derive(Clone, Copy, Debug, PartialEq, Eq)]
pub(crate) struct Point {
    pub(crate) x: u64,
    pub(crate) y: u64,
}

#[derive(Drop)]
pub(crate) enum Shape {
    /// A rectangle from its upper left corner, of this width and height.
    Rect(Class, Point, u64, u64, String),
    Line(Class, Point, Point, String),
    Dot(Class, Point, String),
    Text(Class, Point, String),
}

/// Appends the elements of the shapes, a line each.
pub(crate) fn append_shapes(shapes: &[Shape], text: &mut String) -> Result<(), AllocError>
    ensures { OnOk result (string_bytes text.new
        ≡ string_bytes text.old ++ shapes_text shapes.now) }
{
    for shape in shapes {
        append_shape(shape, text)?;
    }
    Ok(())
}

fn append_shape(shape: &Shape, text: &mut String) -> Result<(), AllocError>
    ensures { OnOk result (string_bytes text.new
        ≡ string_bytes text.old ++ (shape_text shape.now ++ line_feed ∷ [])) }
{
    match shape {
        Shape::Rect(class, corner, width, height, tip) => {
            append_box(*class, *corner, *width, *height, text)?;
            append_tip(tip.as_str(), text)?;
            text.push_str("</rect>\n")
        }
        Shape::Line(class, from, to, tip) => {
            append_line(*class, *from, *to, text)?;
            append_tip(tip.as_str(), text)?;
            text.push_str("</line>\n")
        }
        Shape::Dot(class, centre, tip) => {
            append_dot(*class, *centre, text)?;
            append_tip(tip.as_str(), text)?;
            text.push_str("</circle>\n")
        }
        Shape::Text(class, at, words) => {
            append_words_start(*class, *at, text)?;
            append_escaped(words.as_str(), text)?;
            text.push_str("</text>\n")
        }
    }
}

/// Appends the start tag of a rectangle.
fn append_box(
    class: Class,
    corner: Point,
    width: u64,
    height: u64,
    text: &mut String,
) -> Result<(), AllocError>
    ensures { OnOk result (string_bytes text.new
        ≡ string_bytes text.old ++ box_start class corner width height) }
{
    append_start("<rect", class, text)?;
    append_attribute("x", corner.x, text)?;
    append_attribute("y", corner.y, text)?;
    append_attribute("width", width, text)?;
    append_attribute("height", height, text)?;
    text.push('>')
}

/// Appends the start tag of a line.
fn append_line(class: Class, from: Point, to: Point, text: &mut String) -> Result<(), AllocError>
    ensures { OnOk result (string_bytes text.new
        ≡ string_bytes text.old ++ line_start class from to) }
{
    append_start("<line", class, text)?;
    append_attribute("x1", from.x, text)?;
    append_attribute("y1", from.y, text)?;
    append_attribute("x2", to.x, text)?;
    append_attribute("y2", to.y, text)?;
    text.push('>')
}

/// Appends the start tag of a dot.
fn append_dot(class: Class, centre: Point, text: &mut String) -> Result<(), AllocError>
    ensures { OnOk result (string_bytes text.new
        ≡ string_bytes text.old ++ dot_start class centre) }
{
    append_start("<circle", class, text)?;
    append_attribute("cx", centre.x, text)?;
    append_attribute("cy", centre.y, text)?;
    text.push_str(" r=\"3\">")
}

/// Appends the start tag of a text.
fn append_words_start(class: Class, at: Point, text: &mut String) -> Result<(), AllocError>
    ensures { OnOk result (string_bytes text.new ≡ string_bytes text.old ++ words_start class at) }
{
    append_start("<text", class, text)?;
    append_attribute("x", at.x, text)?;
    append_attribute("y", at.y, text)?;
    text.push('>')
}

/// Appends the front of a start tag, and its class.
fn append_start(tag: &str, class: Class, text: &mut String) -> Result<(), AllocError>
    ensures { OnOk result (string_bytes text.new
        ≡ string_bytes text.old ++ start_text tag.now class) }
{
    text.push_str(tag)?;
    text.push_str(" class=\"")?;
    text.push_str(class.words())?;
    text.push('"')
}

fn append_attribute(name: &str, number: u64, text: &mut String) -> Result<(), AllocError>
    ensures { OnOk result (string_bytes text.new
        ≡ string_bytes text.old ++ attribute_text name.now number) }
{
    text.push(' ')?;
    text.push_str(name)?;
    text.push_str("=\"")?;
    text.push_str(Buffer::new().format(number))?;
    text.push('"')
}

/// Appends the text that is shown over a shape.
fn append_tip(tip: &str, text: &mut String) -> Result<(), AllocError>
    ensures { OnOk result (string_bytes text.new ≡ string_bytes text.old ++ tip_text tip.now) }
{
    text.push_str("<title>")?;
    append_escaped(tip, text)?;
    text.push_str("</title>")
}

impl Class {
    /// Its names in the style sheet.
    fn words(self) -> &'static str
        ensures { result.now ≡ class_text self }
    {
        match self {
            Class::Page => "page",
            Class::Lane => "lane",
            Class::Spine => "spine",
            Class::Gap => "gap",
            Class::Bar(Fate::Open) => "bar open",
            Class::Bar(Fate::Committed) => "bar committed",
            Class::Bar(Fate::Aborted) => "bar aborted",
            Class::Bar(Fate::Orphan) => "bar orphan",
            Class::Tail(Fate::Open) => "tail open",
            Class::Tail(Fate::Committed) => "tail committed",
            Class::Tail(Fate::Aborted) => "tail aborted",
            Class::Tail(Fate::Orphan) => "tail orphan",
            Class::Tick => "tick",
            Class::Arrow(Message::Call) => "arrow call",
            Class::Arrow(Message::Prepare) => "arrow prepare",
            Class::Arrow(Message::VoteYes) => "arrow yes",
            Class::Arrow(Message::VoteNo) => "arrow no",
            Class::Arrow(Message::Tell) => "arrow tell",
            Class::Own(Message::Call) => "own call",
            Class::Own(Message::Prepare) => "own prepare",
            Class::Own(Message::VoteYes) => "own yes",
            Class::Own(Message::VoteNo) => "own no",
            Class::Own(Message::Tell) => "own tell",
            Class::Heading => "heading",
            Class::Guardian => "guardian",
            Class::Label => "label",
            Class::Key => "key",
            Class::Axis => "axis",
        }
    }
}
