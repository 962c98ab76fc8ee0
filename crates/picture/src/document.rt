//! A picture as a document of SVG.
ghost use Rattle.std.specs.Prelude.{◌≡◌, ◌++◌, codes, decimal, IfOk, OnOk, List, string_bytes};
ghost use Rattle.picture.specs.Documents.{IsPictureOf, size_text, start_tag, window_element, window_text};

use crate::bar::shown_bars;
use crate::drawing::shapes;
use crate::escape::append_escaped;
use crate::heading::add_heading;
use crate::layout::Layout;
use crate::rows::Rows;
use crate::shape::{Shape, append_shapes};
use crate::sheet::Sheet;
use crate::style::STYLE;
use crate::window::Span;
use itoa::Buffer;
use std::alloc::{AllocError, Global};

/// The document of SVG that shows the layout. A visible line says which events are shown. The
/// colours are those of a light or a dark page, as the reader prefers.
pub fn svg(alloc: Global, layout: &Layout) -> Result<String, AllocError>
    ensures { IfOk result (λ text. IsPictureOf layout.now (string_bytes text)) }
{
    let bars = shown_bars(alloc, layout)?;
    let rows = Rows::of(alloc, &bars)?;
    let sheet = Sheet::of(alloc, layout, &rows)?;
    let mut shapes = shapes(alloc, layout, &bars, &rows, &sheet)?;
    add_heading(&mut shapes, alloc, layout)?;
    document(alloc, layout, &sheet, &shapes)
}

/// The document with these shapes.
fn document(
    alloc: Global,
    layout: &Layout,
    sheet: &Sheet,
    shapes: &[Shape],
) -> Result<String, AllocError>
    ensures { IfOk result (λ text. IsPictureOf layout.now (string_bytes text)) }
{
    let mut text = String::new(alloc);
    append_start_tag(sheet.width, sheet.height, &mut text)?;
    text.push_str(STYLE)?;
    append_window(alloc, layout.count, layout.span, &mut text)?;
    append_shapes(shapes, &mut text)?;
    text.push_str("</svg>\n")?;
    Ok(text)
}

fn append_start_tag(width: u64, height: u64, text: &mut String) -> Result<(), AllocError>
    ensures { OnOk result (string_bytes text.new
        ≡ string_bytes text.old ++ start_tag width height) }
{
    text.push_str("<svg xmlns=\"http://www.w3.org/2000/svg\"")?;
    append_size(" width=\"", width, text)?;
    append_size(" height=\"", height, text)?;
    text.push_str(">\n")
}

fn append_size(words: &str, pixels: u64, text: &mut String) -> Result<(), AllocError>
    ensures { OnOk result (string_bytes text.new
        ≡ string_bytes text.old ++ size_text words.now pixels) }
{
    text.push_str(words)?;
    text.push_str(Buffer::new().format(pixels))?;
    text.push('"')
}

/// Appends the line that says which of so many events are shown.
fn append_window(alloc: Global, count: u64, span: Span, text: &mut String) -> Result<(), AllocError>
    ensures { OnOk result (string_bytes text.new
        ≡ string_bytes text.old ++ window_element count span) }
{
    let words = window_words(alloc, count, span)?;
    text.push_str("<text class=\"window\" x=\"12\" y=\"48\">")?;
    append_escaped(words.as_str(), text)?;
    text.push_str("</text>\n")
}

fn window_words(alloc: Global, count: u64, span: Span) -> Result<String, AllocError>
    ensures { IfOk result (λ words. string_bytes words ≡ window_text count span) }
{
    let Span { first, last } = span;
    if last < first {
        return format!(in alloc; "No event of {count} is shown.");
    }
    format!(in alloc; "Events {first} to {last} of {count} are shown.")
}
