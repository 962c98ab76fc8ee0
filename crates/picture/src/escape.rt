//! Texts in a document of XML.
ghost use Rattle.std.specs.Prelude.{◌≡◌, ◌++◌, List, ℕ, OnOk, string_bytes};
ghost use Rattle.picture.specs.Escaping.{IsCharacterData, escaped, escaped_char, is_allowed};

use std::alloc::AllocError;

/// What stands for a character that XML does not allow.
const REPLACEMENT: char = '\u{fffd}';

/// Appends the text, escaped. If memory runs out, a part may stand at the end.
pub fn append_escaped(text: &str, document: &mut String) -> Result<(), AllocError>
    ensures { OnOk result (string_bytes document.new
        ≡ string_bytes document.old ++ escaped text.now) }
{
    for c in text.chars() {
        append_char(c, document)?;
    }
    Ok(())
}

fn append_char(c: char, document: &mut String) -> Result<(), AllocError>
    ensures { OnOk result (string_bytes document.new
        ≡ string_bytes document.old ++ escaped_char c) }
{
    match c {
        '<' => document.push_str("&lt;"),
        '>' => document.push_str("&gt;"),
        '&' => document.push_str("&amp;"),
        '"' => document.push_str("&quot;"),
        '\'' => document.push_str("&apos;"),
        _ if is_allowed(c) => document.push(c),
        _ => document.push(REPLACEMENT),
    }
}

/// Whether XML allows the character.
fn is_allowed(c: char) -> bool
    ensures { result ≡ is_allowed c }
{
    let is_break = c == '\n' || c == '\t' || c == '\r';
    (is_break || c >= ' ') && !(c == '\u{fffe}' || c == '\u{ffff}')
}

/// An escaped text has no `<`, no `>` and no quote, and `&` only in the five entities.
pub fn escaped_text_is_safe()
    ensures { (text : List ℕ) → IsCharacterData (escaped text) }
{}
