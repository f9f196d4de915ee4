//! Texts as JSON strings.

use std::fmt;

/// A text that is displayed as a JSON string (RFC 8259, section 7), with the escapes that
/// `serde_json` writes.
#[derive(Drop)]
pub(crate) struct Quoted<'a>(pub(crate) &'a str);

impl<'a> fmt::Display for Quoted<'a> {
    fn fmt<W: fmt::Write>(&self, f: &mut fmt::Formatter<W>) -> fmt::Result {
        f.write_char('"')?;
        for c in self.0.chars() {
            put_char(c, f)?;
        }
        f.write_char('"')
    }
}

/// Writes a character of a JSON string.
fn put_char<W: fmt::Write>(c: char, f: &mut fmt::Formatter<W>) -> fmt::Result {
    match c {
        '"' => f.write_str("\\\""),
        '\\' => f.write_str("\\\\"),
        '\u{8}' => f.write_str("\\b"),
        '\u{c}' => f.write_str("\\f"),
        '\n' => f.write_str("\\n"),
        '\r' => f.write_str("\\r"),
        '\t' => f.write_str("\\t"),
        '\0'..='\u{1f}' => write!(f, "\\u{:04x}", c as u32),
        _ => f.write_char(c),
    }
}
