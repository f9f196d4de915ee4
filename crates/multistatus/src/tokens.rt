//! The tokens of a document (XML 1.0, sections 2.4 to 2.8 and 3.1).

ghost use Rattle.std.specs.Prelude.{◌≡◌, ◌≤◌, ◌<◌, length, None, codes, IfOk};
ghost use Rattle.std.specs.List.{list_all};
ghost use Rattle.multistatus.specs.Tokens as spec;
ghost use Rattle.multistatus.specs.Texts.{front, behind, is_white, stripped};
ghost use Rattle.multistatus.specs.Steps.{Gives};

use crate::MultiError;
use crate::references::{char_data, line_ends};
use crate::tags::{Name, Tag, behind_mark, name_at, part_at, parts_at, tag_rest};
use crate::text::{begins_white, is_white, past_white, stripped};
use bumpalo::Bump;
use std::alloc::Global;
use values::Lent;

/// A token of a document.
#[derive(Debug, Drop)]
pub(crate) enum Token<'a> {
    /// A comment or a processing instruction.
    Passed,
    /// White space as it stands.
    Blank(Lent<'a>),
    /// Text, or a CDATA section.
    Chars(Lent<'a>),
    /// A start tag.
    Open(Tag<'a>),
    /// An empty-element tag.
    Empty(Tag<'a>),
    /// An end tag.
    Close(Name<'a>),
}

/// The token at the front, and what follows it.
#[tactic(auto, unfolding(crate::specs::Tokens::token_at))]
pub(crate) fn token_at<'a>(
    alloc: Global,
    arena: &'a Bump,
    text: &'a str,
) -> Result<(Token<'a>, &'a str), MultiError>
    requires { 0 < length text.now }
    ensures found { Gives (λ found. (found.0, found.1.now)) result (spec.token_at text.now) }
    ensures shorter { IfOk result (λ found. length found.1.now < length text.now) }
{
    match stripped(text, "<") {
        None => text_at(arena, text),
        Some(rest) => markup_at(alloc, arena, rest),
    }
}

/// Whether a byte stands for text.
fn is_text_byte(byte: u8) -> bool
    ensures { result ≡ spec.is_text_byte byte }
{
    byte != b'<'
}

/// Text up to the next `<`.
fn text_bytes(text: &str) -> (&str, &str)
    ensures piece { result.0.now ≡ front spec.is_text_byte text.now }
    ensures rest { result.1.now ≡ behind spec.is_text_byte text.now }
    ensures shorter { length result.1.now ≤ length text.now }
{
    let bytes = text.as_bytes();
    let mut n = 0;
    while n < bytes.len() && is_text_byte(bytes[n]) {
        n += 1;
    }
    text.split_at(n)
}

/// Text at the front.
#[tactic(auto, unfolding(crate::specs::Tokens::text_at))]
fn text_at<'a>(arena: &'a Bump, text: &'a str) -> Result<(Token<'a>, &'a str), MultiError>
    requires some { 0 < length text.now }
    requires other { stripped (codes "<") text.now ≡ None }
    ensures found { Gives (λ found. (found.0, found.1.now)) result (spec.text_at text.now) }
    ensures shorter { IfOk result (λ found. length found.1.now < length text.now) }
{
    let (piece, rest) = text_bytes(text);
    let token = text_token(arena, piece)?;
    Ok((token, rest))
}

/// White space or text.
fn text_token<'a>(arena: &'a Bump, piece: &'a str) -> Result<Token<'a>, MultiError>
    ensures { Gives (λ token. token) result (spec.text_token piece.now) }
{
    if is_all_white(piece.as_bytes()) {
        let white = line_ends(arena, piece)?;
        return Ok(Token::Blank(Lent::of(white)));
    }
    let chars = char_data(arena, piece)?;
    Ok(Token::Chars(Lent::of(chars)))
}

fn is_all_white(bytes: &[u8]) -> bool
    ensures { result ≡ list_all is_white bytes.now }
{
    bytes.iter().all(|byte| is_white(*byte))
}

/// The token behind a `<`.
#[tactic(auto, unfolding(crate::specs::Tokens::markup_at))]
fn markup_at<'a>(
    alloc: Global,
    arena: &'a Bump,
    text: &'a str,
) -> Result<(Token<'a>, &'a str), MultiError>
    ensures found { Gives (λ found. (found.0, found.1.now)) result (spec.markup_at text.now) }
    ensures shorter { IfOk result (λ found. length found.1.now ≤ length text.now) }
{
    if let Some(rest) = stripped(text, "!") {
        return declared_at(arena, rest);
    }
    if let Some(rest) = stripped(text, "?") {
        return instruction_at(rest);
    }
    match stripped(text, "/") {
        Some(rest) => close_at(rest),
        None => tag_at(alloc, arena, text),
    }
}

/// The token behind `<!`.
#[tactic(auto, unfolding(crate::specs::Tokens::declared_at))]
fn declared_at<'a>(arena: &'a Bump, text: &'a str) -> Result<(Token<'a>, &'a str), MultiError>
    ensures found { Gives (λ found. (found.0, found.1.now)) result (spec.declared_at text.now) }
    ensures shorter { IfOk result (λ found. length found.1.now ≤ length text.now) }
{
    if let Some(rest) = stripped(text, "--") {
        return comment_at(rest);
    }
    match stripped(text, "[CDATA[") {
        Some(rest) => section_at(arena, rest),
        None => Err(MultiError::Bad),
    }
}

/// A comment, behind `<!--`.
#[tactic(auto, unfolding(crate::specs::Tokens::comment_at))]
fn comment_at(text: &str) -> Result<(Token<'_>, &str), MultiError>
    ensures found { Gives (λ found. (found.0, found.1.now)) result (spec.comment_at text.now) }
    ensures shorter { IfOk result (λ found. length found.1.now ≤ length text.now) }
{
    let (_, behind) = parts_at(text, "--")?;
    let rest = behind_mark(behind, ">")?;
    Ok((Token::Passed, rest))
}

/// A CDATA section, behind `<![CDATA[`.
#[tactic(auto, unfolding(crate::specs::Tokens::section_at))]
fn section_at<'a>(arena: &'a Bump, text: &'a str) -> Result<(Token<'a>, &'a str), MultiError>
    ensures found { Gives (λ found. (found.0, found.1.now)) result (spec.section_at text.now) }
    ensures shorter { IfOk result (λ found. length found.1.now ≤ length text.now) }
{
    let (inside, rest) = parts_at(text, "]]>")?;
    let chars = line_ends(arena, inside)?;
    Ok((Token::Chars(Lent::of(chars)), rest))
}

/// A processing instruction, behind `<?`.
#[tactic(auto, unfolding(crate::specs::Tokens::instruction_at))]
fn instruction_at(text: &str) -> Result<(Token<'_>, &str), MultiError>
    ensures found { Gives (λ found. (found.0, found.1.now)) result (spec.instruction_at text.now) }
    ensures shorter { IfOk result (λ found. length found.1.now ≤ length text.now) }
{
    let (inside, rest) = parts_at(text, "?>")?;
    let (target, behind) = part_at(inside)?;
    if !is_target(target, behind.as_bytes()) {
        return Err(MultiError::Bad);
    }
    Ok((Token::Passed, rest))
}

/// Whether a part of a name is the target of an instruction, by what follows it.
fn is_target(target: &str, behind: &[u8]) -> bool
    ensures { result ≡ spec.is_target target.now behind.now }
{
    let is_other = !target.eq_ignore_ascii_case("xml");
    match behind {
        [] => is_other,
        [first, ..] => is_white(*first) && is_other,
    }
}

/// An end tag, behind `</`.
#[tactic(auto, unfolding(crate::specs::Tokens::close_at))]
fn close_at(text: &str) -> Result<(Token<'_>, &str), MultiError>
    ensures found { Gives (λ found. (found.0, found.1.now)) result (spec.close_at text.now) }
    ensures shorter { IfOk result (λ found. length found.1.now ≤ length text.now) }
{
    let (name, behind) = name_at(text)?;
    let rest = behind_mark(past_white(behind), ">")?;
    Ok((Token::Close(name), rest))
}

/// A start tag or an empty-element tag, behind `<`.
#[tactic(auto, unfolding(crate::specs::Tokens::tag_at))]
fn tag_at<'a>(
    alloc: Global,
    arena: &'a Bump,
    text: &'a str,
) -> Result<(Token<'a>, &'a str), MultiError>
    ensures found { Gives (λ found. (found.0, found.1.now)) result (spec.tag_at text.now) }
    ensures shorter { IfOk result (λ found. length found.1.now ≤ length text.now) }
{
    let (name, behind) = name_at(text)?;
    let found = tag_rest(alloc, arena, behind)?;
    let tag = Tag {
        name,
        attributes: found.attributes,
    };
    let token = if found.is_empty {
        Token::Empty(tag)
    } else {
        Token::Open(tag)
    };
    Ok((token, found.rest))
}

/// The text behind a byte order mark, if one stands first.
#[tactic(auto, unfolding(crate::specs::Tokens::without_mark))]
pub(crate) fn without_mark(text: &str) -> &str
    ensures { result.now ≡ spec.without_mark text.now }
{
    match stripped(text, "\u{feff}") {
        Some(rest) => rest,
        None => text,
    }
}

/// The text behind an XML declaration, if one stands first.
#[tactic(auto, unfolding(crate::specs::Tokens::without_declaration))]
pub(crate) fn without_declaration(text: &str) -> Result<&str, MultiError>
    ensures { Gives (λ rest. rest.now) result (spec.without_declaration text.now) }
{
    let Some(rest) = stripped(text, "<?xml") else {
        return Ok(text);
    };
    if !begins_white(rest.as_bytes()) {
        return Ok(text);
    }
    let (_, behind) = parts_at(rest, "?>")?;
    Ok(behind)
}
