//! Words of a line: the blanks at its ends, its name, its value, and what the line is.

ghost use Rattle.std.specs.Prelude.{◌≡◌, take, drop, true, false, codes};
ghost use Rattle.std.specs.List.{before_first, after_first, position_or_len};
ghost use Rattle.std.specs.Option.{MatchOption};
ghost use Rattle.std.specs.Str.{bytes_eq, IsUtf8, IsCharBoundary};
ghost use Rattle.item_text.specs.Lines as spec;
ghost use Rattle.item_text.specs.Components.{upper, is_colon, is_semicolon, has_colon, name_of, value_of, behind_colon, quoted_behind, kind_of};
ghost use Rattle.item_text.specs.Kinds.{kind_seen};

/// What a trimmed line is. Names are as the line has them, trimmed, in any case of letters.
#[derive(Clone, Copy)]
pub enum LineKind<'a> {
    /// It opens a component of this name.
    Opens(&'a str),
    /// It closes a component of this name.
    Closes(&'a str),
    /// It is a property: its name, and the line.
    Property(&'a str, &'a str),
    /// It is empty.
    Blank,
}

fn is_blank(byte: u8) -> bool
    ensures { result ≡ spec.is_blank byte }
{
    byte == 32 || byte == 9
}

/// How many spaces and tabs are in front.
fn blanks_in_front(text: &[u8]) -> usize
    requires { IsUtf8 text.now }
    ensures boundary { IsCharBoundary text.now result }
    ensures value { drop result text.now ≡ spec.trim_front text.now }
{
    let mut start = 0;
    while start < text.len() {
        if !is_blank(text[start]) {
            return start;
        }
        start += 1;
    }
    start
}

/// Where the spaces and tabs at the end begin.
fn end_without_blanks(text: &[u8]) -> usize
    requires { IsUtf8 text.now }
    ensures boundary { IsCharBoundary text.now result }
    ensures value { take result text.now ≡ spec.trim_back text.now }
{
    let mut end = text.len();
    while 0 < end {
        if !is_blank(text[end - 1]) {
            return end;
        }
        end -= 1;
    }
    end
}

fn trim_front(text: &str) -> &str
    ensures { result.now ≡ spec.trim_front text.now }
{
    let start = blanks_in_front(text.as_bytes());
    &text[start..]
}

fn trim_back(text: &str) -> &str
    ensures { result.now ≡ spec.trim_back text.now }
{
    let end = end_without_blanks(text.as_bytes());
    &text[..end]
}

/// A text without spaces and tabs at both ends.
#[tactic(auto, unfolding(crate::specs::Lines::trimmed))]
pub fn trimmed(text: &str) -> &str
    ensures { result.now ≡ spec.trimmed text.now }
{
    trim_back(trim_front(text))
}

/// What stands before and behind the first colon of a line.
fn split_colon(line: &str) -> Option<(&str, &str)>
    ensures { MatchOption result (has_colon line.now ≡ false) (λ x. (has_colon line.now ≡ true) × (x.0.now ≡ before_first is_colon line.now) × (x.1.now ≡ after_first is_colon line.now)) }
{
    line.split_once(':')
}

fn before_colon(line: &str) -> &str
    ensures { result.now ≡ before_first is_colon line.now }
{
    match split_colon(line) {
        Some((head, _)) => head,
        None => line,
    }
}

fn before_semicolon(line: &str) -> &str
    ensures { result.now ≡ before_first is_semicolon line.now }
{
    match line.split_once(';') {
        Some((head, _)) => head,
        None => line,
    }
}

/// The name of a property, as the line has it.
fn name_of(line: &str) -> &str
    ensures { upper result.now ≡ name_of line.now }
{
    trimmed(before_semicolon(before_colon(line)))
}

/// Whether a double quote is open behind a text.
fn quoted_behind(text: &[u8], before: bool) -> bool
    ensures { result ≡ quoted_behind before text.now }
{
    let mut quoted = before;
    for byte in text {
        if *byte == b'"' {
            quoted = !quoted;
        }
    }
    quoted
}

fn behind_colon(line: &str) -> &str
    ensures { result.now ≡ behind_colon false line.now }
{
    let mut rest = line;
    let mut quoted = false;
    while let Some((head, tail)) = split_colon(rest) {
        if !quoted_behind(head.as_bytes(), quoted) {
            return tail;
        }
        quoted = true;
        rest = tail;
    }
    ""
}

/// The value of a property: what stands behind the first colon of its line that is in no double quotes, trimmed, or nothing (RFC 5545,
/// section 3.1).
#[tactic(auto, unfolding(crate::specs::Components::value_of))]
pub fn value_of(line: &str) -> &str
    ensures { result.now ≡ value_of line.now }
{
    trimmed(behind_colon(line))
}

/// Whether a text is a word, in any ASCII case.
pub(crate) fn is_word(text: &str, word: &str) -> bool
    ensures { result ≡ bytes_eq (upper text.now) (upper word.now) }
{
    text.eq_ignore_ascii_case(word)
}

fn begins(head: &str) -> bool
    ensures { result ≡ bytes_eq (upper head.now) (codes "BEGIN") }
{
    is_word(head, "BEGIN")
}

fn ends(head: &str) -> bool
    ensures { result ≡ bytes_eq (upper head.now) (codes "END") }
{
    is_word(head, "END")
}

/// What a trimmed line is: `BEGIN:` and `END:` count in any case of letters (RFC 5545, section 3.6).
pub fn kind_of(line: &str) -> LineKind<'_>
    ensures { kind_seen result ≡ kind_of line.now }
{
    if line.is_empty() {
        return LineKind::Blank;
    }
    match split_colon(line) {
        Some((head, tail)) => {
            if begins(head) {
                LineKind::Opens(trimmed(tail))
            } else if ends(head) {
                LineKind::Closes(trimmed(tail))
            } else {
                LineKind::Property(name_of(line), line)
            }
        }
        None => LineKind::Property(name_of(line), line),
    }
}
