//! Text cut by marks, and white space.

ghost use Rattle.std.specs.Prelude.{◌≡◌, ◌≤◌, ◌+◌, length, option_map, IfSome};
ghost use Rattle.std.specs.Option.{option_copied};
ghost use Rattle.multistatus.specs.Texts as spec;

/// White space of XML.
pub(crate) fn is_white(byte: u8) -> bool
    ensures { result ≡ spec.is_white byte }
{
    matches!(byte, b' ' | b'\t' | b'\n' | b'\r')
}

pub(crate) fn begins_white(bytes: &[u8]) -> bool
    ensures { result ≡ spec.begins_white bytes.now }
{
    match bytes {
        [] => false,
        [first, ..] => is_white(*first),
    }
}

/// What follows a mark at the front.
pub(crate) fn stripped<'t>(text: &'t str, mark: &str) -> Option<&'t str>
    ensures found { option_copied result ≡ spec.stripped mark.now text.now }
    ensures shorter { IfSome result (λ rest. length rest.now + length mark.now ≤ length text.now) }
{
    text.strip_prefix(mark)
}

/// What stands before and behind the first place of a mark.
pub(crate) fn cut<'t>(text: &'t str, mark: &str) -> Option<(&'t str, &'t str)>
    ensures found { option_map (λ parts. (parts.0.now, parts.1.now)) result ≡ spec.cut mark.now text.now }
    ensures shorter { IfSome result (λ parts. length parts.1.now + length mark.now ≤ length text.now) }
{
    text.split_once(mark)
}

/// The text behind white space at its front.
pub(crate) fn past_white(text: &str) -> &str
    ensures rest { result.now ≡ spec.behind spec.is_white text.now }
    ensures shorter { length result.now ≤ length text.now }
{
    let bytes = text.as_bytes();
    let mut n = 0;
    while n < bytes.len() && is_white(bytes[n]) {
        n += 1;
    }
    &text[n..]
}

/// The text without white space at its end.
fn without_end(text: &str) -> &str
    ensures { result.now ≡ spec.without_end text.now }
{
    let bytes = text.as_bytes();
    let mut n = bytes.len();
    while 0 < n && is_white(bytes[n - 1]) {
        n -= 1;
    }
    &text[..n]
}

/// The text without white space around it.
pub(crate) fn trimmed(text: &str) -> &str
    ensures { result.now ≡ spec.trimmed text.now }
{
    without_end(past_white(text))
}
