//! Physical lines, and marks within one.

ghost use Rattle.std.specs.Prelude.{◌≡◌, ◌==◌, ◌<◌, ◌∷◌, [], true, not, take, length, position, IfSome, MatchOption};
ghost use Rattle.std.specs.List.{list_all};
ghost use Rattle.std.specs.Option.{option_copied};
ghost use Rattle.std.specs.Str.Lines.{lines, strip_carriage_return};
ghost use Rattle.config_ini.specs.Lines as spec;

/// A space or a tab.
pub(crate) fn is_blank(byte: u8) -> bool
    ensures { result ≡ spec.is_blank byte }
{
    byte == b' ' || byte == b'\t'
}

pub(crate) fn are_blank(bytes: &[u8]) -> bool
    ensures { result ≡ list_all spec.is_blank bytes.now }
{
    bytes.iter().all(|b| is_blank(*b))
}

pub(crate) fn first_blank(bytes: &[u8]) -> Option<usize>
    ensures first { result ≡ position spec.is_blank bytes.now }
    ensures within { IfSome result (λ at. at < length bytes.now) }
{
    bytes.iter().position(|b| is_blank(*b))
}

pub(crate) fn first_bracket(bytes: &[u8]) -> Option<usize>
    ensures first { result ≡ position (λ b. b == 93) bytes.now }
    ensures within { IfSome result (λ at. at < length bytes.now) }
{
    bytes.iter().position(|b| *b == b']')
}

fn first_feed(bytes: &[u8]) -> Option<usize>
    ensures first { result ≡ position (λ b. b == 10) bytes.now }
    ensures within { IfSome result (λ at. at < length bytes.now) }
{
    bytes.iter().position(|b| *b == b'\n')
}

fn without_return(line: &[u8]) -> &[u8]
    ensures { result.now ≡ strip_carriage_return line.now }
{
    if 0 < line.len() && line[line.len() - 1] == b'\r' {
        let (front, _) = line.split_at(line.len() - 1);
        front
    } else {
        line
    }
}

/// What stands behind the byte at this place.
fn behind(bytes: &[u8], at: usize) -> &[u8]
    requires { at < length bytes.now }
    ensures { result.now ≡ spec.behind at bytes.now }
{
    let (_, rest) = bytes.split_at(at + 1);
    rest
}

/// The first physical line of a text, and what stands behind it.
pub(crate) fn cut_line(bytes: &[u8]) -> Option<(&[u8], &[u8])>
    ensures { MatchOption result (bytes.now ≡ []) (λ x. (lines bytes.now ≡ x.0.now ∷ lines x.1.now) × (length x.1.now < length bytes.now)) }
{
    match first_feed(bytes) {
        Some(at) => {
            let (line, _) = bytes.split_at(at);
            Some((without_return(line), behind(bytes, at)))
        }
        None => {
            if bytes.is_empty() {
                None
            } else {
                Some((bytes, b""))
            }
        }
    }
}

/// The first byte other than space and tab.
fn first_visible(bytes: &[u8]) -> Option<u8>
    ensures { result ≡ spec.first_visible bytes.now }
{
    for byte in bytes {
        if !is_blank(*byte) {
            return Some(*byte);
        }
    }
    None
}

/// A blank line or a comment.
pub(crate) fn is_passed(line: &[u8]) -> bool
    ensures { result ≡ spec.is_passed line.now }
{
    match first_visible(line) {
        Some(byte) => byte == b'#' || byte == b';',
        None => true,
    }
}
