//! Status lines (RFC 9112, section 4).

ghost use Rattle.std.specs.Prelude.{◌≡◌};
ghost use Rattle.std.specs.Char.{is_ascii_digit};
ghost use Rattle.multistatus.specs.Rows as spec;
ghost use Rattle.multistatus.specs.Texts.{front, behind};
ghost use Rattle.multistatus.specs.Steps.{Gives};

use crate::MultiError;
use crate::tags::behind_mark;

/// The code of a status line.
#[tactic(auto, unfolding(crate::specs::Rows::status_code))]
pub(crate) fn status_code(line: &str) -> Result<u16, MultiError>
    ensures { Gives (λ code. code) result (spec.status_code line.now) }
{
    let version = behind_mark(line, "HTTP/")?;
    let dot = behind_digits(version)?;
    let minor = behind_mark(dot, ".")?;
    let space = behind_digits(minor)?;
    let code = behind_mark(space, " ")?;
    three_digits(code.as_bytes())
}

/// The digits at the front, and what follows them.
fn digits_at(text: &str) -> (&str, &str)
    ensures digits { result.0.now ≡ front is_ascii_digit text.now }
    ensures rest { result.1.now ≡ behind is_ascii_digit text.now }
{
    let bytes = text.as_bytes();
    let mut n = 0;
    while n < bytes.len() && is_digit(bytes[n]) {
        n += 1;
    }
    text.split_at(n)
}

fn is_digit(byte: u8) -> bool
    ensures { result ≡ is_ascii_digit byte }
{
    byte.is_ascii_digit()
}

/// What follows digits, of which there is at least one.
#[tactic(auto, unfolding(crate::specs::Rows::behind_digits))]
fn behind_digits(text: &str) -> Result<&str, MultiError>
    ensures { Gives (λ rest. rest.now) result (spec.behind_digits text.now) }
{
    let (digits, rest) = digits_at(text);
    match digits.as_bytes() {
        [] => Err(MultiError::Bad),
        [_, ..] => Ok(rest),
    }
}

/// Three digits, then nothing or a space and any text.
fn three_digits(bytes: &[u8]) -> Result<u16, MultiError>
    ensures { Gives (λ code. code) result (spec.three_digits bytes.now) }
{
    match bytes {
        [a, b, c] => number_of_digits(*a, *b, *c),
        [a, b, c, b' ', ..] => number_of_digits(*a, *b, *c),
        _ => Err(MultiError::Bad),
    }
}

/// The number of three digits.
fn number_of_digits(a: u8, b: u8, c: u8) -> Result<u16, MultiError>
    ensures { Gives (λ code. code) result (spec.number_of_digits a b c) }
{
    if !(is_digit(a) && is_digit(b) && is_digit(c)) {
        return Err(MultiError::Bad);
    }
    Ok(u16::from(a - b'0') * 100 + u16::from(b - b'0') * 10 + u16::from(c - b'0'))
}
