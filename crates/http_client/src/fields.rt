//! The header fields of a reply, and the values of those of a name.

ghost use Rattle.std.specs.Prelude.{◌≡◌, true, drop, option_map};
ghost use Rattle.std.specs.Iterator.{YieldsFirstRef};
ghost use Rattle.std.specs.List.{list_all};
ghost use Rattle.std.specs.Char.{is_ascii_digit};
ghost use Rattle.std.specs.Str.{bytes_eq, is_utf8, str_eq_ignore_ascii_case};
ghost use Rattle.std.specs.Str.Parse.{digits_value};
ghost use Rattle.http_client.specs.Heads.{values_of, is_length, first_coding};

use std::marker::Model;

/// The most digits of a length.
const MAX_DIGITS: usize = 18;

/// A header field of a reply: its name as sent, and its value without white space around it. Both
/// are lent from the reply's bytes. Contracts see the pair of the two.
#[derive(Debug, Drop)]
pub struct Header<'a> {
    name: &'a str,
    value: &'a [u8],
}

impl<'a> Model for Header<'a> {
    ghost use Rattle.std.specs.Prelude.{ℕ, List};

    ghost Value = { List ℕ × List ℕ };

    ghost view = { λ h. (h.name.now, h.value.now) };
}

impl<'a> Header<'a> {
    pub(crate) fn of(name: &'a str, value: &'a [u8]) -> Header<'a>
        ensures { result ≡ (name.now, value.now) }
    {
        Header { name, value }
    }

    pub fn name(&self) -> &'a str
        ensures { result.now ≡ self.now.0 }
    {
        self.name
    }

    pub fn value(&self) -> &'a [u8]
        ensures { result.now ≡ self.now.1 }
    {
        self.value
    }
}

/// The values of the fields of a name, one after another, lent from the reply's bytes. Contracts
/// see the list of those that are left.
#[derive(Drop)]
pub struct ValuesOf<'r, 'a> {
    fields: &'r [Header<'a>],
    name: &'r str,
    /// How many fields were looked at.
    at: usize,
}

impl<'r, 'a> Model for ValuesOf<'r, 'a> {
    ghost use Rattle.std.specs.Prelude.{ℕ, List, drop};
    ghost use Rattle.http_client.specs.Heads.{values_of};

    ghost Value = { List (List ℕ) };

    ghost view = { λ v. values_of v.name.now (drop v.at v.fields.now) };
}

impl<'r, 'a> Iterator for ValuesOf<'r, 'a> {
    ghost use Rattle.std.specs.Iterator.{YieldsFirstRef, item_count};

    type Item = &'a [u8];

    ghost next_gives = { YieldsFirstRef (λ left. left) };

    ghost remaining = { item_count (λ left. left) };

    fn next(&mut self) -> Option<&'a [u8]> {
        let found = first_named(self.fields, self.name, self.at);
        self.at = found.1;
        found.0
    }
}

/// The values of the fields of a name, in any ASCII case, in order.
pub(crate) fn values_of<'r, 'a>(fields: &'r [Header<'a>], name: &'r str) -> ValuesOf<'r, 'a>
    ensures { result ≡ values_of name.now fields.now }
{
    ValuesOf {
        fields,
        name,
        at: 0,
    }
}

/// The value of the first field of a name from a place on, if there is one, and the place behind it.
fn first_named<'a>(fields: &[Header<'a>], name: &str, from: usize) -> (Option<&'a [u8]>, usize)
    ensures { YieldsFirstRef (λ at. values_of name.now (drop at fields.now)) from result.0 result.1 }
{
    for at in from..fields.len() {
        let field = &fields[at];
        if is_same(field.name().as_bytes(), name) {
            return (Some(field.value()), at + 1);
        }
    }
    (None, fields.len())
}

/// Whether bytes are a text, in any ASCII case.
pub(crate) fn is_same(bytes: &[u8], text: &str) -> bool
    ensures { result ≡ str_eq_ignore_ascii_case bytes.now text.now }
{
    bytes.eq_ignore_ascii_case(text.as_bytes())
}

/// Whether each value is UTF-8.
pub(crate) fn are_texts(values: ValuesOf) -> bool
    ensures { result ≡ list_all is_utf8 values.entry }
{
    for value in values {
        if !is_text(value) {
            return false;
        }
    }
    true
}

/// Whether bytes are UTF-8.
fn is_text(bytes: &[u8]) -> bool
    ensures { result ≡ is_utf8 bytes.now }
{
    match std::str::from_utf8(bytes) {
        Ok(_) => true,
        Err(_) => false,
    }
}

/// Whether each value is this one.
pub(crate) fn are_equal(first: &[u8], values: ValuesOf) -> bool
    ensures { result ≡ list_all (bytes_eq first.now) values.entry }
{
    for value in values {
        if first != value {
            return false;
        }
    }
    true
}

/// Whether a value is a length: 1 to 18 decimal digits.
pub(crate) fn is_length(value: &[u8]) -> bool
    ensures { result ≡ is_length value.now }
{
    !value.is_empty() && value.len() <= MAX_DIGITS && are_digits(value)
}

/// Whether each byte is a decimal digit.
fn are_digits(value: &[u8]) -> bool
    ensures { result ≡ list_all is_ascii_digit value.now }
{
    for byte in value {
        if !byte.is_ascii_digit() {
            return false;
        }
    }
    true
}

/// The number that a length writes.
pub(crate) fn length_in(value: &[u8]) -> u64
    requires { is_length value.now ≡ true }
    ensures { result ≡ digits_value 10 value.now }
{
    let mut number: u64 = 0;
    for byte in value {
        number = number * 10 + u64::from(*byte - b'0');
    }
    number
}

/// The first value that isn't `identity`, of values that are UTF-8.
pub(crate) fn first_coding<'a>(values: ValuesOf<'_, 'a>) -> Option<&'a [u8]>
    ensures { option_map (λ coding. coding.now) result ≡ first_coding values.entry }
{
    for value in values {
        if !is_same(value, "identity") {
            return Some(value);
        }
    }
    None
}
