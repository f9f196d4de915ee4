//! Bytes as a text.

ghost use Rattle.std.specs.Prelude.{◌≡◌, MatchBool, MatchOption};
ghost use Rattle.std.specs.Str.{IsUtf8};

use values::Text;

fn is_utf8(bytes: &[u8]) -> bool
    ensures { MatchBool result (IsUtf8 bytes.now) (¬ (IsUtf8 bytes.now)) }
{
    match str::from_utf8(bytes) {
        Ok(_) => true,
        Err(_) => false,
    }
}

/// The text of these bytes, where they are UTF-8. Takes no memory.
pub fn text_in(bytes: Vec<u8>) -> Option<Text>
    ensures { MatchOption result (¬ (IsUtf8 bytes.items)) (λ text. (text ≡ bytes.items) × IsUtf8 bytes.items) }
{
    if !is_utf8(bytes.as_slice()) {
        return None;
    }
    Some(Text::of(String::from_utf8(bytes).unwrap()))
}
