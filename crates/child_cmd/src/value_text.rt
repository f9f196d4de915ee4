//! The value of what was fetched.

ghost use Rattle.std.specs.Prelude.{◌≡◌, take};
ghost use Rattle.child_cmd.specs.Values.{is_line_end, value_of, ValueText};

use crate::fetch_error::FetchError;
use crate::utf8::text_in;
use values::Text;

fn is_line_end(byte: u8) -> bool
    ensures { result ≡ is_line_end byte }
{
    byte == b'\n' || byte == b'\r'
}

/// How many bytes stand before all LF and CR at the end.
fn value_len(bytes: &[u8]) -> usize
    ensures { take result bytes.now ≡ value_of bytes.now }
{
    let mut end = bytes.len();
    'ends: while end > 0 {
        if !is_line_end(bytes[end - 1]) {
            return end;
        }
        end -= 1;
    }
    0
}

/// The value of what was fetched, which takes no memory.
pub fn value_text(mut bytes: Vec<u8>) -> Result<Text, FetchError>
    ensures { ValueText bytes.items result }
{
    let len = value_len(bytes.as_slice());
    bytes.truncate(len);
    match text_in(bytes) {
        Some(value) => Ok(value),
        None => Err(FetchError::Text),
    }
}
