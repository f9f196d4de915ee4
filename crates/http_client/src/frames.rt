//! Line ends and empty lines.

ghost use Rattle.std.specs.Prelude.{◌≡◌, ◌≤◌, length, IfSome};
ghost use Rattle.http_client.specs.Frames.{line_end_len, empty_line_end};

/// The length of the line end at the front, LF or CR LF, if there is one.
pub(crate) fn line_end_len(bytes: &[u8]) -> Option<usize>
    ensures value { result ≡ line_end_len bytes.now }
    ensures within { IfSome result (λ len. len ≤ length bytes.now) }
{
    match bytes {
        [b'\n', ..] => Some(1),
        [b'\r', b'\n', ..] => Some(2),
        _ => None,
    }
}

/// The length of the bytes up to and including the first empty line, if there is one.
pub(crate) fn empty_line_end(bytes: &[u8]) -> Option<usize>
    ensures value { result ≡ empty_line_end bytes.now }
    ensures within { IfSome result (λ end. end ≤ length bytes.now) }
{
    for at in 0..bytes.len() {
        if bytes[at] != b'\n' {
            continue;
        }
        match line_end_len(&bytes[at + 1..]) {
            None => {}
            Some(len) => return Some(at + 1 + len),
        }
    }
    None
}
