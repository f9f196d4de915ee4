//! Plain idents: what a file name and a new UID hold as they are.

ghost use Rattle.std.specs.Prelude.{◌≡◌};
ghost use Rattle.std.specs.List.{list_all};
ghost use Rattle.item_text.specs.Plain.{is_name_byte, begins_with_dot, is_plain};

/// The most bytes of a plain ident.
const MAX_PLAIN: usize = 100;

fn is_name_byte(b: u8) -> bool
    ensures { result ≡ is_name_byte b }
{
    (b'a' <= b && b <= b'z')
        || ((b'A' <= b && b <= b'Z')
            || ((b'0' <= b && b <= b'9') || (b == b'_' || (b == b'-' || (b == b'.' || b == b'@')))))
}

fn begins_with_dot(bytes: &[u8]) -> bool
    ensures { result ≡ begins_with_dot bytes.now }
{
    match bytes {
        [] => false,
        [first, ..] => *first == b'.',
    }
}

fn are_name_bytes(bytes: &[u8]) -> bool
    ensures { result ≡ list_all is_name_byte bytes.now }
{
    bytes.iter().all(|b| is_name_byte(*b))
}

/// Whether an ident is plain: 1 to 100 bytes of ASCII letters, digits, `_`, `-`, `.` and `@`, the first of them no `.` (this project's
/// own rule). A plain ident is a file's stem as it stands, and may be given to an item as its UID. Takes no memory.
pub fn is_plain(ident: &str) -> bool
    ensures { result ≡ is_plain ident.now }
{
    let bytes = ident.as_bytes();
    0 < bytes.len()
        && (bytes.len() <= MAX_PLAIN && (!begins_with_dot(bytes) && are_name_bytes(bytes)))
}
