//! The normal form of an item, and its fingerprint.

ghost use Rattle.std.specs.Prelude.{◌≡◌, map};
ghost use Rattle.sha2.specs.Sha256.{sha256};
ghost use Rattle.item_text.specs.Components.{upper};
ghost use Rattle.item_text.specs.NormalForm as form;

use crate::fp::Fp;
use crate::words::is_word;
use sha2::{Digest, Sha256};

/// Whether the normal form drops the properties of a name.
#[tactic(auto, unfolding(crate::specs::NormalForm::is_dropped))]
pub(crate) fn is_dropped(name: &str) -> bool
    ensures { result ≡ form.is_dropped (upper name.now) }
{
    is_word(name, "PRODID")
        || is_word(name, "METHOD")
        || is_word(name, "REV")
        || is_word(name, "LAST-MODIFIED")
        || is_word(name, "CREATED")
        || is_word(name, "DTSTAMP")
        || is_word(name, "UID")
        || is_word(name, "X-RADICALE-NAME")
        || is_word(name, "X-WR-CALNAME")
}

fn put_in_order(lines: &mut Vec<&str>)
    ensures { map (λ x. x.now) lines.new.items ≡ form.in_order (map (λ x. x.now) lines.old.items) }
{
    lines.sort_unstable();
}

fn digest_of(lines: &[&str]) -> [u8; 32]
    ensures { result ≡ sha256 (form.joined (map (λ x. x.now) lines.now)) }
{
    let mut hasher = Sha256::new();
    let mut between: &[u8] = b"";
    'lines: for line in lines {
        hasher.update(between);
        hasher.update(*line);
        between = b"\r\n";
    }
    hasher.finalize()
}

/// The fingerprint of a normal form of these lines, which stand in any order.
pub(crate) fn fingerprint(lines: &mut Vec<&str>) -> Fp
    ensures { result.0 ≡ sha256 (form.joined (form.in_order (map (λ x. x.now) lines.old.items))) }
{
    put_in_order(lines);
    Fp(digest_of(lines.as_slice()))
}
