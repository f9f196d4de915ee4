//! Fingerprints, and their text in hex.

ghost use Rattle.std.specs.Prelude.{◌≡◌, IfOk, length};
ghost use Rattle.std.specs.List.{list_all};
ghost use Rattle.std.specs.Option.{option_map};
ghost use Rattle.hex.specs.Hex.{encode_lower};
ghost use Rattle.item_text.specs.Fingerprints as spec;

use hex::FromHex;
use std::alloc::{AllocError, Global};
use values::Text;

/// The fingerprint of an item's normal form: its version.
#[derive(Clone, Copy, Debug, PartialEq, Eq)]
pub struct Fp(pub [u8; 32]);

/// A fingerprint as 64 hex digits in lower case.
pub fn fp_hex(alloc: Global, fp: Fp) -> Result<Text, AllocError>
    ensures value { IfOk result (λ text. text ≡ encode_lower fp.0) }
    ensures reads_back { IfOk result (λ text. spec.fingerprint_of_hex text ≡ Some fp.0) }
{
    let Fp(bytes) = fp;
    hex_of(alloc, bytes.as_slice())
}

fn hex_of(alloc: Global, bytes: &[u8]) -> Result<Text, AllocError>
    requires { length bytes.now ≡ 32 }
    ensures value { IfOk result (λ text. text ≡ encode_lower bytes.now) }
    ensures reads_back { IfOk result (λ text. spec.fingerprint_of_hex text ≡ Some bytes.now) }
{
    Ok(Text::of(hex::encode(alloc, bytes)?))
}

/// The fingerprint that a text of 64 hex digits in lower case is; `None` for every other text.
#[tactic(auto, unfolding(crate::specs::Fingerprints::fingerprint_of_hex))]
pub fn fp_of_hex(text: &str) -> Option<Fp>
    ensures { option_map (λ fp. fp.0) result ≡ spec.fingerprint_of_hex text.now }
{
    if !is_fingerprint(text.as_bytes()) {
        return None;
    }
    match <[u8; 32] as FromHex>::from_hex(text) {
        Ok(bytes) => Some(Fp(bytes)),
        Err(_) => None,
    }
}

#[tactic(auto, unfolding(crate::specs::Fingerprints::is_fingerprint))]
fn is_fingerprint(text: &[u8]) -> bool
    ensures { result ≡ spec.is_fingerprint text.now }
{
    text.len() == 64 && all_lower_digits(text)
}

fn all_lower_digits(text: &[u8]) -> bool
    ensures { result ≡ list_all spec.is_lower_digit text.now }
{
    text.iter().all(|b| is_lower_digit(*b))
}

fn is_lower_digit(byte: u8) -> bool
    ensures { result ≡ spec.is_lower_digit byte }
{
    (48 <= byte && byte <= 57) || (97 <= byte && byte <= 102)
}
