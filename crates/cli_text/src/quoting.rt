//! Names in quotes.

ghost use Rattle.std.specs.Prelude.{◌≡◌, string_bytes, IfOk};
ghost use Rattle.cli_text.specs.Quoting.{in_quotes};

use serde_json::Value;
use std::alloc::{AllocError, Global};

/// A name as a JSON string.
#[tactic(auto, unfolding(crate::specs::Quoting::in_quotes))]
pub fn in_quotes(alloc: Global, name: &str) -> Result<String, AllocError>
    ensures { IfOk result (λ t. string_bytes t ≡ in_quotes name.now) }
{
    Value::from(String::from_str(alloc, name)?).to_string(alloc)
}
