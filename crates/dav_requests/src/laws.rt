//! What follows of the bodies.

ghost use Rattle.std.specs.Prelude.{ℕ, List};
ghost use Rattle.dav_requests.specs.Laws.{IsReadBack};

/// A text that is escaped into a body begins no tag there, and XML's rules read it as it was (XML
/// 1.0, sections 2.4, 2.11 and 4.6).
pub fn escaped_texts_are_read_back()
    ensures { (text : List ℕ) → IsReadBack text }
{}
