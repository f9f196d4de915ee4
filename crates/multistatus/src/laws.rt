//! What holds of every document and every multistatus, as functions without a body.

ghost use Rattle.std.specs.Prelude.{◌≡◌, ◌<◌, ℕ, List, length, Some};
ghost use Rattle.multistatus.specs.Documents.{HasTree};
ghost use Rattle.multistatus.specs.Grammar.{IsToken};
ghost use Rattle.multistatus.specs.Multistatus.{HasRows};
ghost use Rattle.multistatus.specs.Namespaces.{Tree};
ghost use Rattle.multistatus.specs.Tokens.{token_at};
ghost use Rattle.multistatus.specs.declared.rows.Response.{Response};
ghost use Rattle.multistatus.specs.declared.tokens.Token.{Token};

/// Law: bytes have the rows of one list at most.
pub fn rows_are_unique()
    ensures { (bytes : List ℕ) (one other : List Response) → HasRows bytes one → HasRows bytes other → one ≡ other }
{}

/// Law: bytes are a document of one tree at most.
pub fn trees_are_unique()
    ensures { (bytes : List ℕ) (one other : Tree) → HasTree bytes one → HasTree bytes other → one ≡ other }
{}

/// Law: bytes are one token at most, with one rest, by the grammar.
pub fn tokens_are_unique()
    ensures { (bytes rest other_rest : List ℕ) (one other : Token) → IsToken one bytes rest → IsToken other bytes other_rest → (one ≡ other) × (rest ≡ other_rest) }
{}

/// Law: what the reader finds at the front of bytes is the token of the grammar, and is found where there is one.
pub fn tokens_are_the_grammar()
    ensures found { (bytes rest : List ℕ) (token : Token) → IsToken token bytes rest → token_at bytes ≡ Some (token, rest) }
    ensures is_token { (bytes rest : List ℕ) (token : Token) → 0 < length bytes → token_at bytes ≡ Some (token, rest) → IsToken token bytes rest }
{}
