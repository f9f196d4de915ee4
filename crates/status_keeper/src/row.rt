//! The rows of a status.

use item_text::Fp;
use values::Text;

/// What both sides last held under an ident: a version, and per side an href and an etag.
#[derive(Debug, Drop)]
pub struct Row {
    pub ident: Text,
    pub fp: Fp,
    pub href_a: Option<Text>,
    pub etag_a: Option<Text>,
    pub href_b: Option<Text>,
    pub etag_b: Option<Text>,
}
