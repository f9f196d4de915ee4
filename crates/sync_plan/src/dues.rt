//! The words of the table: steps, and what an ident is due.

use crate::report::Side;
use item_text::Fp;

/// What a run does for one ident.
#[derive(Clone, Copy, Debug, PartialEq, Eq)]
pub enum Step {
    /// Neither side has the item: its row goes.
    Forget,
    /// Both sides have it in one version: its row says so.
    Keep,
    /// To this side, which lacks it.
    CopyTo(Side),
    /// Over this side's older version, or the one that the rule lets lose.
    WriteOver(Side),
    /// From this side, since it is gone from the other.
    RemoveFrom(Side),
    /// Both sides changed, and a command says what becomes of it.
    HandOver,
    /// Both sides changed, and nothing is written.
    Conflict,
    /// This side is read-only, and would be written.
    Held(Side),
}

/// What both sides and the status are to hold of one ident.
#[derive(Clone, Copy, Debug, PartialEq, Eq)]
pub enum Due {
    Gone,
    Version(Fp),
    Unsettled,
}
