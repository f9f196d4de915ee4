//! What a run did.

use crate::places::Places;
use std::collections::BTreeMap;

/// What became of a run.
#[derive(Drop)]
pub struct Ran {
    pub exit: u8,
    pub out: Vec<u8>,
    pub err: Vec<u8>,
    pub places: Places,
    /// What happened at each place, where the devices tell it.
    pub trails: Option<BTreeMap<String, Trail>>,
    /// The words of each program that was run, in order, where that is told.
    pub programs: Option<Vec<Vec<String>>>,
}

/// The names of the files that a run wrote or removed, and of those that it read, in order.
#[derive(Drop)]
pub struct Trail {
    pub writes: Vec<String>,
    pub reads: Vec<String>,
}
