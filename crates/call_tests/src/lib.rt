//! Tests of single calls that no run reaches: outside vectors, and each such call once with ample memory. They stand in
//! a crate of their own, since a crate that has tests is proved twice.
#![tactic(auto)]

#[cfg(test)]
mod fetches;
#[cfg(test)]
mod items;
#[cfg(test)]
mod jobs;
#[cfg(test)]
mod memory_folder;
#[cfg(test)]
mod memory_streams;
#[cfg(test)]
mod multistatus_replies;
#[cfg(test)]
mod names;
#[cfg(test)]
mod places;
#[cfg(test)]
mod real_folder;
#[cfg(test)]
mod std_streams;
#[cfg(test)]
mod vdir;
