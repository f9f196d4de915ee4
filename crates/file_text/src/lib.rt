//! The text of a file of many items: split into its items, and the file that items are joined to.
#![tactic(auto)]

mod children;
mod folds;
mod join;
mod laws;
mod lengths;
mod marks;
mod opened;
mod parts;
mod split;
mod written;

pub use folds::push_folded;
pub use join::join_file;
pub use laws::{
    folded_lines_are_short, folded_lines_are_unique, folded_lines_unfold, items_are_files,
    joined_files_are_split_again, marks_tell_the_item, written_lines_are_read,
    written_lines_tell_the_item,
};
pub use split::{MAX_FILE, split_file};

#[cfg(test)]
mod tests;
