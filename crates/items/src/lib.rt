// Items in fifteen columns: patches and jobs, read and written.
// For: whatever moves items through a ring and prints them; the trait `ItemKind` is all that the crates above know.
// Promises: what an item writes reads back as that item, columns that are accepted are those that the item writes, and the
// first faulty field from the left is told.
// Rests on: columns.
#![tactic(auto)]

mod item;
mod job;
mod patch;

pub use item::{ITEM_WIDTH, ItemKind};
pub use job::Job;
pub use patch::Patch;

#[cfg(test)]
mod tests;
