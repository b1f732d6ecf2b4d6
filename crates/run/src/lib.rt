// Runs as bytes: one record at an offset, the verdict on a whole image, packed records counted, sought and written.
#![tactic(auto)]

pub mod record; // record.rt: one record at an offset, checked, and the order of versions at their places
pub mod places; // places.rt: the places of packed records, one after the other
pub mod tally; // tally.rt: how many records there are, and their earliest and latest timestamps
pub mod image; // image.rt: the check of packed records, and the verdict on an image
pub mod write; // write.rt: a record, an image's head, and a packed run frozen to an image
pub mod reader; // reader.rt: a run reader that holds the run's bytes and its place
pub mod seek; // seek.rt: the first record at or after a version

// Why an image is not good: 10, it is cut, overlong, unsorted, with an empty key or a wrong mark; 11, its version is not 1.
#[derive(Clone, Copy, Debug, PartialEq, Eq)]
pub enum BadImage {
    Broken,
    Foreign,
}
