// The merge of runs that lie packed in one slice: a heap of at most 17 cursors, each over what is left of one run.
#![tactic(auto)]

mod build;
pub mod heap;
mod sift;
mod step;
