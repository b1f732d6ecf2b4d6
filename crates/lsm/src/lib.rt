// What a reader sees of runs and own writes that lie packed in one lent slice. Answers are places in that slice, so that the caller copies once: so are the
// ends of a run and of the own writes (`RunAt`, `OwnAt`, `Readable`), and a slice of their own would lose where they lie.
#![tactic(auto)]

pub mod answer;
pub mod bounds;
pub mod get;
pub mod overlay;
pub mod scan;
pub mod seek;
pub mod view;
pub mod walk;
