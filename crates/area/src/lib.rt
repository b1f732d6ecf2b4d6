// The runs as they lie in the lent state: their part of the state check, the cursors over them for a read, the clock at opening, and freezing.
#![tactic(auto)]

pub mod check; // check.rt: the active run, the run area, and the rule that ties them together
pub mod cursors; // cursors.rt: the cursors over the runs, for a read
pub mod opening; // opening.rt: the opening images, and the clock at opening
pub mod freezing; // freezing.rt: the active run frozen to an image
