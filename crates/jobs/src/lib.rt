// Job types: what a firing desk hands out before a show.
//
// A job is one of a job type. On a page a job stands as two numbers under the two key names of its
// type. `job` has the trait that every job type meets; `check` and `span` are the two types there are.
#![tactic(auto)]

pub mod check;
pub mod job;
pub mod span;
