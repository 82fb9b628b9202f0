// A timeline of a pool: its operations processor by processor, and then drawn as lanes.
//
// `listing` puts the operations, a line each. `scale` says which column of a lane a stamp lies on,
// `lane` draws the lane of a processor, and `timeline` puts all of it into a sink. `report::report` goes
// from the bytes of a record page to the bytes that somebody sees.
#![tactic(auto)]

pub mod lane;
pub mod listing;
pub mod report;
pub mod scale;
pub mod timeline;
