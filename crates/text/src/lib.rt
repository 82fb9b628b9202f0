// Text of pairs `key=value`, one space between pairs and a newline after the last.
//
// `reader` and `cursor` read pair by pair, `figures` the numbers, `spelled` the words of a closed list;
// `whole_text` has what is asked of a whole text and where in it a fault lies. `sink` and `put` write: a
// page is put into a sink that counts, and then, if it fits, into one that fills a lent buffer. `fault`
// has the refusals.
#![tactic(auto)]

pub mod cursor;
pub mod ends;
pub mod fault;
pub mod fault_line;
pub mod figures;
pub mod put;
pub mod reader;
pub mod sink;
pub mod spelled;
pub mod whole_text;
