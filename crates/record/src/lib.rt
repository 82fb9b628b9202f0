// The record page: which processor had which job, from when, until when.
//
// A page is a header line and a line for each operation. `read::read_page` takes a text and fills a
// list of entries; `write::write_page` takes a page of both and fills a buffer. Each accepts
// exactly what the other makes. `refusal` says why the writer refuses; the other modules are
// the parts of the two calls, generic in the job type.
#![tactic(auto)]

pub mod head;
pub mod lines;
pub mod ranges;
pub mod read;
pub mod read_lines;
pub mod refusal;
pub mod write;
