// What a page holds: its header, and one entry for each operation of a job pool.
//
// A pool keeps a list of entries and fills them in as operations go on; a record page shows them.
// Entries hold plain numbers, so that they serve every job type. `words` has the words that calls,
// registers and job types are written with.
#![tactic(auto)]

pub mod entry;
pub mod header;
pub mod page;
pub mod words;
