// What a page says: its header, and an entry for each operation.
use crate::entry::Entry;
use crate::header::Header;

#[derive(Clone, Copy)]
pub struct Page<'a> {
    pub header: Header,
    pub entries: &'a [Entry],
}
