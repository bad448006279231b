// The saved form of a table (document 02, requests iv and ix), for a job that is opened without its artwork: a length, a version, a count, and
// the numbers of each entry. The caller lends every buffer, and none is touched unless all is well. Neither function has a `requires`.

#![tactic(auto)]

pub mod reader;
mod sides;
pub mod writer;

pub use reader::read_table;
pub use writer::write_table;

// The bytes in front of the entries, and how many of them the length counts: it does not count itself.
const HEAD: usize = 9;

const COUNTED: usize = 5;

// The bytes of an entry.
const ENTRY: usize = 56;
