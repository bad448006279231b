// What the library has beside its parts: listing into a lent slice of records, and its version. Neither has a `requires`. Crate psp_c exports
// both to C, beside the entry points of the crates below.

#![tactic(auto)]

mod recorded;
mod version;

pub use recorded::list_records;
pub use version::VERSION;
