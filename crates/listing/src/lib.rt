// Document 01's listing: the blocks of an input in file order, as entries of a table. One walk serves every use of it: it takes a room
// in entries beside the lent table, stores an entry only where the table reaches, and answers one question about the entries.

#![tactic(auto)]

mod head;
mod lister;
mod question;
mod walker;

pub use head::judge;
pub use lister::{BEYOND, count, list, list_up_to, seek};
pub use question::{Found, Question};
pub use walker::Out;
