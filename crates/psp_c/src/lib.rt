// The library as C sees it (include/psp.h): each entry point over numbers and lent slices, exported under its C name. None has a `requires`:
// the function behind it tests its own arguments, and an answer comes in document 01's numbers.

#![tactic(auto)]

mod asked;
mod at;
mod filed;
mod placing;
mod planes;
mod recorded;
mod shown;
mod tabled;
mod version;
