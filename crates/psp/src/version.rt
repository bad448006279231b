// The version of the library that is linked: include/psp.h has the same number, and a program that compares the two sees a header and an
// archive that do not belong together. specs/Version.antt says the same number to the proofs.

// 0.9.0: major times 10,000, minor times 100, patch.
pub const VERSION: u32 = 900;
