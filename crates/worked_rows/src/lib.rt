// Document 01's worked values that are proved, the P rows, as one table: see specs/ and proofs/. There is no function here.

#![tactic(auto)]
