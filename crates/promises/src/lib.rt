// The demands (specs/, proofs/) speak of the listing, of the plane reader, of the packer and of the canvas together, and these crates do not
// know each other. There is no function here.

#![tactic(auto)]
