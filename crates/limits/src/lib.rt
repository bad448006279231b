// The limits of document 01, "What is read and what is only listed", of which document 02, request ix, raised input, sides and plane.
// specs/Limits.antt says the same numbers to the proofs.
#![tactic(auto)]

// Bytes of an input.
pub const INPUT: usize = 1073741824;

// Sides of an image, of a saved rectangle and of a canvas, in pixels.
pub const SIDE: u32 = 30000;

// Layers of an image.
pub const LAYERS: u32 = 64;

// Coordinates of a corner.
pub const LEAST: i32 = -32768;

pub const MOST: i32 = 32767;

// Bytes of a plane.
pub const PLANE: usize = 900000000;
