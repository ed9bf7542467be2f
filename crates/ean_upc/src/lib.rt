// What the symbols of the EAN/UPC family share: digits in sets A, B and C, and halves scanned and drawn.
#![tactic(auto)]

pub mod drawing;
pub mod scanning;
pub mod tables;
