// Code 128: the symbol characters and the check.
#![tactic(auto)]

pub mod characters;
pub mod check;
mod tables;
