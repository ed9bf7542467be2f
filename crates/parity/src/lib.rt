// What sets A and B tell beside the digits: the letters of six characters, and the rows of letters that each stand for one digit more.
#![tactic(auto)]

pub mod letters;
pub mod rows;
