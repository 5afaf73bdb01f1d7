//! The law that the text literals of what is read from a text of code points are of code points.
#![tactic(auto)]

mod laws;

pub use laws::parsed_are_of_code_points;
