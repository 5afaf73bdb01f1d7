//! Tests of what no script shows: runs with faults, the outside, and replies that no statement gives yet. What a script shows is a case of `ct_cases`; tokens and trees
//! are rows of `ct_trees`. A crate with tests is proved twice, and each test function is proved, so they stand above all others and are few.
#![tactic(auto)]

#[cfg(test)]
mod hold;
#[cfg(test)]
mod outside;
#[cfg(test)]
mod printing;
#[cfg(test)]
mod runs;
