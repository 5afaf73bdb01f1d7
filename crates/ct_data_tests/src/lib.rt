//! Tests of what no script shows: entries on databases made by hand, shared trees, row versions, the bytes of masks, and a query over rows made by hand. What a
//! script shows is a case of `ct_cases`. A crate with tests is proved twice, and each test function is proved, so they stand above all others and are few.
#![tactic(auto)]

#[cfg(test)]
mod database;
#[cfg(test)]
mod hold;
#[cfg(test)]
mod row_versions;
#[cfg(test)]
mod trees;
#[cfg(test)]
mod values;
