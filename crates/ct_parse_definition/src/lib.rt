//! Data definition, read from tokens exactly by its rules: ALTER DATABASE, ALTER TABLE, CREATE TABLE, TRUNCATE TABLE.
#![tactic(auto)]

mod databases;
mod tables;
mod trees;

pub use tables::{alter, create, truncate, type_name};
