//! Tests whose results come from outside, a file for each notion.
mod bits;
mod common;
mod powers;
mod reading;
mod slots;
mod tables;
mod values;
mod writing;
