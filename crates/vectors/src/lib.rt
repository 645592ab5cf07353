//! Tests over many cases, in a crate of their own, since a crate with tests is proved twice.

#![tactic(auto)]

#[cfg(test)]
mod ends;
#[cfg(test)]
mod rows;
