//! Tests of what no clause and no row says of an endpoint: the texts of its errors. They stand in a crate of their own,
//! over the little that errors need, since a crate with tests is proved twice.
#![tactic(auto)]

#[cfg(test)]
mod tests;
