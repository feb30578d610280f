//! Tests of what no contract states about the libraries: that a call can succeed at all, and what
//! is taken of readers that fail or never end.
//!
//! They share this one crate, because a crate that has tests is proved a second time for them. What
//! the built programs and the page's module show is tested on these (docs/testing.md).
#![tactic(auto)]

#[cfg(test)]
mod asserts;
#[cfg(test)]
mod checking;
#[cfg(test)]
mod client;
#[cfg(test)]
mod endless;
#[cfg(test)]
mod limits;
#[cfg(test)]
mod records;
#[cfg(test)]
mod streams;
