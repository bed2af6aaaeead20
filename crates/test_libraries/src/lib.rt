//! Tests of the libraries, and nothing else. They stand here, and not with what they test, since a crate with tests is proved twice; and in one
//! crate, since each is loaded with all that stands below it.
//! Imported by nobody.
#![tactic(auto)]

#[cfg(test)]
mod builder;
#[cfg(test)]
mod decoder;
#[cfg(test)]
mod depth;
#[cfg(test)]
mod devices;
#[cfg(test)]
mod growth;
#[cfg(test)]
mod lines;
#[cfg(test)]
mod pages;
#[cfg(test)]
mod pieces;
#[cfg(test)]
mod same;
#[cfg(test)]
mod stack;
