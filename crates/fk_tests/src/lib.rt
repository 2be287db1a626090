//! Tests of the other crates, by their public calls alone: that what may want memory does succeed
//! with ample memory, that texts are those written out by hand, and what stands on real readers,
//! writers and clocks.
#![tactic(auto)]

#[cfg(test)]
mod base;
#[cfg(test)]
mod live;
#[cfg(test)]
mod machines;
#[cfg(test)]
mod run;
#[cfg(test)]
mod services;
#[cfg(test)]
mod tables;
#[cfg(test)]
mod text;
#[cfg(test)]
mod tree;
#[cfg(test)]
mod wire;
