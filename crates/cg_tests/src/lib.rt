//! Tests of what no program reaches: payloads and their faults, uses of a desk, streams of lines, trails that are not
//! lawful, and threads over one engine. A crate with tests is proved twice, so they stand here, above the libraries, and
//! those are proved once. The crate has nothing else: no other crate uses it.
#![tactic(auto)]

#[cfg(test)]
mod actor;
#[cfg(test)]
mod desk;
#[cfg(test)]
mod engine;
#[cfg(test)]
mod payload;
#[cfg(test)]
mod storm;
#[cfg(test)]
mod stream;
#[cfg(test)]
mod trail;
