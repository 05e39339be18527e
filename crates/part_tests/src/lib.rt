//! Tests of the crates below, through their public items: what no clause of theirs says and no case reaches.
//!
//! Segments and the file of a commit written out byte for byte, a block and the images of a stop worked by hand, and calls that no
//! line of a request reaches yet: those of a pool of extents, of fields of bytes, of disks in memory and of the real edges. It stands
//! on the crates that it tests, and no crate on it; no contract is of use to others. Begin with `segment_bytes.rt`. A crate that has
//! tests is proved twice, so they are all here; what a line can ask is a case of `scenarios`, and costs no proof.
#![tactic(auto)]

#[cfg(test)]
mod adapters;
#[cfg(test)]
mod edges;
#[cfg(test)]
mod extents;
#[cfg(test)]
mod fields;
#[cfg(test)]
mod scopes;
#[cfg(test)]
mod segment_bytes;
#[cfg(test)]
mod stops;
#[cfg(test)]
mod store_file;
