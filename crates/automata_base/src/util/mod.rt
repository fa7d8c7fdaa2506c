//! What automata and their searches share.

pub mod alphabet;
pub mod byte_set;
pub mod heap;
pub mod id_lists;
pub mod look;
pub mod pattern_set;
pub mod primitives;
pub mod search;
pub mod sparse_set;
pub mod start;
pub mod subject;
