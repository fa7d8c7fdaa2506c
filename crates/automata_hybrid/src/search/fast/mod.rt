//! Follows cached transitions, which does not change what is cached. `follow` runs over them, and `self_loop` runs over
//! a row that leads back to itself, by the ranges of bytes that `loop_range` finds and `lanes` compares. Far into a
//! run, `leap` reads several bytes at once.

pub(crate) mod follow;
mod lanes;
pub(crate) mod leap;
mod loop_range;
pub(crate) mod run;
pub(crate) mod self_loop;
