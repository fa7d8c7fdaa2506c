//! What the kit's parser and compiler say of a pattern, in the words of this library: definitions and lemmas alone.
//!
//! The kit proves that its parser reads a text as a tree, and that its compiler's NFA finds what the tree means. This
//! crate joins the NFAs of several patterns to one NFA of the library (`specs/Translated.antt`), and proves that its
//! ordered paths find what the alternation of the patterns means (`proofs/Means.antt`). `patterns` has the code.
#![tactic(auto)]
