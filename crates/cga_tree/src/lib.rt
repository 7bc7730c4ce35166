//! A kept tree in words that hold for nodes of any content: who stands below whom, and what the tree becomes where one
//! node's children are replaced.
//!
//! It must not know what a node holds or how nodes are kept. It holds definitions alone, and computes nothing.
//!
//! What callers get wrong: a number names a node of one view; under the same number of another view there may be none,
//! or another one.
#![tactic(auto)]
