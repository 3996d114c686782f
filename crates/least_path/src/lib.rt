//! Least paths over weighted steps, with a tie rule: what a path and its cost are, which path is the least, and
//! what known costs and a greedy walk may conclude. Nothing here runs: the crates above cite its definitions
//! and lemmas, over steps of their own.
#![tactic(auto)]
