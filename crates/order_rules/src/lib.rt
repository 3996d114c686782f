//! Untangling: rules that make a problem of line orders smaller and keep its least cost.
//!
//! Two segments of the same lines can share one order, and the lines of a segment can be ordered group by group, where
//! the weights of the terms say that this costs nothing. A rule is tested by `rule_applies` and done by `apply_rule`, and
//! `lift` turns orders of the smaller problem into orders of the first one. Laws say that lifted orders cost
//! what they cost in the smaller problem, that lifted best orders are best, and that untangling ends where no rule is left.
#![tactic(auto)]

mod changes;
mod divides;
mod laws;
mod lifting;
mod merges;
mod terms;

pub use changes::{apply_rule, others, rule_applies, with_lines};
pub use divides::{
    can_part, can_part_from_rest, divide_applies, greater, is_across, is_group, is_with,
    leaves_some, most_apart_with, sent,
};
pub use laws::{
    lifted_best_orders_are_best, lifted_orders_cost_the_same, rules_are_local, rules_keep_problems,
    some_orders_cost_no_more, untangling_ends,
};
pub use lifting::lift;
pub use merges::{have_flip, merge_applies, moved, outweigh_with, same_lines};
pub use terms::{has_line, is_between, is_on, lines_on};
