//! Small problems, each with the least cost over all orders of its segments, which was found by trying them all.

use crate::known::Small;
use crate::problems::Kind::{Apart, Link, Side, Turned};
use crate::problems::{part_at, problem_of};
use crate::searching::searched;
use order_model::{Problem, parts_of};
use std::alloc::Global;
use std::test::Fail;

/// Problems whose number order costs more than need be, and whose lines can't be ordered two by two: each with the least
/// cost.
const SMALL: [(Small, u64); 12] = [
    (
        Small {
            lines: &[0b0101, 0b0111, 0b0110],
            terms: &[
                (Side, 1, 1, 0, 1, 1),
                (Side, 2, 2, 1, 2, 1),
                (Turned, 0, 1, 0, 2, 8),
                (Side, 1, 1, 1, 2, 1),
                (Side, 1, 1, 0, 1, 2),
                (Side, 0, 0, 0, 2, 9),
                (Link, 1, 2, 1, 2, 4),
                (Link, 1, 2, 1, 2, 5),
                (Side, 0, 0, 2, 0, 4),
                (Side, 0, 0, 0, 2, 5),
            ],
        },
        6,
    ),
    (
        Small {
            lines: &[0b0111, 0b0011, 0b0110],
            terms: &[
                (Apart, 0, 1, 0, 1, 4),
                (Apart, 0, 2, 1, 2, 9),
                (Link, 0, 1, 0, 1, 1),
                (Side, 1, 1, 1, 0, 2),
                (Apart, 0, 1, 0, 1, 7),
                (Apart, 0, 1, 0, 1, 3),
                (Side, 0, 0, 0, 2, 6),
            ],
        },
        1,
    ),
    (
        Small {
            lines: &[0b0110, 0b1110, 0b1010],
            terms: &[
                (Apart, 1, 2, 1, 3, 3),
                (Link, 1, 2, 1, 3, 9),
                (Apart, 0, 1, 1, 2, 8),
                (Side, 2, 2, 3, 1, 5),
                (Side, 1, 1, 2, 3, 4),
            ],
        },
        4,
    ),
    (
        Small {
            lines: &[0b0110, 0b0011, 0b0111],
            terms: &[
                (Side, 2, 2, 0, 2, 3),
                (Turned, 1, 2, 0, 1, 3),
                (Side, 2, 2, 2, 0, 7),
                (Link, 1, 2, 0, 1, 5),
                (Side, 2, 2, 0, 1, 4),
                (Apart, 0, 2, 1, 2, 3),
                (Side, 2, 2, 2, 1, 4),
                (Link, 1, 2, 0, 1, 5),
                (Side, 0, 0, 2, 1, 3),
            ],
        },
        9,
    ),
    (
        Small {
            lines: &[0b0111, 0b0011, 0b0110],
            terms: &[
                (Side, 0, 0, 0, 1, 6),
                (Link, 0, 2, 1, 2, 8),
                (Link, 0, 2, 1, 2, 2),
                (Side, 0, 0, 1, 2, 1),
                (Apart, 0, 2, 1, 2, 3),
                (Apart, 0, 1, 0, 1, 5),
                (Side, 2, 2, 2, 1, 8),
            ],
        },
        4,
    ),
    (
        Small {
            lines: &[0b0111, 0b0101, 0b0011],
            terms: &[
                (Apart, 0, 1, 0, 2, 8),
                (Side, 1, 1, 0, 2, 1),
                (Side, 0, 0, 2, 0, 8),
                (Turned, 0, 2, 0, 1, 2),
                (Side, 0, 0, 2, 0, 9),
                (Side, 0, 0, 1, 0, 2),
                (Side, 1, 1, 2, 0, 8),
                (Turned, 0, 2, 0, 1, 8),
                (Side, 0, 0, 2, 1, 6),
            ],
        },
        3,
    ),
    (
        Small {
            lines: &[0b0011, 0b0111, 0b0111],
            terms: &[
                (Apart, 0, 1, 0, 1, 6),
                (Side, 2, 2, 1, 2, 5),
                (Apart, 1, 2, 0, 2, 3),
                (Side, 1, 1, 2, 1, 3),
                (Side, 1, 1, 0, 2, 3),
                (Side, 1, 1, 0, 1, 8),
                (Side, 1, 1, 2, 1, 9),
                (Link, 0, 2, 0, 1, 8),
                (Turned, 0, 2, 0, 1, 7),
                (Side, 2, 2, 0, 1, 1),
            ],
        },
        11,
    ),
    (
        Small {
            lines: &[0b0011, 0b0111, 0b0111],
            terms: &[
                (Side, 2, 2, 2, 1, 8),
                (Side, 2, 2, 0, 2, 5),
                (Side, 1, 1, 1, 2, 8),
                (Apart, 1, 2, 1, 2, 4),
                (Side, 0, 0, 1, 0, 7),
                (Side, 2, 2, 0, 2, 9),
                (Turned, 0, 2, 0, 1, 8),
                (Apart, 0, 2, 0, 1, 4),
            ],
        },
        4,
    ),
    (
        Small {
            lines: &[0b1010, 0b1011],
            terms: &[
                (Link, 0, 1, 1, 3, 4),
                (Side, 1, 1, 3, 0, 5),
                (Link, 0, 1, 1, 3, 1),
                (Apart, 0, 1, 1, 3, 1),
                (Apart, 0, 1, 1, 3, 1),
                (Side, 0, 0, 3, 1, 9),
                (Side, 1, 1, 3, 1, 4),
                (Side, 1, 1, 0, 1, 3),
                (Link, 0, 1, 1, 3, 6),
                (Side, 1, 1, 1, 3, 5),
            ],
        },
        7,
    ),
    (
        Small {
            lines: &[0b0110, 0b0110, 0b0111],
            terms: &[
                (Apart, 1, 2, 1, 2, 2),
                (Side, 0, 0, 1, 2, 6),
                (Turned, 0, 1, 1, 2, 7),
                (Side, 1, 1, 2, 1, 6),
                (Side, 2, 2, 1, 0, 3),
                (Link, 0, 1, 1, 2, 1),
                (Side, 2, 2, 0, 2, 9),
                (Side, 0, 0, 2, 1, 3),
                (Side, 0, 0, 2, 1, 3),
            ],
        },
        9,
    ),
    (
        Small {
            lines: &[0b1110, 0b1011],
            terms: &[
                (Side, 1, 1, 0, 3, 9),
                (Side, 0, 0, 1, 3, 4),
                (Turned, 0, 1, 1, 3, 9),
                (Apart, 0, 1, 1, 3, 1),
                (Turned, 0, 1, 1, 3, 6),
                (Side, 1, 1, 1, 0, 8),
                (Turned, 0, 1, 1, 3, 1),
                (Side, 1, 1, 0, 1, 1),
                (Side, 1, 1, 0, 3, 7),
            ],
        },
        5,
    ),
    (
        Small {
            lines: &[0b0101, 0b0111],
            terms: &[
                (Side, 1, 1, 1, 0, 4),
                (Side, 1, 1, 2, 1, 7),
                (Apart, 0, 1, 0, 2, 5),
                (Turned, 0, 1, 0, 2, 7),
                (Turned, 0, 1, 0, 2, 6),
                (Side, 1, 1, 1, 2, 3),
                (Apart, 0, 1, 0, 2, 5),
                (Apart, 0, 1, 0, 2, 9),
            ],
        },
        7,
    ),
];

/// The sum of what the searches of all parts of a problem find.
fn cost_in_parts(alloc: Global, problem: &Problem) -> Result<u64, Fail> {
    let parts = parts_of(alloc, problem)?;
    let mut sum: u64 = 0;
    for k in 0..parts.len() {
        let part = part_at(problem, parts.as_slice(), k);
        let found = searched(alloc, problem, part, 60_000).ok().ok_or("orders")?;
        sum = sum.saturating_add(found.target);
    }
    Ok(sum)
}

/// The sum of what the searches of all parts of a small problem find.
fn least_cost(alloc: Global, small: Small) -> Result<u64, Fail> {
    let problem = problem_of(alloc, small.lines, small.terms)?;
    cost_in_parts(alloc, &problem)
}

#[test]
fn targets_are_the_least_over_all_orders(rt: HostRuntime) -> Result<(), Fail> {
    let alloc = rt.alloc();
    for (small, least) in SMALL {
        let found = least_cost(alloc, small)?;
        assert_eq!(rt; found, least);
    }
    Ok(())
}
