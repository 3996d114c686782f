//! A problem of line orders.

ghost use Rattle.std.specs.Prelude.{◌≡◌};

use crate::term::Term;
use map_base::{LineId, Sequence};
use std::marker::Model;

/// What a problem is made of.
#[derive(Debug, Drop)]
pub struct ProblemParts {
    /// The lines of each segment, rising.
    pub segs: Sequence<Sequence<LineId>>,
    /// What orders may cost.
    pub terms: Sequence<Term>,
}

/// A problem whose parts fit together, seen as its parts.
#[derive(Debug, Drop)]
pub struct Problem {
    parts: ProblemParts,
}

impl Model for Problem {
    ghost use Rattle.order_model.specs.declared.problem.ProblemParts.{ProblemParts};

    ghost Value = { ProblemParts };

    ghost use Rattle.order_model.specs.Problems.{IsProblem};

    ghost view = { λ p. p.parts };

    ghost invariant = { λ p. IsProblem p.parts };
}

impl Problem {
    ghost use Rattle.order_model.specs.Problems.{IsProblem};

    /// The problem of these parts.
    pub fn new(parts: ProblemParts) -> Problem
        requires { IsProblem parts }
        ensures { result ≡ parts }
    {
        Problem { parts }
    }

    /// The lines of each segment, rising.
    pub fn segs(&self) -> &[Sequence<LineId>]
        ensures lists { result.now ≡ self.now.segs }
        ensures fits { IsProblem self.now }
    {
        self.parts.segs.as_slice()
    }

    /// What orders may cost.
    pub fn terms(&self) -> &[Term]
        ensures list { result.now ≡ self.now.terms }
        ensures fits { IsProblem self.now }
    {
        self.parts.terms.as_slice()
    }

    /// The parts that it was made of.
    pub fn into_parts(self) -> ProblemParts
        ensures parts { result ≡ self }
        ensures fits { IsProblem self }
    {
        self.parts
    }
}
