//! A counter of steps that costs nothing when the program runs, unless somebody watches it.

ghost use Rattle.std.specs.Prelude.{◌≡◌, ◌+◌, ◌<◌};

use crate::progress::{Progress, Stage};
use std::alloc::Global;
use std::marker::Model;
use std::sync::Arc;
use std::sync::ledger::{Blank, Book, Ledger, Share};

/// How many steps were taken: only `tick` changes it. How far the run is, where that is to be told, is noted with them.
#[derive(Drop)]
pub struct Steps<L: Ledger> {
    book: Book<L>,
    share: Share<L>,
    watched: Option<Arc<Progress, Global>>,
}

impl<L: Ledger> Model for Steps<L> {
    ghost use Rattle.std.specs.Prelude.{ℕ, ◌<◌};

    ghost Value = { ℕ };

    ghost view = { λ s. s.book.total };

    ghost invariant = { λ s. 0 < s.share.parts };
}

impl<L: Ledger> Steps<L> {
    /// A counter at 0, over a ledger that nothing was written in.
    pub fn open(blank: Blank) -> Steps<L>
        requires name { blank.name ≡ L.name }
        requires parts { blank.parts ≡ L.parts }
        requires some_part { 0 < blank.parts }
        ensures { result ≡ 0 }
    {
        Steps::watched(blank, None)
    }

    /// A counter, watched: it is at 0, over a ledger that nothing was written in, and what is noted is told to whoever
    /// watches, if there is somebody.
    pub fn watched(blank: Blank, watched: Option<Arc<Progress, Global>>) -> Steps<L>
        requires name { blank.name ≡ L.name }
        requires parts { blank.parts ≡ L.parts }
        requires some_part { 0 < blank.parts }
        ensures { result ≡ 0 }
    {
        let (book, share) = blank.open();
        Steps {
            book,
            share,
            watched,
        }
    }

    /// Takes one step.
    pub fn tick(&mut self)
        ensures { self.new ≡ self.old + 1 }
    {
        self.book.add(&mut self.share, 1);
        if let Some(progress) = &self.watched {
            progress.add_branch();
        }
    }

    /// Tells that the run is at this stage.
    pub fn enter(&self, stage: Stage) {
        if let Some(progress) = &self.watched {
            progress.enter(stage);
        }
    }

    /// Tells that part `part` of so many, counted from 0, is searched.
    pub fn enter_part(&self, part: usize, parts: usize) {
        if let Some(progress) = &self.watched {
            progress.enter_part(part, parts);
        }
    }
}
