//! How far a run is, told on a terminal while it goes on. Nothing is promised of what stands there.

use std::sync::atomic::{AtomicBool, AtomicU64, Ordering};
use std::time::Instant;

/// What a run is at.
#[derive(Clone, Copy, PartialEq, Eq)]
pub enum Stage {
    /// It works, and does not tell on what: a run that has read a file, or reads none.
    Working,
    /// It reads what it works on.
    Reading,
    /// It makes the line graph of a feed.
    LineGraph,
    /// It draws the line graph on the grid.
    Drawing,
    /// It searches for line orders.
    Orders,
    /// It has ended.
    Ended,
}

/// How long a run lasts until it is told within a stage how far it is: milliseconds.
const LONG: u64 = 1000;

/// How long it lasts until a stage is told as it begins: a stage that begins this late takes long as a rule.
const SOON: u64 = 200;

/// How long a line stands before it is renewed within a stage: milliseconds.
const PAUSE: u64 = 200;

/// How many branch nodes are met between two looks at the clock.
const BRANCHES_A_LOOK: u64 = 64;

/// How far a run is: its stage, which part of the line orders is searched, of how many, and the branch nodes that were
/// met. A run that takes long tells it by one line on standard error, which renews itself.
#[derive(Drop)]
pub struct Progress {
    terminal: Option<(HostRuntime, Instant)>,
    due: AtomicU64,
    is_shown: AtomicBool,
    stage: AtomicU64,
    part: AtomicU64,
    parts: AtomicU64,
    branches: AtomicU64,
}

impl Progress {
    /// How far a run is that begins: told on standard error from now on, where that is a terminal to be written to.
    pub fn new(terminal: Option<HostRuntime>) -> Progress {
        Progress {
            terminal: clocked(terminal),
            due: AtomicU64::new(0),
            is_shown: AtomicBool::new(false),
            stage: AtomicU64::new(0),
            part: AtomicU64::new(0),
            parts: AtomicU64::new(0),
            branches: AtomicU64::new(0),
        }
    }

    /// Notes that the run is at this stage.
    pub fn enter(&self, stage: Stage) {
        let number = match stage {
            Stage::Working => 0,
            Stage::Reading => 1,
            Stage::LineGraph => 2,
            Stage::Drawing => 3,
            Stage::Orders => 4,
            Stage::Ended => 5,
        };
        if self.stage.swap(number, Ordering::Relaxed) != number {
            self.due.store(0, Ordering::Relaxed);
            self.tell_from(SOON);
        }
    }

    /// Tells how far the run is, where it takes long and the line has stood for a while.
    pub fn look(&self) {
        self.tell_from(LONG);
    }

    /// Tells it where the run has lasted so many milliseconds and a line is due.
    fn tell_from(&self, least: u64) {
        let Some((rt, began)) = &self.terminal else {
            return;
        };
        let Ok(passed) = began.elapsed(rt) else {
            return;
        };
        let now = u64::try_from(passed.as_millis()).unwrap_or(u64::MAX);
        if now >= least && now >= self.due.load(Ordering::Relaxed) {
            self.due.store(now.saturating_add(PAUSE), Ordering::Relaxed);
            self.show(rt);
        }
    }

    /// Writes the line.
    fn show(&self, rt: &HostRuntime) {
        let stage = match self.stage() {
            Stage::Reading => "reading",
            Stage::LineGraph => "making the line graph",
            Stage::Drawing => "drawing the line graph",
            Stage::Orders => return self.show_part(rt),
            Stage::Working => "working",
            Stage::Ended => return,
        };
        let _not_shown = eprint!(rt; "\r\x1b[Koctimap: {stage}");
        self.is_shown.store(true, Ordering::Relaxed);
    }

    /// Writes the line of a search for line orders.
    fn show_part(&self, rt: &HostRuntime) {
        let (part, parts) = self.part();
        let number = part.saturating_add(1);
        let branches = self.branches();
        let nodes = if branches == 1 { "node" } else { "nodes" };
        let _not_shown = eprint!(rt;
            "\r\x1b[Koctimap: line orders, part {number} of {parts}, {branches} branch {nodes}"
        );
        self.is_shown.store(true, Ordering::Relaxed);
    }

    /// Takes the line from the terminal, if one stands there.
    pub fn hide(&self) {
        if let Some((rt, _)) = &self.terminal {
            if self.is_shown.swap(false, Ordering::Relaxed) {
                let _not_hidden = eprint!(rt; "\r\x1b[K");
            }
        }
    }

    /// The stage of the run.
    pub fn stage(&self) -> Stage {
        match self.stage.load(Ordering::Relaxed) {
            0 => Stage::Working,
            1 => Stage::Reading,
            2 => Stage::LineGraph,
            3 => Stage::Drawing,
            4 => Stage::Orders,
            _ => Stage::Ended,
        }
    }

    /// Notes that part `part` of so many, counted from 0, is searched.
    pub fn enter_part(&self, part: usize, parts: usize) {
        self.part.store(part as u64, Ordering::Relaxed);
        self.parts.store(parts as u64, Ordering::Relaxed);
        self.enter(Stage::Orders);
    }

    /// The part that is searched, counted from 0, and how many there are.
    pub fn part(&self) -> (u64, u64) {
        (
            self.part.load(Ordering::Relaxed),
            self.parts.load(Ordering::Relaxed),
        )
    }

    /// Notes one branch node more.
    pub fn add_branch(&self) {
        let before = self.branches.fetch_add(1, Ordering::Relaxed);
        if before % BRANCHES_A_LOOK == 0 {
            self.look();
        }
    }

    /// How many branch nodes were met.
    pub fn branches(&self) -> u64 {
        self.branches.load(Ordering::Relaxed)
    }
}

/// A terminal with the time at which a run begins, where there is one and its clock can be read.
fn clocked(terminal: Option<HostRuntime>) -> Option<(HostRuntime, Instant)> {
    let rt = terminal?;
    match Instant::now(&rt) {
        Ok(began) => Some((rt, began)),
        Err(_) => None,
    }
}
