//! The room of names at a pitch: what they keep clear of, and those that are printed so far.

ghost use Rattle.std.specs.Prelude.{◌≡◌, ◌≤◌, ◌<◌, ◌+◌, ◌^◌, ◌++◌, ◌∷◌, [], if◌then◌else◌, ℕ, filter, length, map, IfOk, OnOk};
ghost use Rattle.eight_sides.specs.declared.shape.Shape.{Shape};
ghost use Rattle.std.specs.List.{find};
ghost use Rattle.poster_plan.specs.declared.layout.Step.TheVariants.{Full};
ghost use Rattle.poster_plan.specs.Places.{places_in};
ghost use Rattle.poster_plan.specs.Placing.{freedom, is_beside, is_clear, is_free, mark_numbered, place_names, place_next};
ghost use Rattle.name_places.specs.Near.{IsNearShape};
ghost use Rattle.poster_table.specs.Tables.{IsShortThing, IsTable};
ghost use Rattle.poster_layout.specs.Rooms.{free_piece, ground_thing, is_free_at, own, placing_of, IsRoom, IsRoomWith};

use eight_sides::Shape;
use map_base::NoMemory;
use name_places::{
    beside_lines, ground_at, mark_numbered, over_lines, piece_at, place_shape, sign_of,
};
use poster_plan::{Kin, Mark, Piece, Place, Plan, Printed, Step, Thing};
use poster_table::Table;
use std::alloc::Global;

/// The room of names at a pitch.
#[derive(Drop)]
pub(crate) struct Room<'a> {
    pub pitch: u32,
    pub plan: &'a Plan,
    /// The grounds of stations, which keep the names of others away, and printed names, which keep all away.
    pub taken: Table,
    /// The straight pieces of walks.
    pub pieces: Table,
    /// The names that are printed, in the order in which they were placed.
    pub printed: Vec<Printed>,
}

impl<'a> Room<'a> {
    /// The room before any name is placed.
    pub(crate) fn new(alloc: Global, pitch: u32, plan: &'a Plan) -> Result<Room<'a>, NoMemory>
        requires { pitch ≤ 200 }
        ensures room { IfOk result IsRoom }
        ensures pitch { IfOk result (λ room. room.pitch ≡ pitch) }
        ensures plan { IfOk result (λ room. room.plan.now ≡ plan.now) }
        ensures none { IfOk result (λ room. room.printed.items ≡ []) }
    {
        let taken = ground_table(alloc, pitch, plan.marks.as_slice())?;
        let pieces = piece_table(alloc, pitch, plan.pieces.as_slice())?;
        Ok(Room {
            pitch,
            plan,
            taken,
            pieces,
            printed: Vec::new(alloc),
        })
    }

    /// Whether a place of the name of a mark is free in a step.
    fn is_free(&self, mark: &Mark, step: Step, place: Place) -> bool
        requires { IsRoom self.now }
        ensures { result ≡ is_free_at self.now.pitch self.now.plan.now self.now.printed.items step mark.now place }
    {
        let shape = place_shape(sign_of(self.pitch, *mark), step, place);
        self.is_clear(mark.node.0, shape, step)
    }

    /// Whether a shape of the name of a node meets nothing that it has to keep clear of in a step.
    fn is_clear(&self, node: u32, shape: Shape, step: Step) -> bool
        requires room { IsRoom self.now }
        requires shape { IsNearShape shape }
        ensures { result ≡ is_clear self.now.pitch self.now.plan.now self.now.printed.items step node shape }
    {
        let name = Thing {
            shape,
            kin: Kin::Node(node),
        };
        if self.taken.clashes(name) {
            return false;
        }
        self.is_beside(name, step)
    }

    /// Whether the name of a node keeps clear of lines, as far as a step asks for it.
    fn is_beside(&self, name: Thing, step: Step) -> bool
        requires room { IsRoom self.now }
        requires name { IsShortThing name }
        ensures { (n : ℕ) (shape : Shape) → name ≡ own n shape → result ≡ is_beside self.now.pitch self.now.plan.now step shape }
    {
        match step {
            Step::Over => true,
            Step::Full => !self.pieces.clashes(name),
            Step::Small => !self.pieces.clashes(name),
        }
    }

    /// How many places of the name of mark `i` are free in full size.
    pub(crate) fn freedom(&self, i: u32) -> usize
        requires room { IsRoom self.now }
        requires none { self.now.printed.items ≡ [] }
        ensures { result ≡ freedom self.now.pitch self.now.plan.now i }
    {
        let mark = mark_numbered(self.plan, i);
        self.count_free(&mark, &beside_lines(mark.level))
    }

    /// How many of these places of the name of a mark are free in full size.
    fn count_free(&self, mark: &Mark, places: &[Place]) -> usize
        requires { IsRoom self.now }
        ensures { result ≡ length (filter (is_free_at self.now.pitch self.now.plan.now self.now.printed.items Full mark.now) places.now) }
    {
        let mut count = 0;
        for place in places {
            count = counted(count, self.is_free(mark, Step::Full, *place));
        }
        count
    }

    /// The first place of the name of mark `i` that is free in a step.
    fn first_free(&self, i: u32, step: Step) -> Option<Place>
        requires { IsRoom self.now }
        ensures { result ≡ find (is_free self.now.pitch self.now.plan.now self.now.printed.items step i) (places_in step (mark_numbered self.now.plan.now.marks i).level) }
    {
        let mark = mark_numbered(self.plan, i);
        self.first_of_mark(&mark, step)
    }

    /// The first place of the name of a mark that is free in a step.
    fn first_of_mark(&self, mark: &Mark, step: Step) -> Option<Place>
        requires { IsRoom self.now }
        ensures { result ≡ find (is_free_at self.now.pitch self.now.plan.now self.now.printed.items step mark.now) (places_in step mark.now.level) }
    {
        match step {
            Step::Full => self.first_of(mark, step, &beside_lines(mark.level)),
            Step::Small => self.first_of(mark, step, &beside_lines(mark.level)),
            Step::Over => self.first_of(mark, step, &over_lines()),
        }
    }

    /// The first of these places of the name of a mark that is free in a step.
    fn first_of(&self, mark: &Mark, step: Step, places: &[Place]) -> Option<Place>
        requires { IsRoom self.now }
        ensures { result ≡ find (is_free_at self.now.pitch self.now.plan.now self.now.printed.items step mark.now) places.now }
    {
        for place in places {
            if self.is_free(mark, step, *place) {
                return Some(*place);
            }
        }
        None
    }

    /// Prints the name of mark `i` at a place in a step.
    fn print(&mut self, i: u32, step: Step, place: Place) -> Result<(), NoMemory>
        requires { IsRoom self.old }
        ensures { OnOk result (IsRoomWith self.old self.new (self.old.printed.items ++ record { mark = i; step = step; place = place } ∷ [])) }
    {
        let name = Printed {
            mark: i,
            step,
            place,
        };
        let sign = sign_of(self.pitch, mark_numbered(self.plan, i));
        let shape = place_shape(sign, step, place);
        self.taken.put(Thing {
            shape,
            kin: Kin::Nobody,
        })?;
        self.printed.push(name)?;
        Ok(())
    }

    /// Places the names of these marks in order in a step. The marks of those that found no place are left.
    pub(crate) fn place_names(
        &mut self,
        alloc: Global,
        marks: &[u32],
        step: Step,
    ) -> Result<Vec<u32>, NoMemory>
        requires { IsRoom self.old }
        ensures room { IfOk result (λ left. IsRoomWith self.old self.new (place_names self.old.pitch self.old.plan.now step marks.now self.old.printed.items).printed) }
        ensures left { IfOk result (λ left. left.items ≡ (place_names self.old.pitch self.old.plan.now step marks.now self.old.printed.items).left) }
    {
        let mut left = Vec::new(alloc);
        for i in marks {
            self.place_next(&mut left, *i, step)?;
        }
        Ok(left)
    }

    /// Prints the name of mark `i` at its first place that is free in a step, or leaves the mark.
    fn place_next(&mut self, left: &mut Vec<u32>, i: u32, step: Step) -> Result<(), NoMemory>
        requires { IsRoom self.old }
        ensures room { OnOk result (IsRoomWith self.old self.new self.new.printed.items) }
        ensures placed { OnOk result (placing_of self.new left.new.items ≡ place_next self.old.pitch self.old.plan.now step (placing_of self.old left.old.items) i) }
    {
        let found = self.first_free(i, step);
        match found {
            Some(place) => {
                self.print(i, step, place)?;
                Ok(())
            }
            None => {
                left.push(i)?;
                Ok(())
            }
        }
    }
}

/// A count, and one more where something is so.
fn counted(count: usize, is_so: bool) -> usize
    requires { count + 1 < 2 ^ 64 }
    ensures value { result ≡ count + (if is_so then 1 else 0) }
    ensures small { result ≤ count + 1 }
{
    if is_so {
        return count + 1;
    }
    count
}

/// The ground of a station, which keeps the names of others away.
fn ground_thing(pitch: u32, mark: Mark) -> Thing
    requires { pitch ≤ 200 }
    ensures value { result ≡ ground_thing pitch mark }
    ensures short { IsShortThing result }
{
    Thing {
        kin: Kin::Node(mark.node.0),
        shape: ground_at(pitch, mark),
    }
}

/// A straight piece, which keeps all names away.
fn free_piece(pitch: u32, piece: Piece) -> Thing
    requires { pitch ≤ 200 }
    ensures value { result ≡ free_piece pitch piece }
    ensures short { IsShortThing result }
{
    Thing {
        shape: piece_at(pitch, piece),
        kin: Kin::Nobody,
    }
}

/// The table of the grounds of stations.
fn ground_table(alloc: Global, pitch: u32, marks: &[Mark]) -> Result<Table, NoMemory>
    requires { pitch ≤ 200 }
    ensures table { IfOk result IsTable }
    ensures things { IfOk result (λ table. table.things.items ≡ map (ground_thing pitch) marks.now) }
{
    let mut table = Table::none(alloc, marks.len())?;
    for mark in marks {
        table.put(ground_thing(pitch, *mark))?;
    }
    Ok(table)
}

/// The table of straight pieces, from which names keep away whosever they are.
fn piece_table(alloc: Global, pitch: u32, pieces: &[Piece]) -> Result<Table, NoMemory>
    requires { pitch ≤ 200 }
    ensures table { IfOk result IsTable }
    ensures things { IfOk result (λ table. table.things.items ≡ map (free_piece pitch) pieces.now) }
{
    let mut table = Table::none(alloc, pieces.len())?;
    for piece in pieces {
        table.put(free_piece(pitch, *piece))?;
    }
    Ok(table)
}
