//! The trip of the row before.

ghost use Rattle.std.specs.Prelude.{◌≡◌, OnOk, IfOk};
ghost use Rattle.route_tables.specs.Trips.{trip_place};

use map_base::NoMemory;
use route_tables::KnownTrips;
use std::alloc::Global;

/// An id of a trip, and its place among the trips. Most rows have the trip of the row before.
#[derive(Drop)]
pub(crate) struct LastTrip {
    pub(crate) id: Vec<u8>,
    pub(crate) place: Option<usize>,
}

impl LastTrip {
    /// The empty id.
    pub(crate) fn new(alloc: Global, trips: &KnownTrips) -> LastTrip
        ensures { result.place ≡ trip_place trips.now result.id.items }
    {
        LastTrip {
            id: Vec::new(alloc),
            place: trips.ids.place_of(&[]),
        }
    }

    /// The place of an id among the trips, which is looked up only where it is another than the last one.
    pub(crate) fn next(&mut self, trips: &KnownTrips, id: &[u8]) -> Result<Option<usize>, NoMemory>
        requires { self.old.place ≡ trip_place trips.now self.old.id.items }
        ensures known { OnOk result (self.new.place ≡ trip_place trips.now self.new.id.items) }
        ensures place { IfOk result (λ place. place ≡ trip_place trips.now id.now) }
    {
        if self.id.as_slice() != id {
            self.id.clear();
            self.id.extend_from_slice(id)?;
            self.place = trips.ids.place_of(id);
        }
        Ok(self.place)
    }
}
