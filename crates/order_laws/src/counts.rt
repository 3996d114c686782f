//! The law of counts.

ghost use Rattle.std.specs.Prelude.{List, All};
ghost use Rattle.map_base.specs.declared.ids.SegId.{SegId};
ghost use Rattle.map_base.specs.declared.ids.LineId.{LineId};
ghost use Rattle.graph_core.specs.Consistent.{AreRising};
ghost use Rattle.order_search.specs.Finding.{incomplete_in};
ghost use Rattle.order_laws.specs.Counts.{AreCounted, IsIncomplete};

/// The number that bounds the branch nodes of a live tree is the number of the part's prefixes that are not complete.
pub fn incomplete_prefixes_are_counted()
    ensures { (segs : List (List LineId)) (part : List SegId) → All AreRising segs
        → AreCounted (IsIncomplete segs part) (incomplete_in segs part) }
{}
