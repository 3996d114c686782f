//! A session of an editor of maps.

ghost use Rattle.std.specs.Prelude.{◌≡◌, ◌≤◌, ◌+◌, All, Contains, IfOk, IfErr, OnOk, OnErr};
ghost use Rattle.graph_maps.specs.Keeping.{HoldsFinished};
ghost use Rattle.graph_maps.specs.Making.{bytes_of, Gives};
ghost use Rattle.map_engine.specs.Promises.{IsMade};
ghost use Rattle.edit_session.specs.Sessions.{begun, with_edit, with_held, IsRefused, MayCome, drawn_feed, drawn_choices, draw_outcome, draw_parts, branches_to_draw};

use crate::due::is_due;
use map_base::{Settings, Steps};
use map_edits::{Edit, EditStop, edited, stand};
use map_engine::{Kept, LastDrawing, Made, MakeFault, make_again};
use map_method::Method;
use std::alloc::Global;
use std::marker::Model;
use std::sync::ledger::Ledger;
use transit_feed::Tables;

/// The tables and settings of a feed, how its maps are found, the edits that stand, in their order, and what draws found
/// of parts. Contracts see it as these five. Beside them stands what was drawn last, which shows in nothing. Each standing edit has its values in range and names a line or
/// station of the tables, and none of them is an undo.
#[derive(Drop)]
pub struct Session {
    tables: Tables,
    settings: Settings,
    method: Method,
    standing: Vec<Edit>,
    last: LastDrawing,
    kept: Kept,
}

impl Model for Session {
    ghost use Rattle.edit_session.specs.Sessions.{SessionState, AreStanding};

    ghost Value = { SessionState };

    ghost view = { λ s. record { feed = s.tables; choices = s.settings; method = s.method; standing = s.standing.items; held = s.kept } };

    ghost invariant = { λ s. AreStanding s.tables s.standing.items };
}

impl Session {
    /// A session of these tables and settings, in which no edit stands and nothing is kept. It takes no memory.
    pub fn begin(alloc: Global, tables: Tables, settings: Settings, method: Method) -> Session
        ensures { result ≡ begun tables settings method }
    {
        Session {
            tables,
            settings,
            method,
            standing: Vec::new(alloc),
            last: LastDrawing::none(),
            kept: Kept::none(alloc),
        }
    }

    /// The tables that it was begun with.
    pub fn tables(&self) -> &Tables
        ensures { result.now ≡ self.now.feed }
    {
        &self.tables
    }

    /// The settings that it was begun with.
    pub fn settings(&self) -> &Settings
        ensures { result.now ≡ self.now.choices }
    {
        &self.settings
    }

    /// How its maps are found.
    pub fn method(&self) -> &Method
        ensures { result.now ≡ self.now.method }
    {
        &self.method
    }

    /// The edits that stand, in their order.
    pub fn standing(&self) -> &[Edit]
        ensures { result.now ≡ self.now.standing }
    {
        self.standing.as_slice()
    }

    /// Lets an edit stand behind the others, or takes the last of them off, where it is an undo. An edit is bad exactly
    /// where a value of it is out of range, where it names no line or station of the tables, or where it is an undo and
    /// no edit stands. What is kept stays, and after a refusal all is as it was.
    pub fn edit(&mut self, edit: Edit) -> Result<(), EditStop>
        ensures allowed { IfOk result (λ _. MayCome self.old edit) }
        ensures stands { OnOk result (self.new ≡ with_edit self.old edit) }
        ensures refused { OnErr result (self.new ≡ self.old) }
        ensures bad { IfErr result (IsRefused self.old edit) }
    {
        if !edit.is_in_range() {
            return Err(EditStop::BadEdit);
        }
        if !is_due(&self.tables, self.standing.as_slice(), &edit) {
            return Err(EditStop::BadEdit);
        }
        stand(&mut self.standing, edit)?;
        Ok(())
    }

    /// The map of the tables and settings that the standing edits make, and its certificate: the bytes, or the refusal,
    /// that `make` gives for them where nothing is kept. The edits stand as before. Each part that the draw finished is
    /// held afterwards, what was held stays, and no part that is held is searched again.
    #[tactic(auto, using(crate::proofs::SessionLemmas::itself_held, crate::proofs::SessionLemmas::standing_in_range))]
    pub fn draw<L: Ledger>(
        &mut self,
        alloc: Global,
        steps: &mut Steps<L>,
    ) -> Result<Made, MakeFault>
        ensures outcome { Gives bytes_of result (draw_outcome self.old) }
        ensures made { IfOk result (λ made. IsMade (drawn_feed self.old) (drawn_choices self.old) self.old.method.claim (bytes_of made)) }
        ensures edits { self.new ≡ with_held self.old self.new.held }
        ensures kept { All (Contains self.new.held) self.old.held }
        ensures finished { HoldsFinished result (draw_parts self.old) self.new.held }
        ensures steps { steps.new ≤ steps.old + branches_to_draw self.old }
    {
        let standing = self.standing.as_slice();
        let (tables, settings) = edited(alloc, &self.tables, &self.settings, standing)?;
        make_again(
            alloc,
            &tables,
            &settings,
            &self.method,
            &mut self.last,
            &mut self.kept,
            steps,
        )
    }
}
