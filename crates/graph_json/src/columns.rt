//! Features by kind and by part.

ghost use Rattle.std.specs.Prelude.{◌≡◌, List, [], ◌∷◌, ◌++◌, IfOk, OnOk};
ghost use Rattle.graph_json.specs.declared.forms.Feature.{Feature};
ghost use Rattle.graph_json.specs.declared.forms.Feature.TheVariants.{Node, Segment};
ghost use Rattle.graph_json.specs.Columns.{AreColumns};

use crate::forms::{Feature, NodeForm, SegmentForm};
use graph_core::Join;
use map_base::{LineId, NoMemory, NodeId, Point, SegId, Sequence, Text};
use std::alloc::Global;

/// The parts of nodes and of segments, in order, and of each feature whether it is a node.
#[derive(Drop)]
pub(crate) struct Columns {
    pub names: Vec<Option<Text>>,
    pub places: Vec<Point>,
    pub rounds: Vec<Sequence<SegId>>,
    pub joins: Vec<Sequence<Join>>,
    pub ends: Vec<(NodeId, NodeId)>,
    pub lines: Vec<Sequence<LineId>>,
    pub are_nodes: Vec<bool>,
}

/// The columns of features.
pub(crate) fn columns_of(alloc: Global, features: Vec<Feature>) -> Result<Columns, NoMemory>
    ensures { IfOk result (λ columns. AreColumns columns features.items) }
{
    let mut columns = Columns::none(alloc);
    for feature in features {
        columns.add(feature)?;
    }
    Ok(columns)
}

impl Columns {
    /// Of no features.
    fn none(alloc: Global) -> Columns
        ensures { AreColumns result [] }
    {
        Columns {
            names: Vec::new(alloc),
            places: Vec::new(alloc),
            rounds: Vec::new(alloc),
            joins: Vec::new(alloc),
            ends: Vec::new(alloc),
            lines: Vec::new(alloc),
            are_nodes: Vec::new(alloc),
        }
    }

    /// Adds a feature behind those that are there.
    fn add(&mut self, feature: Feature) -> Result<(), NoMemory>
        ensures { OnOk result ((done : List Feature) → AreColumns self.old done → AreColumns self.new (done ++ feature ∷ [])) }
    {
        match feature {
            Feature::Node(node) => self.add_node(node),
            Feature::Segment(segment) => self.add_segment(segment),
        }
    }

    fn add_node(&mut self, node: NodeForm) -> Result<(), NoMemory>
        ensures { OnOk result ((done : List Feature) → AreColumns self.old done → AreColumns self.new (done ++ Node node ∷ [])) }
    {
        let NodeForm {
            place,
            name,
            round,
            joins,
        } = node;
        self.names.push(name)?;
        self.places.push(place)?;
        self.rounds.push(round)?;
        self.joins.push(joins)?;
        self.are_nodes.push(true)?;
        Ok(())
    }

    fn add_segment(&mut self, segment: SegmentForm) -> Result<(), NoMemory>
        ensures { OnOk result ((done : List Feature) → AreColumns self.old done → AreColumns self.new (done ++ Segment segment ∷ [])) }
    {
        let SegmentForm { ends, lines } = segment;
        self.ends.push(ends)?;
        self.lines.push(lines)?;
        self.are_nodes.push(false)?;
        Ok(())
    }
}
