//! The laws.

ghost use Rattle.std.specs.Prelude.{◌≡◌, ℕ, List, Ok, All};
ghost use Rattle.map_base.specs.Settings.{AreInRange, AreLight, Choices};
ghost use Rattle.map_method.specs.Methods.{MethodChoices};
ghost use Rattle.transit_feed.specs.Feeds.{Feed, IsFeed};
ghost use Rattle.graph_core.specs.declared.parts.GraphParts.{GraphParts};
ghost use Rattle.graph_core.specs.Consistent.{IsConsistent};
ghost use Rattle.line_graph.specs.Outcome.{graph_outcome};
ghost use Rattle.order_terms.specs.Terms.{HaveImportance};
ghost use Rattle.svg_writer.specs.declared.names.Names.{Names};
ghost use Rattle.graph_json.specs.Again.{CanBeRead, read_again};
ghost use Rattle.graph_maps.specs.Subjects.{told_by};
ghost use Rattle.graph_maps.specs.Making.{made_on};
ghost use Rattle.map_engine.specs.Tables.{importance_by, names_by};
ghost use Rattle.map_engine.specs.Making.{make_outcome};
ghost use Rattle.export_command.specs.Exchanged.{feed_again, made_of, AreAlike, AreColoured};

/// Of what the file of a line graph is read as the map is made that is made of the graph, with the same certificate, or
/// none for the same cause, under all settings that agree in weights, cell and budget. Its stations have other numbers,
/// and lines above the last that stands on a segment are gone; no map depends on either.
pub fn a_graph_that_is_read_again_makes_the_same_map()
    ensures { (graph : GraphParts) (names : Names) (importance : List ℕ) (choices other : Choices)
        (method : MethodChoices) → IsConsistent graph → HaveImportance importance graph.lines
        → All AreLight choices.weights → AreAlike choices other
        → made_of other method (read_again graph names importance)
        ≡ made_on (told_by names importance) choices method graph }
{}

/// The line graph of a feed has what can be read again, with the names, colours and importances that tables and settings
/// tell.
pub fn line_graphs_of_feeds_can_be_read_again()
    ensures { (feed : Feed) (choices : Choices) (graph : GraphParts) → IsFeed feed → AreColoured feed → AreInRange choices
        → graph_outcome choices.near feed ≡ Ok graph
        → CanBeRead graph (names_by feed) (importance_by feed choices) }
{}

/// Of what the file of a feed's line graph is read as the map is made that is made of the feed, with the same
/// certificate, or none for the same cause, under all settings that agree in weights, cell and budget.
pub fn what_is_exported_makes_the_map_of_the_feed()
    ensures { (feed : Feed) (choices other : Choices) (method : MethodChoices) (graph : GraphParts)
        → IsConsistent graph → AreInRange choices → graph_outcome choices.near feed ≡ Ok graph → AreAlike choices other
        → made_of other method (feed_again feed choices graph) ≡ make_outcome feed choices method }
{}
