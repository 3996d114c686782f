//! What a picture shows of lines and stations, and that its text tells its elements.

ghost use Rattle.std.specs.Prelude.{◌≡◌, ℕ, ◌<◌, ◌==◌, true, not, List, length, map, filter, Option, Some, slice_get, count_by, Contains};
ghost use Rattle.std.specs.List.{AllByRecursion, list_all};
ghost use Rattle.map_base.specs.declared.ids.LineId.{LineId};
ghost use Rattle.map_page.specs.Pages.{is_picture};
ghost use Rattle.graph_core.specs.declared.parts.GraphParts.{GraphParts};
ghost use Rattle.line_offsets.specs.declared.corner.Corner.{Corner};
ghost use Rattle.svg_writer.specs.declared.bounds.Bounds.{Bounds};
ghost use Rattle.svg_writer.specs.declared.names.Names.{Names};
ghost use Rattle.svg_writer.specs.declared.style.Style.{Style};
ghost use Rattle.svg_writer.specs.Courses.{Courses, gauge, order_at};
ghost use Rattle.svg_writer.specs.Elements.{Element, OnSegment, texts};
ghost use Rattle.svg_writer.specs.Escaping.{escaped};
ghost use Rattle.svg_writer.specs.Picture.{all_labels, colour_of, elements_with, name_of, placed_labels};
ghost use Rattle.picture_laws.specs.Shown.{is_label, is_marker, is_path_of, label_at, marker_at, stations_of};
ghost use Rattle.picture_laws.specs.Written.{IsWritable, as_written, is_markup};

/// On each segment a picture has as many paths of a line as the segment's order has places of it, which is one for each line
/// of the segment; and for each place of the order there is the path of its line, at that place. No segment has others.
pub fn each_line_of_a_segment_has_its_path()
    ensures one { (style : Style) (names : Names) (g : GraphParts) (courses : Courses) (orders : List (List LineId))
        (frame : Bounds) (labels : List Element) (s : ℕ) (l : LineId) → list_all is_label labels ≡ true → s < length g.ends
        → count_by (is_path_of s l) (elements_with style names g courses orders frame labels)
        ≡ count_by (λ (a : LineId). a.0 == l.0) (order_at orders s) }
    ensures there { (style : Style) (names : Names) (g : GraphParts) (courses : Courses) (orders : List (List LineId))
        (frame : Bounds) (labels : List Element) (s i : ℕ) (l : LineId) → s < length g.ends
        → slice_get (order_at orders s) i ≡ Some l
        → Contains (elements_with style names g courses orders frame labels)
        (OnSegment s l.0 (courses.path s (gauge (length (order_at orders s)) i)) (colour_of names l) (name_of names l)) }
{}

/// The circles of a picture are those of the stations, one each, in the order of nodes; and so are the names, where they
/// stand beside the circles. Names at chosen places are no circles and no paths.
pub fn each_station_has_its_circle_and_its_name()
    ensures circles { (style : Style) (names : Names) (g : GraphParts) (courses : Courses) (orders : List (List LineId))
        (frame : Bounds) (labels : List Element) → list_all is_label labels ≡ true
        → filter is_marker (elements_with style names g courses orders frame labels)
        ≡ map (marker_at style g courses) (stations_of g) }
    ensures named { (style : Style) (names : Names) (g : GraphParts) (courses : Courses) (orders : List (List LineId))
        (frame : Bounds) (labels : List Element) → list_all is_label labels ≡ true
        → filter is_label (elements_with style names g courses orders frame labels) ≡ labels }
    ensures beside { (style : Style) (names : Names) (g : GraphParts) (courses : Courses)
        → all_labels style names g courses ≡ map (label_at style names g courses) (stations_of g) }
    ensures all { (style : Style) (names : Names) (g : GraphParts) (courses : Courses)
        → list_all is_label (all_labels style names g courses) ≡ true }
    ensures placed { (names : Names) (g : GraphParts) (spots : List (Option Corner))
        → list_all is_label (placed_labels names g spots) ≡ true }
{}

/// What is written of a name has none of the marks that end an attribute, or begin or end a tag.
pub fn names_write_no_markup()
    ensures { (name : List ℕ) → list_all (λ b. not (is_markup b)) (escaped name) ≡ true }
{}

/// The text of elements tells how many there are, of which kinds, and all that they say; of a name it tells what is
/// written of it. So no name can be read as an element, or a part of one.
pub fn text_tells_elements()
    ensures { (style : Style) (es fs : List Element) → AllByRecursion (IsWritable style) es
        → AllByRecursion (IsWritable style) fs → texts style es ≡ texts style fs → map as_written es ≡ map as_written fs }
{}

/// Each picture begins as one of which a page is made, whatever its style, its courses and its names are.
pub fn pages_are_made_of_pictures()
    ensures { (style : Style) (names : Names) (g : GraphParts) (courses : Courses) (orders : List (List LineId))
        (frame : Bounds) (labels : List Element)
        → is_picture (texts style (elements_with style names g courses orders frame labels)) ≡ true }
{}
