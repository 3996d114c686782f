//! How pictures look.

ghost use Rattle.std.specs.Prelude.{◌≡◌};
ghost use Rattle.svg_writer.specs.Styles.{grid_style};

/// How a picture looks. Lengths are in the picture's own units.
#[derive(Clone, Copy, Debug, PartialEq, Eq)]
pub struct Style {
    /// How much more it shows on each side than the bounds of what is drawn.
    pub margin: u16,
    /// How wide lines are.
    pub stroke: u16,
    /// How wide the rims of markers are.
    pub rim: u16,
    /// What each line of the segment with the most adds to the radius of a marker ..
    pub radius_each: u16,
    /// .. and what is added once.
    pub radius_more: u16,
    /// How far a name begins from the square round its marker, both ways.
    pub gap: u16,
    /// How large names are.
    pub font: u16,
}

/// How a map on the grid looks, on which one grid step is 100 units.
pub fn grid_style() -> Style
    ensures { result ≡ grid_style }
{
    Style {
        margin: 200,
        stroke: 12,
        rim: 4,
        radius_each: 7,
        radius_more: 3,
        gap: 4,
        font: 20,
    }
}
