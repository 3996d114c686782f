//! How geographic maps look.

ghost use Rattle.std.specs.Prelude.{◌≡◌};
ghost use Rattle.geo_map.specs.GeoMap.{plane_style};

use svg_writer::Style;

/// How a geographic map looks, on which a unit is a decimetre.
pub fn plane_style() -> Style
    ensures { result ≡ plane_style }
{
    Style {
        margin: 1000,
        stroke: 50,
        rim: 10,
        radius_each: 30,
        radius_more: 20,
        gap: 40,
        font: 200,
    }
}
