//! Laws of the texts of polygons. No code runs here.
ghost use Rattle.std.specs.Prelude.{List, Ok};
ghost use Rattle.mob_plane.specs.declared.point.Point.{Point};
ghost use Rattle.mob_numeral.specs.Verdict.{HasOneReading, Lit};
ghost use Rattle.mob_geotext.specs.Polygons.{polygons};
ghost use Rattle.mob_geotext.specs.PolygonText.{polygon_text, IsReadablePolygon};

/// A text has at most one reading as a polygon.
pub fn one_polygon()
    ensures one { HasOneReading polygons }
{}

/// A printed polygon with at most 1,000 points reads back as itself.
pub fn polygon_read_again()
    ensures again { (rings : List (List Point)) → IsReadablePolygon rings → Lit polygons (polygon_text rings) (Ok rings) }
{}
