//! Laws of the texts of points. No code runs here.
ghost use Rattle.std.specs.Prelude.{Ok};
ghost use Rattle.mob_frac.specs.Fits.{Fits};
ghost use Rattle.mob_plane.specs.declared.point.Point.{Point};
ghost use Rattle.mob_numeral.specs.Verdict.{HasOneReading, Lit};
ghost use Rattle.mob_points.specs.Points.{points};
ghost use Rattle.mob_points.specs.PointText.{point_text};

/// A text has at most one reading as a point.
pub fn one_point()
    ensures one { HasOneReading points }
{}

/// A printed point reads back as itself.
pub fn point_read_again()
    ensures again { (p : Point) → Fits p.x → Fits p.y → Lit points (point_text p) (Ok p) }
{}
