//! The script of the demo.
ghost use Rattle.std.specs.Prelude.{◌≡◌, IfOk, string_bytes};
ghost use Rattle.mob_demo.specs.Demo.{demo_script_text};

use std::alloc::{AllocError, Global};

/// The script: it reads the table file, makes an index, and asks which ships come near each other,
/// and when each is in a corner. The only error is a failed allocation.
#[tactic(auto, unfolding(crate::specs::Demo::demo_script_text))]
pub fn demo_script(alloc: Global) -> Result<String, AllocError>
    ensures bytes { IfOk result (λ script. string_bytes script ≡ demo_script_text) }
{
    let mut script = String::from_str(alloc, "CREATE TABLE ship (id int, trip tgeompoint);\n")?;
    script.push_str("COPY ship FROM 'demo.csv' WITH (FORMAT csv, HEADER);\n")?;
    script.push_str("CREATE INDEX ship_trip ON ship USING GIST (trip);\n")?;
    script.push_str(
        "SELECT a.id AS a, b.id AS b FROM ship a, ship b WHERE a.id < b.id AND eDwithin(a.trip, b.trip, 50) LIMIT 5;\n",
    )?;
    script.push_str(
        "SELECT id, getTime(atGeometry(trip, geometry 'POLYGON((0 0,1000 0,1000 1000,0 1000,0 0))')) AS inside FROM ship LIMIT 5;\n",
    )?;
    Ok(script)
}
