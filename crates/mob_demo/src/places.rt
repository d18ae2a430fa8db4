//! The positions of the ships of the demo, minute by minute.
ghost use Rattle.std.specs.Prelude.{◌≡◌, ◌≤◌};
ghost use Rattle.mob_demo.specs.Demo.{ship_x, ship_y, to_and_fro};

// The side of the square: half the distance to and fro.
const SIDE: u32 = 5_000;

// The place after this distance, moving to and fro between 0 and 5000.
fn place_on_way(way: u32) -> u32
    ensures place { result ≡ to_and_fro way }
    ensures within { result ≤ 5000 }
{
    let rest = way % (2 * SIDE);
    if rest <= SIDE { rest } else { 2 * SIDE - rest }
}

/// The x coordinate of a ship at a minute.
#[tactic(auto, unfolding(crate::specs::Demo::ship_x))]
pub fn x_of(ship: u32, minute: u32) -> u32
    requires ships { ship ≤ 1000 }
    requires minutes { minute ≤ 60 }
    ensures place { result ≡ ship_x ship minute }
{
    place_on_way(173 * ship + minute * (20 + 3 * (ship % 11)))
}

/// The y coordinate of a ship at a minute.
#[tactic(auto, unfolding(crate::specs::Demo::ship_y))]
pub fn y_of(ship: u32, minute: u32) -> u32
    requires ships { ship ≤ 1000 }
    requires minutes { minute ≤ 60 }
    ensures place { result ≡ ship_y ship minute }
{
    place_on_way(311 * ship + minute * (15 + 5 * (ship % 7)))
}
