//! Stations on lines and curves.

ghost use Rattle.std.specs.Prelude.{◌≡◌, ◌≤◌, ◌<◌};
ghost use Rattle.aim_geometry.specs.Stations.{on_line, on_curve};

/// A place on the ground, in millimetres to the east and to the north of the south-west corner.
#[derive(Clone, Copy)]
pub struct Station {
    pub x: u32,
    pub y: u32,
}

/// Station j of m on the way from x0 to x1, in one coordinate. It is rounded towards minus infinity.
pub fn line_station(x0: u32, x1: u32, m: u32, j: u32) -> u32
    requires parts { 0 < m }
    requires most { m ≤ 4096 }
    requires place { j ≤ m }
    requires from { x0 ≤ 1000000 }
    requires to { x1 ≤ 1000000 }
    ensures { result ≡ on_line x0 x1 m j }
{
    (((m - j) as u64 * x0 as u64 + j as u64 * x1 as u64) / m as u64) as u32
}

/// Station j of m on the curve from x0 to x2 that x1 pulls, in one coordinate. It is rounded towards minus infinity.
pub fn curve_station(x0: u32, x1: u32, x2: u32, m: u32, j: u32) -> u32
    requires parts { 0 < m }
    requires most { m ≤ 4096 }
    requires place { j ≤ m }
    requires from { x0 ≤ 1000000 }
    requires by { x1 ≤ 1000000 }
    requires to { x2 ≤ 1000000 }
    ensures { result ≡ on_curve x0 x1 x2 m j }
{
    let (m, j) = (m as u64, j as u64);
    let near = m - j;
    ((near * near * x0 as u64 + 2 * j * near * x1 as u64 + j * j * x2 as u64) / (m * m)) as u32
}
