// From sky to code: offsets of stars, across and up, become the 64 bits of a pattern code.
#![tactic(auto)]

ghost use Rattle.std.specs.Prelude.{true, ◌≡◌};
ghost use Rattle.scope.specs.Sky.{angle_of, in_field};
ghost use Rattle.scope.specs.Sky.{given as Sky·given, degrees as Sky·degrees, column as Sky·column};
ghost use Rattle.scope.specs.Calls.{sky_answer};
ghost use Rattle.sky.specs.Place.{place_of, star_of};

use scope::{Angle, Refusal, Unit};

const MOST_STARS: usize = 4096;

// The code of the stars, each of which sets the bit of its cell; or the first refusal, star by star. Two lists, as C lends them.
pub fn code(unit: Unit, across: &[f64], up: &[f64]) -> Result<u64, Refusal>
    ensures { result ≡ sky_answer unit across.now up.now }
{
    if across.len() != up.len() || across.len() > MOST_STARS {
        return Err(Refusal::Offsets);
    }
    let mut code: u64 = 0;
    for (k, (&x, &y)) in across.iter().zip(up).enumerate() {
        let cell = star(k as u32, in_unit(unit, x), in_unit(unit, y))?;
        code |= 1 << cell;
    }
    Ok(code)
}

// The cell of star k, 8 * row + column. Across is judged before up.
fn star(k: u32, across: Angle, up: Angle) -> Result<u32, Refusal>
    ensures { result ≡ star_of k across up }
{
    let column = place_of(k, across)?;
    let row = place_of(k, up)?;
    Ok(8 * row + column)
}

// The column (or row) of an angle of star k.
#[tactic(auto, using(crate::proofs::Places::same_test), unfolding(crate::specs::Place::place_of, scope::specs::Refusals::unless))]
fn place_of(k: u32, angle: Angle) -> Result<u32, Refusal>
    ensures { result ≡ place_of k angle }
{
    if !given(angle).is_finite() {
        return Err(Refusal::NotFinite(k));
    }
    let d = degrees(angle);
    if !in_field(d) {
        return Err(Refusal::Outside(k));
    }
    Ok(column(d))
}

// The column of an angle in degrees. A test for each edge: d + 4.0 would be rounded, maybe across an edge.
fn column(d: f64) -> u32
    requires { in_field d ≡ true }
    ensures { result ≡ Sky·column d }
{
    if d < -3.0 {
        0
    } else if d < -2.0 {
        1
    } else if d < -1.0 {
        2
    } else if d < 0.0 {
        3
    } else if d < 1.0 {
        4
    } else if d < 2.0 {
        5
    } else if d < 3.0 {
        6
    } else {
        7
    }
}

fn in_field(d: f64) -> bool
    ensures { result ≡ in_field d }
{
    -4.0 <= d && d < 4.0
}

// No `From` here and below: `Unit`, `Angle` and numbers are all of other crates.
#[tactic(auto, unfolding(scope::specs::Sky::angle_of))]
fn in_unit(unit: Unit, x: f64) -> Angle
    ensures { result ≡ angle_of unit x }
{
    match unit {
        Unit::Degrees => Angle::Degrees(x),
        Unit::Radians => Angle::Radians(x),
    }
}

// The number as it came, whatever its unit.
#[tactic(auto, unfolding(scope::specs::Sky::given))]
fn given(angle: Angle) -> f64
    ensures { result ≡ Sky·given angle }
{
    match angle {
        Angle::Degrees(x) | Angle::Radians(x) => x,
    }
}

// Radians become degrees by one product, rounded once.
fn degrees(angle: Angle) -> f64
    ensures { result ≡ Sky·degrees angle }
{
    match angle {
        Angle::Degrees(x) => x,
        Angle::Radians(x) => x * 57.29577951308232,
    }
}
