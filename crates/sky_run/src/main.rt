// Runs the sky maker on document 01's angles, on the borders of the field and on each of its refusals, a line for each call.
#![tactic(auto)]

use Unit::{Degrees, Radians};
use scope::{Refusal, Unit};
use std::{fmt, io};

fn main(rt: HostRuntime) -> io::Result<()> {
    one_star(&rt)?;
    lists_of_stars(&rt)
}

// A star at x across and 0 up, in row 4.
fn one_star(rt: &impl Print) -> io::Result<()> {
    let zero = 0.0;
    for (name, unit, x) in [
        ("degrees -4", Degrees, -4.0),
        ("degrees below -4", Degrees, -4.000000000000001),
        ("degrees -0.0", Degrees, -0.0),
        ("degrees 0.06", Degrees, 0.06),
        ("degrees 0.07", Degrees, 0.07),
        ("degrees below 4", Degrees, 3.9999999999999996),
        ("degrees 4", Degrees, 4.0),
        ("degrees 1e308", Degrees, 1e308),
        ("degrees infinity", Degrees, 1.0 / zero),
        ("degrees -infinity", Degrees, -1.0 / zero),
        ("degrees no number", Degrees, zero / zero),
        ("radians -0.06", Radians, -0.06),
        ("radians -0.0", Radians, -0.0),
        ("radians 0.06", Radians, 0.06),
        ("radians below 4 degrees", Radians, 0.06981317007977317),
        ("radians 4 degrees", Radians, 0.06981317007977318),
        ("radians 0.07", Radians, 0.07),
        ("radians 1e308", Radians, 1e308),
        ("radians infinity", Radians, 1.0 / zero),
        ("radians no number", Radians, zero / zero),
    ] {
        println!(rt; "{name}: {}", Answer(sky::code(unit, &[x], &[0.0])))?;
    }
    Ok(())
}

fn lists_of_stars(rt: &impl Print) -> io::Result<()> {
    let across = [0.0; 4097];
    let up = [0.0; 4097];
    stars(rt, "no stars", &across[..0], &up[..0])?;
    stars(rt, "4096 stars", &across[..4096], &up[..4096])?;
    stars(rt, "4097 stars", &across, &up)?;
    stars(rt, "unequal lists", &across[..2], &up[..1])?;
    stars(rt, "row 0, column 7", &[3.5], &[-3.5])?;
    stars(rt, "two cells", &[-4.0, 3.5], &[-4.0, 3.5])?;
    let twice = [3.5, -4.0, 3.75];
    stars(rt, "one cell twice", &twice, &[3.5, -4.0, 3.25])?;
    let zero = 0.0;
    let nan = zero / zero;
    stars(rt, "across before up", &[0.0, 9.0], &[0.0, nan])?;
    stars(rt, "star by star", &[0.0, nan], &[9.0, 0.0])
}

fn stars(rt: &impl Print, name: &str, across: &[f64], up: &[f64]) -> io::Result<()> {
    println!(rt; "{name}: {}", Answer(sky::code(Degrees, across, up)))
}

// A code in 16 digits, or a refusal's number, with the star that it names.
#[derive(Clone, Copy)]
struct Answer(Result<u64, Refusal>);

impl fmt::Display for Answer {
    fn fmt<W: fmt::Write>(&self, f: &mut fmt::Formatter<W>) -> fmt::Result {
        match self.0 {
            Ok(code) => write!(f, "code {code:016x}"),
            Err(why @ (Refusal::NotFinite(star) | Refusal::Outside(star))) => {
                write!(f, "refused {}, star {star}", why.number())
            }
            Err(why) => write!(f, "refused {}", why.number()),
        }
    }
}
