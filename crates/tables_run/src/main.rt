// Builds and checks tables: catalogue A, other shapes, lists longer than needed, places that are changed, and both sides of each refusal.
#![tactic(auto)]

use scope::{Index, Refusal, Shape};
use std::{fmt, io};

fn main(rt: HostRuntime) -> io::Result<()> {
    catalogue_a(&rt)?;
    other_shapes(&rt)?;
    refused(&rt)?;
    full_catalogue(&rt)
}

// ---- one call, and its line

// What tables are built over.
#[derive(Clone, Copy)]
struct Catalogue<'a> {
    shape: Shape,
    stars: &'a [u32],
    codes: &'a [u64],
}

impl Catalogue<'_> {
    // The check's answer over the catalogue with these tables.
    fn checked(&self, starts: &[u32], ids: &[u32]) -> Checked {
        Checked(tables::check(&Index {
            shape: self.shape,
            stars: self.stars,
            codes: self.codes,
            starts,
            ids,
        }))
    }

    // A line: the builder's answer, then the check's, and what both lists hold.
    fn build(
        &self,
        rt: &impl Print,
        name: &str,
        starts: &mut [u32],
        ids: &mut [u32],
    ) -> io::Result<()> {
        match tables::build(self.shape, self.stars, self.codes, starts, ids) {
            Ok(()) => print!(rt; "{name}: done")?,
            Err(refusal) => print!(rt; "{name}: refused {}", refusal.number())?,
        }
        let checked = self.checked(starts, ids);
        println!(rt;
            ", check {checked}, starts {}, ids {}",
            sum(starts),
            sum(ids)
        )
    }

    // The same in lists that are longer than needed.
    fn build_in_room(&self, rt: &impl Print, name: &str) -> io::Result<()> {
        self.build(rt, name, &mut [77; 8300], &mut [77; 130])
    }

    // A line: the check's answer.
    fn check(&self, rt: &impl Print, name: &str, starts: &[u32], ids: &[u32]) -> io::Result<()> {
        println!(rt; "{name}, check {}", self.checked(starts, ids))
    }
}

#[derive(Clone, Copy)]
struct Checked(Result<bool, Refusal>);

impl fmt::Display for Checked {
    fn fmt<W: fmt::Write>(&self, f: &mut fmt::Formatter<W>) -> fmt::Result {
        match self.0 {
            Ok(true) => write!(f, "yes"),
            Ok(false) => write!(f, "no"),
            Err(refusal) => write!(f, "refused {}", refusal.number()),
        }
    }
}

// What a list holds, as one number that depends on each place.
fn sum(list: &[u32]) -> u64 {
    let mut total = 0;
    for place in list {
        total = (31 * total + u64::from(*place)) % 1000003;
    }
    total
}

// ---- catalogue A, and its tables with a place behind each list

const A: Catalogue<'static> = Catalogue {
    shape: Shape { w: 1, m: 8 },
    stars: &[10, 10, 20, 30, 40],
    codes: &[0, 1, 0xff, 0xffff_ffff_ffff_ffff, 0x0101_0101_0101_0101],
};

#[derive(Clone, Copy)]
struct Lists {
    starts: [u32; 2057],
    ids: [u32; 41],
}

fn catalogue_a(rt: &impl Print) -> io::Result<()> {
    let mut lists = Lists {
        starts: [77; 2057],
        ids: [77; 41],
    };
    A.check(rt, "A before", &lists.starts, &lists.ids)?;
    A.build(rt, "A", &mut lists.starts, &mut lists.ids)?;
    list(rt, "starts of table 0:", &lists.starts[0..4])?;
    list(rt, "ids of table 0:", &lists.ids[0..5])?;
    list(rt, "ids of table 7:", &lists.ids[35..40])?;
    list(rt, "after the last starts:", &lists.starts[2056..])?;
    list(rt, "after the last ids:", &lists.ids[40..])?;
    exchanges(rt, &mut lists)?;
    A.check(rt, "A, all put back", &lists.starts, &lists.ids)
}

fn exchanges(rt: &impl Print, lists: &mut Lists) -> io::Result<()> {
    changed(rt, "A, start(0) and start(1) exchanged", lists, |a| {
        a.starts.swap(0, 1)
    })?;
    changed(rt, "A, the last two starts exchanged", lists, |a| {
        a.starts.swap(2054, 2055)
    })?;
    changed(rt, "A, bucket 1 of table 0 descending", lists, |a| {
        a.ids.swap(1, 2)
    })?;
    changed(rt, "A, the last id no entry", lists, |a| {
        a.ids.swap(39, 40)
    })
}

// The check with two places exchanged, which are then put back.
fn changed<F: Fn(&mut Lists)>(
    rt: &impl Print,
    name: &str,
    lists: &mut Lists,
    exchange: F,
) -> io::Result<()>
    requires { F.IsAlwaysCallable exchange }
{
    exchange(lists);
    A.check(rt, name, &lists.starts, &lists.ids)?;
    exchange(lists);
    Ok(())
}

// A line: the places of a list.
fn list(rt: &impl Print, name: &str, places: &[u32]) -> io::Result<()> {
    print!(rt; "{name}")?;
    for place in places {
        print!(rt; " {place}")?;
    }
    println!(rt)
}

// ---- other catalogues

fn other_shapes(rt: &impl Print) -> io::Result<()> {
    let stars = [7; 4];
    let codes = [
        0x0123_4567_89ab_cdef,
        0xfedc_ba98_7654_3210,
        0x0123_4567_89ab_cdef,
        0xfedc_ba98_7654_3210,
        0,
        0xffff_ffff_ffff_ffff,
        0x8000_0000_0000_0001,
        5,
    ];
    for (name, w, m, stars, codes) in [
        ("no entry", 4, 32, &stars[..0], &codes[..0]),
        ("equal codes", 1, 16, &stars[..3], &codes[..3]),
        ("w 2 m 32", 2, 32, &stars[..], &codes[..]),
        ("w 2 m 16", 2, 16, &stars[..], &codes[..]),
        ("w 2 m 17", 2, 17, &stars[..], &codes[..]),
        ("w 1 m 11", 1, 11, &stars[..], &codes[..4]),
        ("w 4 m 64", 4, 64, &stars[..2], &codes[..]),
        ("w 4 m 32", 4, 32, &stars[..2], &codes[..]),
    ] {
        let shape = Shape { w, m };
        let catalogue = Catalogue {
            shape,
            stars,
            codes,
        };
        catalogue.build_in_room(rt, name)?;
    }
    Ok(())
}

// Two entries, with something missing or too much.
fn refused(rt: &impl Print) -> io::Result<()> {
    let codes = [1; 3];
    for (name, w, m, codes) in [
        ("w 3", 3, 24, &codes[..2]),
        ("m 3", 1, 3, &codes[..2]),
        ("m 17", 1, 17, &codes[..2]),
        ("one code few", 1, 8, &codes[..1]),
        ("one code more", 1, 8, &codes[..]),
    ] {
        let shape = Shape { w, m };
        let catalogue = Catalogue {
            shape,
            stars: &[7; 2],
            codes,
        };
        catalogue.build_in_room(rt, name)?;
    }
    let two = Catalogue {
        shape: Shape { w: 1, m: 8 },
        stars: &[7; 2],
        codes: &[1; 2],
    };
    two.build(rt, "just enough", &mut [77; 2056], &mut [77; 16])?;
    two.build(rt, "one start few", &mut [77; 2055], &mut [77; 16])?;
    two.build(rt, "one id few", &mut [77; 2056], &mut [77; 15])
}

// The largest catalogue; and one entry more, which is refused before the lists' room is looked at.
fn full_catalogue(rt: &impl Print) -> io::Result<()> {
    let stars = [0; 65537];
    let shape = Shape { w: 1, m: 4 };
    let more = Catalogue {
        shape,
        stars: &stars,
        codes: &[0; 65537],
    };
    more.build(rt, "65537 entries", &mut [0; 1], &mut [0; 1])?;
    let mut codes = [0; 65536];
    mix(&mut codes);
    let full = Catalogue {
        shape,
        stars: &stars[..65536],
        codes: &codes,
    };
    let mut starts = [0; 262148];
    let mut ids = [0; 262144];
    full.build(rt, "65536 entries", &mut starts, &mut ids)?;
    ids.swap(262142, 262143);
    let name = "65536 entries, the last two ids exchanged";
    full.check(rt, name, &starts, &ids)
}

// Codes that differ, each from the one before it by the same odd number.
fn mix(codes: &mut [u64]) {
    let mut last: u64 = 0;
    for code in codes {
        last = last.wrapping_add(0x9e37_79b9_7f4a_7c15);
        *code = last;
    }
}
