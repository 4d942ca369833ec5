// The tables of a catalogue: the builder and the check.
#![tactic(auto)]

ghost use Rattle.std.specs.Prelude.{◌≡◌, Ok, true, ◌*◌, ◌≤◌, ◌<◌, length};
ghost use Rattle.theory.specs.Lists.{over};
ghost use Rattle.scope.specs.Shape.{m};
ghost use Rattle.scope.specs.Tables.{index, built_starts, built_ids, sound};
ghost use Rattle.scope.specs.Calls.{build_answer, builds, build_end, check_answer};
ghost use Rattle.tables.specs.Parts.{IsPart, right};

use buckets::Table;
use codes::Codes;
use scope::{Index, Refusal, Shape};
use shapes::{Accepted, ListedShape};
use std::ops::Range;

// Table z, and its parts of the two lists.
#[derive(Drop)]
struct Part<'a> {
    table: Table<'a>,
    starts: Range<usize>,
    ids: Range<usize>,
}

impl<'a> Part<'a> {
    // What is worked out of the shape is worked out here, once for all the entries.
    fn of(shape: ListedShape, n: usize, codes: &'a [u64], z: usize) -> Part<'a>
        requires shape { z < m shape }
        requires codes { (n ≤ 65536) × (length codes.now ≡ n * shape.w) }
        ensures { IsPart shape n codes.now z result }
    {
        let codes = Codes {
            words: codes,
            w: shape.shape.w as usize,
        };
        let table = Table {
            codes,
            from: shape.first_bit(z),
            bits: shape.bits(z),
            n,
        };
        Part {
            table,
            starts: shape.starts_before(z)..shape.starts_before(z + 1),
            ids: z * n..z * n + n,
        }
    }
}

// Fills each table's part of both lists. They stand apart from an Index, since they are written.
fn fill(shape: ListedShape, stars: &[u32], codes: &[u64], starts: &mut [u32], ids: &mut [u32])
    requires { build_answer (index shape stars.now codes.now starts.old ids.old) ≡ Ok tt }
    ensures starts_after { starts.new ≡ over (built_starts (index shape stars.now codes.now starts.old ids.old)) starts.old }
    ensures ids_after { ids.new ≡ over (built_ids (index shape stars.now codes.now starts.old ids.old)) ids.old }
{
    for z in 0..shape.m() {
        let part = Part::of(shape, stars.len(), codes, z);
        part.table
            .build(&mut starts[part.starts], &mut ids[part.ids]);
    }
}

// Writes the tables of a catalogue into the two lists; places after the last table's part stay as they were.
pub fn build(
    shape: Shape,
    stars: &[u32],
    codes: &[u64],
    starts: &mut [u32],
    ids: &mut [u32],
) -> Result<(), Refusal>
    ensures { builds result starts.new ids.new ≡ build_end (index shape stars.now codes.now starts.old ids.old) }
{
    let accepted = Accepted::of(&Index {
        shape,
        stars,
        codes,
        starts,
        ids,
    })?;
    fill(accepted.shape, stars, codes, starts, ids);
    Ok(())
}

// Whether table z's parts are what the builder writes.
fn right(index: &Accepted<'_>, z: usize) -> bool
    requires { z < m index.now.shape }
    ensures { result ≡ right index.now z }
{
    let part = Part::of(index.shape, index.entries(), index.codes, z);
    part.table
        .check(&index.starts[part.starts], &index.ids[part.ids])
}

// Whether each table's are.
fn all_right(index: &Accepted<'_>) -> bool
    ensures { result ≡ sound index.now }
{
    (0..index.shape.m()).all(|z| right(index, z))
}

// Says yes exactly when the used parts of both lists are what the builder writes.
pub fn check(index: &Index<'_>) -> Result<bool, Refusal>
    ensures { result ≡ check_answer index.now }
{
    let accepted = Accepted::of(index)?;
    Ok(all_right(&accepted))
}
