// An index that none of refusals 1 to 3 fits.
ghost use Rattle.std.specs.Prelude.{◌≡◌, not, ◌||◌, ◌*◌, ◌+◌, ◌≤◌, ◌<◌, eqb, ltb, get_or};
ghost use Rattle.scope.specs.Refusals.{one_to_three, unless, allowed, mark_words};
ghost use Rattle.scope.specs.Shape as spec;
ghost use Rattle.scope.specs.Tables.{n};

use crate::shape::ListedShape;
use codes::Codes;
use scope::{Index, Refusal};
use std::marker::Model;

// Refusal 2: whether n is too large, or the code list is not n * w words long.
fn misfit(shape: ListedShape, n: usize, words: usize) -> bool
    ensures { result ≡ (ltb 65536 n || not (eqb words (n * shape.w))) }
{
    65536 < n || words != n * shape.words()
}

// Refusal 3: whether the starts or the ids are too few for n entries.
fn short(shape: ListedShape, n: usize, starts: usize, ids: usize) -> bool
    requires { n ≤ 65536 }
    ensures { result ≡ (ltb starts (spec.starts_before shape (spec.m shape)) || ltb ids (spec.m shape * n)) }
{
    let m = shape.m();
    starts < shape.starts_before(m) || ids < m * n
}

// The early check: refusals 1 to 3, in order. Its answer holds none of the lists, so that a caller may write to them and still give it.
pub fn refused_early(index: &Index<'_>) -> Result<(), Refusal>
    ensures { result ≡ allowed (one_to_three index.now) }
{
    let shape = ListedShape::try_from(index.shape)?;
    let n = index.stars.len();
    if misfit(shape, n, index.codes.len()) {
        return Err(Refusal::Catalogue);
    }
    if short(shape, n, index.starts.len(), index.ids.len()) {
        return Err(Refusal::Tables);
    }
    Ok(())
}

// Flat, like Index, so that each list is one step away; only the shape is of another type.
#[derive(Drop)]
pub struct Accepted<'a> {
    pub shape: ListedShape,
    pub stars: &'a [u32],
    pub codes: &'a [u64],
    pub starts: &'a [u32],
    pub ids: &'a [u32],
}

impl<'a> Model for Accepted<'a> {
    ghost use Rattle.scope.specs.Tables.{Index as Tables, index};
    ghost use Rattle.shapes.specs.Lent.{Lent};

    ghost Value = { Tables };

    ghost view = { λ x. index x.shape x.stars.now x.codes.now x.starts.now x.ids.now };

    ghost invariant = { λ x. Lent (index x.shape x.stars.now x.codes.now x.starts.now x.ids.now) };
}

impl<'a> Accepted<'a> {
    // The index itself, where the early check does not refuse it.
    pub fn of(index: &Index<'a>) -> Result<Accepted<'a>, Refusal>
        ensures { result ≡ unless (one_to_three index.now) Err (Ok index.now) }
    {
        refused_early(index)?;
        Ok(Accepted {
            shape: ListedShape { shape: index.shape },
            stars: index.stars,
            codes: index.codes,
            starts: index.starts,
            ids: index.ids,
        })
    }

    // How many entries the catalogue has.
    pub fn entries(&self) -> usize
        ensures value { result ≡ n self.now }
        ensures few { result ≤ 65536 }
    {
        self.stars.len()
    }

    // Entry i's star.
    pub fn star(&self, i: usize) -> u32
        requires { i < n self.now }
        ensures { result ≡ get_or self.now.stars i 0 }
    {
        let stars = self.stars;
        stars[i]
    }

    // The catalogue's codes, with the number of their words.
    pub fn codes(&self) -> Codes<'a>
        ensures { (result.words.now ≡ self.now.codes) × (result.w ≡ self.now.shape.w) }
    {
        Codes {
            words: self.codes,
            w: self.shape.words(),
        }
    }

    // How many words the marks of its entries need.
    pub fn mark_words(&self) -> usize
        ensures { result ≡ mark_words (n self.now) }
    {
        self.entries().div_ceil(64)
    }
}
