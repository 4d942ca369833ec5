// A table of what is asked, and a bucket of it.
ghost use Rattle.std.specs.Prelude.{◌≡◌, false, not, ◌||◌, ◌+◌, ◌≤◌, ◌<◌, eqb, ltb, leb, length, map, All};
ghost use Rattle.theory.specs.Lists.{between};
ghost use Rattle.scope.specs.declared.Refusal.TheVariants.{BadBucket};
ghost use Rattle.scope.specs.Codes as spec;
ghost use Rattle.scope.specs.Shape as shape;
ghost use Rattle.scope.specs.Shape.{m, len, size};
ghost use Rattle.scope.specs.Tables as tables;
ghost use Rattle.scope.specs.Tables.{n};
ghost use Rattle.walk.specs.Asked.{Asked};
ghost use Rattle.shapes.specs.Parts.{own_starts, own_ids};

use crate::question::Question;
use codes::Codes;
use scope::Refusal;
use std::ops::Range;

// Table z of a question's index: the bits of a code that it goes by, and its own part of the starts and ids, all worked out once a step.
#[derive(Drop)]
pub(crate) struct Table<'a> {
    pub ask: &'a Question<'a>,
    pub z: usize,
    pub first_bit: usize,
    pub bits: usize,
    pub codes: Codes<'a>,
    pub starts: &'a [u32],
    pub ids: &'a [u32],
    pub ghost asked: { Asked ask.now },
    pub ghost one: { z < m ask.now.index.shape },
    pub ghost first: { first_bit ≡ shape.first_bit ask.now.index.shape z },
    pub ghost long: { bits ≡ len ask.now.index.shape z },
    pub ghost coded: { codes.words.now ≡ ask.now.index.codes },
    pub ghost words: { codes.w ≡ ask.now.index.shape.w },
    pub ghost own_starts: { starts.now ≡ own_starts ask.now.index z },
    pub ghost own_ids: { ids.now ≡ own_ids ask.now.index z },
}

// Bucket v of a table.
#[derive(Drop)]
pub(crate) struct Bucket<'a> {
    pub table: &'a Table<'a>,
    pub v: usize,
    pub ghost one: { v < size table.now.ask.now.index.shape table.now.z },
}

impl<'a> Table<'a> {
    ghost use Rattle.walk.specs.Buckets.{asked};

    pub(crate) fn of(ask: &'a Question<'a>, z: usize) -> Table<'a>
        requires { z < m ask.now.index.shape }
        ensures { (asked result ≡ ask.now) × (result.z ≡ z) }
    {
        let index = &ask.index;
        let shape = index.shape;
        let starts = index.starts;
        let ids = index.ids;
        let a = shape.starts_before(z);
        let n = index.entries();
        Table {
            ask,
            z,
            first_bit: shape.first_bit(z),
            bits: shape.bits(z),
            codes: index.codes(),
            starts: &starts[a..a + shape.buckets(z) + 1],
            ids: &ids[z * n..z * n + n],
        }
    }

    // How many buckets it has: one fewer than its starts. By their number, since the compiler makes a shift of each comparison with a power of two.
    pub(crate) fn buckets(&self) -> usize
        ensures value { result ≡ size (asked self.now).index.shape self.now.z }
        ensures few { result ≤ 65536 }
    {
        self.starts.len() - 1
    }

    // Its substring of a code.
    fn substring_of(&self, code: &[u64]) -> usize
        requires { length code.now ≡ (asked self.now).index.shape.w }
        ensures { let sh = (asked self.now).index.shape in result ≡ spec.substring (shape.first_bit sh self.now.z) (len sh self.now.z) code.now }
    {
        codes::substring(code, self.first_bit, self.bits)
    }

    // The query's substring: the bucket that the table's first step opens.
    pub(crate) fn substring(&self) -> usize
        ensures { let ask = asked self.now in result ≡ spec.substring (shape.first_bit ask.index.shape self.now.z) (len ask.index.shape self.now.z) ask.query }
    {
        let ask = self.ask;
        self.substring_of(ask.query)
    }

    // The mask's substring: the bits of a bucket's number that count.
    pub(crate) fn under(&self) -> u16
        ensures { let ask = asked self.now in result ≡ spec.substring (shape.first_bit ask.index.shape self.now.z) (len ask.index.shape self.now.z) ask.mask }
    {
        let ask = self.ask;
        self.substring_of(ask.mask) as u16
    }

    // The bucket that entry i belongs to.
    fn bucket_of(&self, i: usize) -> usize
        requires { i < n (asked self.now).index }
        ensures { result ≡ tables.substring_of (asked self.now).index self.now.z i }
    {
        self.codes.entry_substring(i, self.first_bit, self.bits)
    }

    pub(crate) fn bucket(&self, v: usize) -> Bucket<'_>
        requires { v < size (asked self.now).index.shape self.now.z }
        ensures { (result.table.now ≡ self.now) × (result.v ≡ v) }
    {
        Bucket { table: self, v }
    }
}

impl<'a> Bucket<'a> {
    ghost use Rattle.walk.specs.Buckets.{index_of, numbers, is_bad, listed};

    // The places from start(v) up to start(v + 1) of the table's ids.
    fn places(&self) -> Range<usize>
        ensures { let (z, v) = numbers self.now in (result.start ≡ tables.start (index_of self.now) z v) × (result.end ≡ tables.start (index_of self.now) z (v + 1)) }
    {
        let starts = self.table.starts;
        starts[self.v] as usize..starts[self.v + 1] as usize
    }

    // The ids at these places.
    fn ids_at(&self, places: Range<usize>) -> &'a [u32]
        requires { (places.start ≤ places.end) × (places.end ≤ n (index_of self.now)) }
        ensures { result.now ≡ map (tables.id_at (index_of self.now) (numbers self.now).0) (between places.start places.end) }
    {
        let ids = self.table.ids;
        &ids[places]
    }

    // Whether an id is n or more, below the least allowed at its place, or of another bucket.
    fn bad_id(&self, least: usize, i: usize) -> bool
        ensures { let (z, v) = numbers self.now in result ≡ (leb (n (index_of self.now)) i || ltb i least || not (eqb (tables.substring_of (index_of self.now) z i) v)) }
    {
        let table = self.table;
        if table.ids.len() <= i {
            return true;
        }
        i < least || table.bucket_of(i) != self.v
    }

    // Whether it is bad. The ids are not read where the two starts are.
    pub(crate) fn is_bad(&self) -> bool
        ensures { result ≡ is_bad self.now }
    {
        let places = self.places();
        if places.end < places.start {
            return true;
        }
        if self.table.ids.len() < places.end {
            return true;
        }
        let mut least = 0;
        for id in self.ids_at(places) {
            let i = *id as usize;
            if self.bad_id(least, i) {
                return true;
            }
            least = i + 1;
        }
        false
    }

    // The entries that it lists.
    pub(crate) fn entries(&self) -> &'a [u32]
        requires { is_bad self.now ≡ false }
        ensures all { result.now ≡ listed self.now }
        ensures theirs { All (λ i. i < n (index_of self.now)) result.now }
    {
        self.ids_at(self.places())
    }

    // The refusal that names it.
    pub(crate) fn refusal(&self) -> Refusal
        ensures { result ≡ (let (z, v) = numbers self.now in BadBucket z v) }
    {
        Refusal::BadBucket {
            table: self.table.z as u32,
            bucket: self.v as u32,
        }
    }
}
