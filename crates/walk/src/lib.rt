// The walk: the steps that open buckets, in order, and test the entries that these list. Steps serve the searches only.
#![tactic(auto)]

ghost use Rattle.std.specs.Prelude.{◌≡◌, [], ◌∷◌, ℕ, ◌+◌, ◌*◌, ◌/◌, ◌%◌, ◌≤◌, ◌<◌, eqb, get_or, All};
ghost use Rattle.theory.specs.Lists.{has};
ghost use Rattle.scope.specs.Codes.{substring};
ghost use Rattle.scope.specs.Search.{nearest_steps, within_steps};
ghost use Rattle.scope.specs.Verdict.{verdict_steps};
ghost use Rattle.scope.specs.Shape.{q, m, first_bit, len, size};
ghost use Rattle.scope.specs.Tables.{n};
ghost use Rattle.scope.specs.Refusals.{mark_words};
ghost use Rattle.walk.specs.Buckets.{asked, numbers};
ghost use Rattle.walk.specs.Rivals.{Joins};
ghost use Rattle.walk.specs.Limits.{Countable, Counts};
ghost use Rattle.walk.specs.Steps.{Seeing, Sees, Opening, around, Start, Going, Stepped, Fresh, Sensible, enough_after, steps_to, Walked};

mod question;
mod table;

pub use question::Question;
use scope::{Opened, Refusal, Tested};
use shapes::Accepted;
use table::{Bucket, Table};

// The most entries that a catalogue has.
const ENTRIES: u32 = 65536;

// An entry's distance and number as one number, ENTRIES * distance + number. NOBODY's is above every entry's, so that one comparison tells who stands before whom, where nobody does
// too, and the limit is a quotient: a number, and no pair or Option.
#[derive(Clone, Copy, Debug, PartialEq, Eq, PartialOrd, Ord)]
pub struct Standing(pub u32);

impl Standing {
    pub const NOBODY: Standing = Standing(257 * ENTRIES);

    // Entry i's, at distance d.
    fn of(d: u32, i: usize) -> Standing
        requires { (i < 65536) × (d ≤ 256) }
        ensures { result.0 ≡ 65536 * d + i }
    {
        Standing(ENTRIES * d + i as u32)
    }

    // The entry's distance; NOBODY's is 257, above every entry's.
    pub fn distance(self) -> u32
        ensures { result ≡ self.0 / 65536 }
    {
        self.0 / ENTRIES
    }

    // The entry's number.
    pub fn entry(self) -> usize
        ensures { result ≡ self.0 % 65536 }
    {
        (self.0 % ENTRIES) as usize
    }
}

// Of the tested entries the nearest, by its standing and star, and its runner-up, the nearest with another star, by its standing; or NOBODY.
#[derive(Clone, Copy, Debug, PartialEq, Eq)]
pub struct Rivals {
    pub first: Standing,
    pub star: u32,
    pub other: Standing,
}

impl Rivals {
    // Entry i comes in, at distance d. Its star is read only where it may count.
    fn join(self, index: &Accepted<'_>, i: usize, d: u32) -> Rivals
        requires { (i < n index.now) × (i < 65536) × (d ≤ 256) }
        ensures { Joins (λ (j : ℕ). get_or index.now.stars j 0) i (65536 * d + i) self result }
    {
        let standing = Standing::of(d, i);
        if self.other <= standing {
            return self;
        }
        let star = index.star(i);
        if self.first <= standing {
            if star == self.star {
                return self;
            }
            return Rivals {
                other: standing,
                ..self
            };
        }
        if star == self.star {
            return Rivals {
                first: standing,
                ..self
            };
        }
        Rivals {
            first: standing,
            star,
            other: self.first,
        }
    }
}

// What a walk is for: the k nearest entries of those within r, or the nearest of two different stars. An enum and no trait: the two differ in an arm where a walk starts
// and in one where an entry is within the limit.
#[derive(Clone, Copy, Debug, PartialEq, Eq)]
pub enum Aim {
    Nearest(u32, u32),
    TwoStars,
}

// More entries than a catalogue has: to list so many is to list all, and a search within r needs no case of its own.
const ALL: u32 = ENTRIES + 1;

// What is known of the tested entries: how many they are, and the limit, the worst distance that can still be listed; by the aim, how many are within it, or the nearest and its
// runner-up. Both stand here: an enum of the two would be taken apart and made again at each entry.
#[derive(Clone, Copy, Debug, PartialEq, Eq)]
pub struct Seen {
    pub tested: Tested,
    pub limit: u32,
    pub near: u32,
    pub rivals: Rivals,
}

// Marks and tally are lent one by one: a struct of both would have to say in each clause that it still lends the same ones.
impl Seen {
    // One more is at distance d, within the limit, which then goes down as far as k stay within it. The tally has how many are at each distance.
    fn count(self, k: u32, d: u32, tally: &mut [u32]) -> Seen
        requires { Countable k d self tally.old }
        ensures { Counts k d tally.old self tally.new result }
    {
        let place = d as usize;
        tally[place] += 1;
        let mut near = self.near + 1;
        let mut last = self.limit as usize;
        let mut nearer = near - tally[last];
        // by hand: how far the limit goes down is known only on the way
        while k <= nearer {
            near = nearer;
            last -= 1;
            nearer = near - tally[last];
        }
        Seen {
            limit: last as u32,
            near,
            ..self
        }
    }

    // Tests entry i: the first time, it is marked and counted. Over the limit it changes nothing else.
    fn test(
        self,
        ask: &Question<'_>,
        aim: Aim,
        i: usize,
        marks: &mut [u64],
        tally: &mut [u32],
    ) -> Seen
        requires i_bound { i < n ask.now.index }
        requires counted { Seeing ask.now aim self marks.old tally.old }
        ensures { Sees ask.now aim (λ (j : ℕ). eqb j i) result marks.old marks.new tally.new }
    {
        let index = &ask.index;
        if codes::marked(marks, i) {
            return self;
        }
        codes::mark(marks, i);
        let tested = Tested(self.tested.0 + 1);
        let seen = Seen { tested, ..self };
        let Some(d) = ask.distance(i, self.limit) else {
            return seen;
        };
        match aim {
            Aim::Nearest(k, _) => seen.count(k, d, tally),
            Aim::TwoStars => {
                let best = self.rivals.join(index, i, d);
                Seen {
                    limit: best.other.distance(),
                    rivals: best,
                    ..seen
                }
            }
        }
    }

    // Tests these entries.
    fn test_all(
        self,
        ask: &Question<'_>,
        aim: Aim,
        ids: &[u32],
        marks: &mut [u64],
        tally: &mut [u32],
    ) -> Seen
        requires theirs { All (λ i. i < n ask.now.index) ids.now }
        requires counted { Seeing ask.now aim self marks.old tally.old }
        ensures { Sees ask.now aim (λ (i : ℕ). has i ids.now) result marks.old marks.new tally.new }
    {
        let mut seen = self;
        for id in ids {
            seen = seen.test(ask, aim, *id as usize, marks, tally);
        }
        seen
    }
}

// The state of the walk: how many buckets its steps opened, and what is known of the entries that these list.
#[derive(Clone, Copy, Debug, PartialEq, Eq)]
pub struct Walk {
    pub opened: Opened,
    pub seen: Seen,
}

impl Walk {
    // Opens a bucket: it is bad, or its entries are tested.
    fn open(
        &mut self,
        bucket: &Bucket<'_>,
        aim: Aim,
        marks: &mut [u64],
        tally: &mut [u32],
    ) -> Result<(), Refusal>
        requires room { self.old.opened.0 < 16842752 }
        requires counted { Seeing (asked bucket.now.table.now) aim self.old.seen marks.old tally.old }
        ensures { Opening (asked bucket.now.table.now) aim (numbers bucket.now ∷ []) self.old self.new result marks.old marks.new tally.new }
    {
        if bucket.is_bad() {
            return Err(bucket.refusal());
        }
        let ask = bucket.table.ask;
        self.seen = self.seen.test_all(ask, aim, bucket.entries(), marks, tally);
        self.opened = Opened(self.opened.0 + 1);
        Ok(())
    }

    // Opens the buckets of a table that differ from the query's substring in r bits under the mask, ascending by the exclusive-or, up to the first bad one.
    fn open_all(
        &mut self,
        table: &Table<'_>,
        aim: Aim,
        r: u32,
        marks: &mut [u64],
        tally: &mut [u32],
    ) -> Result<(), Refusal>
        requires room { self.old.opened.0 ≤ 16777216 }
        requires counted { Seeing (asked table.now) aim self.old.seen marks.old tally.old }
        ensures { let ask = asked table.now in let z = table.now.z in let sh = ask.index.shape in
            Opening ask aim (around z (substring (first_bit sh z) (len sh z) ask.mask) r (substring (first_bit sh z) (len sh z) ask.query) (size sh z)) self.old self.new result marks.old marks.new tally.new }
    {
        let sub = table.substring();
        let buckets = table.buckets();
        let under = table.under();
        // by hand: `successors` would work out the number after the last one too, and `next` is asked below 65536 only
        let mut e = masks::first(under, r);
        while e < buckets {
            self.open(&table.bucket(sub ^ e), aim, marks, tally)?;
            e = masks::next(under, r, e);
        }
        Ok(())
    }

    // No step is taken yet.
    fn start(aim: Aim) -> Walk
        ensures { Start aim result }
    {
        let limit = match aim {
            Aim::Nearest(_, r) => r,
            Aim::TwoStars => Standing::NOBODY.distance(),
        };
        let rivals = Rivals {
            first: Standing::NOBODY,
            star: 0,
            other: Standing::NOBODY,
        };
        Walk {
            opened: Opened(0),
            seen: Seen {
                tested: Tested(0),
                limit,
                near: 0,
                rivals,
            },
        }
    }
}

// Takes steps until the limit is below the next one, so that nothing farther can be listed, or step top is taken, or a bad bucket is met.
fn take_steps(
    ask: &Question<'_>,
    aim: Aim,
    top: u32,
    marks: &mut [u64],
    tally: &mut [u32],
) -> Result<Walk, Refusal>
    requires top_bound { (top ≤ 256) × Sensible aim top }
    requires fresh { Fresh (mark_words (n ask.now.index)) marks.old tally.old }
    ensures { Walked ask.now aim (steps_to (enough_after ask.now aim) top) result marks.new tally.new }
{
    // nothing that is written can lie in it, so that it is read once
    let own = ask.again();
    let index = &own.index;
    let m = index.shape.m();
    let mut w = Walk::start(aim);
    for at in 0..=top {
        if w.seen.limit < at {
            return Ok(w);
        }
        // step m * r + a opens in table a the buckets that differ from the query's substring in r bits under the mask
        let step = at as usize;
        let table = Table::of(&own, step % m);
        let r = (step / m) as u32;
        w.open_all(&table, aim, r, marks, tally)?;
    }
    Ok(w)
}

// Three walks, since each promises steps of its own, which `take_steps` takes. That of a search for the k nearest, k being at most n: no step where k is 0.
pub fn nearest(
    ask: &Question<'_>,
    k: u32,
    marks: &mut [u64],
    tally: &mut [u32],
) -> Result<Walk, Refusal>
    requires k_in_bounds { k ≤ n ask.now.index }
    requires fresh { Fresh (mark_words (n ask.now.index)) marks.old tally.old }
    ensures { Walked ask.now (Aim.Nearest k (q ask.now.index.shape)) (nearest_steps ask.now k) result marks.new tally.new }
{
    let index = &ask.index;
    let top = index.shape.q();
    let aim = Aim::Nearest(k, top);
    if k == 0 {
        return Ok(Walk::start(aim));
    }
    take_steps(ask, aim, top, marks, tally)
}

// The walk of a search within r: every step to r, and none where there are no entries.
pub fn within(
    ask: &Question<'_>,
    r: u32,
    marks: &mut [u64],
    tally: &mut [u32],
) -> Result<Walk, Refusal>
    requires r_bound { r ≤ q ask.now.index.shape }
    requires fresh { Fresh (mark_words (n ask.now.index)) marks.old tally.old }
    ensures { Walked ask.now (Aim.Nearest 65537 r) (within_steps ask.now.index r) result marks.new tally.new }
{
    let index = &ask.index;
    let aim = Aim::Nearest(ALL, r);
    if index.entries() == 0 {
        return Ok(Walk::start(aim));
    }
    take_steps(ask, aim, r, marks, tally)
}

// The walk of a verdict: until tested entries of two different stars are near, and no step where there are no entries.
pub fn verdict(ask: &Question<'_>, marks: &mut [u64], tally: &mut [u32]) -> Result<Walk, Refusal>
    requires { Fresh (mark_words (n ask.now.index)) marks.old tally.old }
    ensures { Walked ask.now Aim.TwoStars (verdict_steps ask.now) result marks.new tally.new }
{
    let index = &ask.index;
    if index.entries() == 0 {
        return Ok(Walk::start(Aim::TwoStars));
    }
    take_steps(ask, Aim::TwoStars, index.shape.q(), marks, tally)
}
