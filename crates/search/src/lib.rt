// The searches: the k nearest, all within a radius, and the verdict on the nearest and its runner-up.
#![tactic(auto)]

ghost use Rattle.std.specs.Prelude.{◌≡◌, Ok, Err, IfOk, [], ◌∷◌, ℕ, ◌≤◌, length, get_or, map};
ghost use Rattle.theory.specs.Lists.{padded};
ghost use Rattle.scope.specs.Shape.{q};
ghost use Rattle.scope.specs.Tables.{n};
ghost use Rattle.scope.specs.Walk.{question, masked, all_ones, distance_of};
ghost use Rattle.scope.specs.Refusals.{unless, one_to_five, mark_words};
ghost use Rattle.scope.specs.Calls.{asked, leaves, nearest_end, within_end, judges, verdict_end};
ghost use Rattle.walk.specs.Steps.{Fresh};
ghost use Rattle.search.specs.Judge.{Judgeable, Says};
ghost use Rattle.search.specs.Listed.{Listable, listed, Cut};
ghost use Rattle.search.specs.Sought.{sought_end};
ghost use Rattle.search.specs.Past.{nearest_past, within_past, verdict_found};

use scope::{Index, Refusal, Report, Verdict, VerdictReport};
use shapes::Accepted;
use walk::{Question, Rivals, Standing, Walk};

// As many words as the longest code has, every bit set.
const ALL_ONES: [u64; 4] = [u64::MAX; 4];

// Refusals 1 to 5, but for the answer lists; of several limits the largest decides.
fn accept<'a>(
    index: &Index<'a>,
    query: &'a [u64],
    mask: &'a [u64],
    limit: u32,
    marks: &[u64],
) -> Result<Question<'a>, Refusal>
    ensures { result ≡ unless (one_to_five index.now query.now mask.now (limit ∷ []) marks.now) Err (Ok (masked index.now query.now mask.now)) }
{
    let index = Accepted::of(index)?;
    let ask = Question::of(index, query, mask)?;
    let index = &ask.index;
    if index.shape.q() < limit {
        return Err(Refusal::Query);
    }
    if marks.len() < index.mark_words() {
        return Err(Refusal::Room);
    }
    Ok(ask)
}

// How each walk begins: with marks of no entry, and a tally of none. The walk itself is each search's own, since it promises steps of its own.
fn fresh(marks: &mut [u64]) -> [u32; 257]
    ensures { Fresh (length marks.old) marks.new result }
{
    marks.fill(0);
    [0; 257]
}

// After a walk: lists the marked entries within its limit, as many as there are places, and clears the marks; or zeros, where it met a bad bucket. Inlined: a walk's numbers
// are then not stored and read again between the two.
#[inline(always)]
fn list(
    ask: &Question<'_>,
    walked: Result<Walk, Refusal>,
    marks: &mut [u64],
    tally: &mut [u32],
    entries: &mut [u32],
    distances: &mut [u32],
) -> Result<Walk, Refusal>
    requires places { length distances.old ≡ length entries.old }
    requires listable { IfOk walked (λ w. Listable ask.now w marks.old tally.old) }
    ensures same { result ≡ walked }
    ensures marks_after { marks.new ≡ padded (length marks.old) [] }
    ensures entries_after { entries.new ≡ padded (length entries.old) (listed ask.now walked marks.old) }
    ensures distances_after { distances.new ≡ padded (length entries.old) (map (distance_of ask.now) (listed ask.now walked marks.old)) }
{
    let w = match walked {
        Ok(w) => w,
        Err(refusal) => {
            marks.fill(0);
            entries.fill(0);
            distances.fill(0);
            return Err(refusal);
        }
    };
    let index = &ask.index;
    let limit = w.seen.limit;
    let asked = ranking::Asked {
        codes: index.codes(),
        query: ask.query,
        mask: ask.mask,
        limit,
    };
    let n = index.entries();
    let places = entries.len();
    let end = limit as usize + 1;
    let tally = &mut tally[..end];
    ranking::rank(asked, n, places, marks, tally, entries, distances);
    Ok(w)
}

// Lists the k nearest entries, where none of refusals 1 to 5 fits, in lists of just the places that it fills. Not inlined: a call
// that is refused takes no stack for the tally.
#[inline(never)]
fn list_nearest(
    ask: &Question<'_>,
    k: u32,
    marks: &mut [u64],
    entries: &mut [u32],
    distances: &mut [u32],
) -> Result<Report, Refusal>
    requires k_in_bounds { k ≤ n ask.now.index }
    requires cut { Cut ask.now.index k marks.old entries.old distances.old }
    ensures { leaves result marks.new entries.new distances.new ≡ nearest_past (asked ask.now marks.old entries.old distances.old) k }
{
    let mut tally = fresh(marks);
    let walked = walk::nearest(ask, k, marks, &mut tally);
    let w = list(ask, walked, marks, &mut tally, entries, distances)?;
    Ok(Report {
        answers: k.min(w.seen.tested.0),
        opened: w.opened,
        tested: w.seen.tested,
    })
}

// Lists the entries within r, as many as there are places, where none of refusals 1 to 5 fits. The lists as above, with no more places than entries. Inlined: a search among no entries
// makes no tally then.
#[inline(always)]
fn list_within(
    ask: &Question<'_>,
    r: u32,
    marks: &mut [u64],
    entries: &mut [u32],
    distances: &mut [u32],
) -> Result<Report, Refusal>
    requires bounds { (r ≤ q ask.now.index.shape) × (length entries.old ≤ n ask.now.index) × (n ask.now.index ≤ 65536) }
    requires cut { Cut ask.now.index (length entries.old) marks.old entries.old distances.old }
    ensures { leaves result marks.new entries.new distances.new ≡ within_past (asked ask.now marks.old entries.old distances.old) r }
{
    let mut tally = fresh(marks);
    let walked = walk::within(ask, r, marks, &mut tally);
    let w = list(ask, walked, marks, &mut tally, entries, distances)?;
    let answers = w.seen.near;
    if entries.len() < answers as usize {
        return Err(Refusal::TooMany(answers));
    }
    Ok(Report {
        answers,
        opened: w.opened,
        tested: w.seen.tested,
    })
}

// The k nearest entries under a mask of the bits that count, by distance and then by number. The lists stand apart, as C lends them. Inlined: what C hands in is tested in registers,
// and a refused call stores no index.
#[inline(always)]
pub fn nearest_masked<'a>(
    index: &Index<'a>,
    query: &'a [u64],
    mask: &'a [u64],
    k: u32,
    marks: &mut [u64],
    entries: &mut [u32],
    distances: &mut [u32],
) -> Result<Report, Refusal>
    ensures { leaves result marks.new entries.new distances.new ≡ nearest_end (asked (masked index.now query.now mask.now) marks.old entries.old distances.old) k }
{
    let ask = accept(index, query, mask, 0, marks)?;
    let words = ask.index.mark_words();
    let n = ask.index.entries();
    let k = k.min(n as u32);
    let places = k as usize;
    if entries.len().min(distances.len()) < places {
        return Err(Refusal::Room);
    }
    list_nearest(
        &ask,
        k,
        &mut marks[..words],
        &mut entries[..places],
        &mut distances[..places],
    )
}

// All entries within r of the query under a mask, by distance and then by number. Inlined like nearest_masked, as are the other searches.
#[inline(always)]
pub fn within_masked<'a>(
    index: &Index<'a>,
    query: &'a [u64],
    mask: &'a [u64],
    r: u32,
    marks: &mut [u64],
    entries: &mut [u32],
    distances: &mut [u32],
) -> Result<Report, Refusal>
    ensures { leaves result marks.new entries.new distances.new ≡ within_end (asked (masked index.now query.now mask.now) marks.old entries.old distances.old) r }
{
    let ask = accept(index, query, mask, r, marks)?;
    let words = ask.index.mark_words();
    let shorter = entries.len().min(distances.len());
    let places = shorter.min(ask.index.entries());
    list_within(
        &ask,
        r,
        &mut marks[..words],
        &mut entries[..places],
        &mut distances[..places],
    )
}

// A mask for a call without one: every bit counts. One for a w that is not listed is never looked at.
fn all_ones(w: u32) -> &'static [u64]
    ensures { w ≤ 4 → result.now ≡ all_ones w }
{
    &ALL_ONES[..w.min(4) as usize]
}

// The k nearest entries, where every bit counts.
#[inline(always)]
pub fn nearest<'a>(
    index: &Index<'a>,
    query: &'a [u64],
    k: u32,
    marks: &mut [u64],
    entries: &mut [u32],
    distances: &mut [u32],
) -> Result<Report, Refusal>
    ensures { leaves result marks.new entries.new distances.new ≡ nearest_end (asked (question index.now query.now) marks.old entries.old distances.old) k }
{
    let mask = all_ones(index.shape.w);
    nearest_masked(index, query, mask, k, marks, entries, distances)
}

// All entries within r of the query, where every bit counts.
#[inline(always)]
pub fn within<'a>(
    index: &Index<'a>,
    query: &'a [u64],
    r: u32,
    marks: &mut [u64],
    entries: &mut [u32],
    distances: &mut [u32],
) -> Result<Report, Refusal>
    ensures { leaves result marks.new entries.new distances.new ≡ within_end (asked (question index.now query.now) marks.old entries.old distances.old) r }
{
    let mask = all_ones(index.shape.w);
    within_masked(index, query, mask, r, marks, entries, distances)
}

// A search that lists entries, as a value: the k nearest, or all within r.
#[derive(Clone, Copy, Debug, PartialEq, Eq)]
pub enum Sought {
    Nearest(u32),
    Within(u32),
}

impl Sought {
    // Lists what is sought, as `nearest` or `within` does.
    pub fn list<'a>(
        self,
        index: &Index<'a>,
        query: &'a [u64],
        marks: &mut [u64],
        entries: &mut [u32],
        distances: &mut [u32],
    ) -> Result<Report, Refusal>
        ensures { leaves result marks.new entries.new distances.new ≡ sought_end self (asked (question index.now query.now) marks.old entries.old distances.old) }
    {
        match self {
            Sought::Nearest(k) => nearest(index, query, k, marks, entries, distances),
            Sought::Within(r) => within(index, query, r, marks, entries, distances),
        }
    }
}

// The verdict on the nearest tested entry and its runner-up, with reach t and gap g. Only an unsure verdict reads the runner-up's star.
fn judge(index: &Accepted<'_>, rivals: Rivals, t: u32, g: u32) -> Verdict
    requires { Judgeable index.now.stars rivals }
    ensures { Says (λ (i : ℕ). get_or index.now.stars i 0) t g rivals result }
{
    if rivals.first == Standing::NOBODY {
        return Verdict::None;
    }
    let distance = rivals.first.distance();
    if t < distance {
        return Verdict::None;
    }
    let star = rivals.star;
    if rivals.other == Standing::NOBODY {
        return Verdict::Match { star, distance };
    }
    let farther = rivals.other.distance();
    if farther - distance < g {
        let other = index.star(rivals.other.entry());
        return Verdict::Unsure {
            star,
            other,
            distance,
            farther,
        };
    }
    Verdict::Match { star, distance }
}

// Gives the verdict, where none of refusals 1 to 5 fits. The marks are the words that n entries need. Inlined like list_within.
#[inline(always)]
fn give_verdict(
    ask: &Question<'_>,
    t: u32,
    g: u32,
    marks: &mut [u64],
) -> Result<VerdictReport, Refusal>
    requires { length marks.old ≡ mark_words (n ask.now.index) }
    ensures value { result ≡ verdict_found ask.now t g }
    ensures marks_after { marks.new ≡ padded (length marks.old) [] }
{
    let mut tally = fresh(marks);
    let walked = walk::verdict(ask, marks, &mut tally);
    marks.fill(0);
    let w = walked?;
    let verdict = judge(&ask.index, w.seen.rivals, t, g);
    Ok(VerdictReport {
        verdict,
        opened: w.opened,
        tested: w.seen.tested,
    })
}

// The verdict on the nearest entry under a mask and its runner-up, the nearest of another star, with reach t and gap g.
#[inline(always)]
pub fn verdict_masked<'a>(
    index: &Index<'a>,
    query: &'a [u64],
    mask: &'a [u64],
    t: u32,
    g: u32,
    marks: &mut [u64],
) -> Result<VerdictReport, Refusal>
    ensures { judges result marks.new ≡ verdict_end (masked index.now query.now mask.now) marks.old t g }
{
    let ask = accept(index, query, mask, t.max(g), marks)?;
    let words = ask.index.mark_words();
    give_verdict(&ask, t, g, &mut marks[..words])
}

// The verdict where every bit counts.
#[inline(always)]
pub fn verdict<'a>(
    index: &Index<'a>,
    query: &'a [u64],
    t: u32,
    g: u32,
    marks: &mut [u64],
) -> Result<VerdictReport, Refusal>
    ensures { judges result marks.new ≡ verdict_end (question index.now query.now) marks.old t g }
{
    let mask = all_ones(index.shape.w);
    verdict_masked(index, query, mask, t, g, marks)
}
