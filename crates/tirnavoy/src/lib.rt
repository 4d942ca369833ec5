// The library for C: plain numbers and lists in, a refusal's number back, everything else through the outs.
#![tactic(auto)]

ghost use Rattle.std.specs.Prelude.{◌≡◌, ◌≤◌, [], ◌∷◌, length, min};
ghost use Rattle.scope.specs.Batch.{batch, fills, batch_end};
ghost use Rattle.scope.specs.Calls.{asked, build_end, check_answer, nearest_end, within_end, verdict_end, blackboard_answer, masked_blackboard_answer, sky_answer};
ghost use Rattle.scope.specs.Walk.{question, masked};
ghost use Rattle.scope.specs.Shape.{shape};
ghost use Rattle.scope.specs.Tables.{index};
ghost use Rattle.scope.specs.Refusals.{refusal, of_built, of_checked, of_found, of_verdict, of_judged, of_sky, of_blackboard};
ghost use Rattle.tirnavoy.specs.Outs.{one_out, sky_outs, search_outs, spoken, verdict_outs, built, searched, told};

use scope::{Answer, Index, Opened, Refusal, Report, Shape, Unit, Verdict, VerdictReport};

// 0, or the refusal's number.
fn number(said: Result<(), Refusal>) -> u32
    ensures { result ≡ (of_built said).0 }
{
    match said {
        Ok(()) => 0,
        Err(refusal) => refusal.number(),
    }
}

// The lists of a catalogue and its tables, as the calls take them.
fn index<'a>(
    w: u32,
    m: u32,
    stars: &'a [u32],
    codes: &'a [u64],
    starts: &'a [u32],
    ids: &'a [u32],
) -> Index<'a>
    ensures { result ≡ index (shape w m) stars.now codes.now starts.now ids.now }
{
    let shape = Shape { w, m };
    Index {
        shape,
        stars,
        codes,
        starts,
        ids,
    }
}

// Fills the tables of a catalogue.
#[unsafe(no_mangle)]
pub extern "C" fn tirnavoy_build(
    w: u32,
    m: u32,
    stars: &[u32],
    codes: &[u64],
    starts: &mut [u32],
    ids: &mut [u32],
) -> u32
    ensures { (result, starts.new, ids.new) ≡ built (build_end (index (shape w m) stars.now codes.now starts.old ids.old)) }
{
    let shape = Shape { w, m };
    number(tables::build(shape, stars, codes, starts, ids))
}

// Whether tables are what the builder writes.
#[unsafe(no_mangle)]
pub extern "C" fn tirnavoy_check(
    w: u32,
    m: u32,
    stars: &[u32],
    codes: &[u64],
    starts: &[u32],
    ids: &[u32],
    sound: &mut u32,
) -> u32
    ensures { result ∷ sound.new ∷ [] ≡ one_out (of_checked (check_answer (index (shape w m) stars.now codes.now starts.now ids.now))) }
{
    let index = index(w, m, stars, codes, starts, ids);
    match tables::check(&index) {
        Ok(said) => {
            *sound = u32::from(said);
            0
        }
        Err(refusal) => {
            *sound = 0;
            refusal.number()
        }
    }
}

// What a search returns, and its outs: after 6 T stands in `answers`, after 7 the bad bucket's table and number in the last two.
fn search_outs(found: Result<Report, Refusal>) -> [u32; 6]
    ensures { result ≡ search_outs (of_found found) }
{
    match found {
        Ok(report) => [0, report.answers, report.opened.0, report.tested.0, 0, 0],
        Err(why @ Refusal::TooMany(answers)) => [why.number(), answers, 0, 0, 0, 0],
        Err(refusal) => [refusal.number(), 0, 0, 0, refusal.first(), refusal.second()],
    }
}

// The same, stored.
fn tell_found(
    found: Result<Report, Refusal>,
    answers: &mut u32,
    opened: &mut u32,
    tested: &mut u32,
    table: &mut u32,
    bucket: &mut u32,
) -> u32
    ensures { result ∷ answers.new ∷ opened.new ∷ tested.new ∷ table.new ∷ bucket.new ∷ [] ≡ search_outs (of_found found) }
{
    let [refusal, a, o, t, z, v] = search_outs(found);
    *answers = a;
    *opened = o;
    *tested = t;
    *table = z;
    *bucket = v;
    refusal
}

// The k nearest entries. C calls no generic function, so that each search has its own.
#[unsafe(no_mangle)]
pub extern "C" fn tirnavoy_nearest(
    w: u32,
    m: u32,
    stars: &[u32],
    codes: &[u64],
    starts: &[u32],
    ids: &[u32],
    query: &[u64],
    k: u32,
    marks: &mut [u64],
    entries: &mut [u32],
    distances: &mut [u32],
    answers: &mut u32,
    opened: &mut u32,
    tested: &mut u32,
    table: &mut u32,
    bucket: &mut u32,
) -> u32
    ensures { (result ∷ answers.new ∷ opened.new ∷ tested.new ∷ table.new ∷ bucket.new ∷ [], marks.new, entries.new, distances.new) ≡ searched (nearest_end (asked (question (index (shape w m) stars.now codes.now starts.now ids.now) query.now) marks.old entries.old distances.old) k) }
{
    let index = index(w, m, stars, codes, starts, ids);
    let found = search::nearest(&index, query, k, marks, entries, distances);
    tell_found(found, answers, opened, tested, table, bucket)
}

// All entries within r.
#[unsafe(no_mangle)]
pub extern "C" fn tirnavoy_within(
    w: u32,
    m: u32,
    stars: &[u32],
    codes: &[u64],
    starts: &[u32],
    ids: &[u32],
    query: &[u64],
    r: u32,
    marks: &mut [u64],
    entries: &mut [u32],
    distances: &mut [u32],
    answers: &mut u32,
    opened: &mut u32,
    tested: &mut u32,
    table: &mut u32,
    bucket: &mut u32,
) -> u32
    ensures { (result ∷ answers.new ∷ opened.new ∷ tested.new ∷ table.new ∷ bucket.new ∷ [], marks.new, entries.new, distances.new) ≡ searched (within_end (asked (question (index (shape w m) stars.now codes.now starts.now ids.now) query.now) marks.old entries.old distances.old) r) }
{
    let index = index(w, m, stars, codes, starts, ids);
    let found = search::within(&index, query, r, marks, entries, distances);
    tell_found(found, answers, opened, tested, table, bucket)
}

// The k nearest under a mask of the bits that count.
#[unsafe(no_mangle)]
pub extern "C" fn tirnavoy_nearest_masked(
    w: u32,
    m: u32,
    stars: &[u32],
    codes: &[u64],
    starts: &[u32],
    ids: &[u32],
    query: &[u64],
    mask: &[u64],
    k: u32,
    marks: &mut [u64],
    entries: &mut [u32],
    distances: &mut [u32],
    answers: &mut u32,
    opened: &mut u32,
    tested: &mut u32,
    table: &mut u32,
    bucket: &mut u32,
) -> u32
    ensures { (result ∷ answers.new ∷ opened.new ∷ tested.new ∷ table.new ∷ bucket.new ∷ [], marks.new, entries.new, distances.new) ≡ searched (nearest_end (asked (masked (index (shape w m) stars.now codes.now starts.now ids.now) query.now mask.now) marks.old entries.old distances.old) k) }
{
    let index = index(w, m, stars, codes, starts, ids);
    let found = search::nearest_masked(&index, query, mask, k, marks, entries, distances);
    tell_found(found, answers, opened, tested, table, bucket)
}

// All entries within r under a mask.
#[unsafe(no_mangle)]
pub extern "C" fn tirnavoy_within_masked(
    w: u32,
    m: u32,
    stars: &[u32],
    codes: &[u64],
    starts: &[u32],
    ids: &[u32],
    query: &[u64],
    mask: &[u64],
    r: u32,
    marks: &mut [u64],
    entries: &mut [u32],
    distances: &mut [u32],
    answers: &mut u32,
    opened: &mut u32,
    tested: &mut u32,
    table: &mut u32,
    bucket: &mut u32,
) -> u32
    ensures { (result ∷ answers.new ∷ opened.new ∷ tested.new ∷ table.new ∷ bucket.new ∷ [], marks.new, entries.new, distances.new) ≡ searched (within_end (asked (masked (index (shape w m) stars.now codes.now starts.now ids.now) query.now mask.now) marks.old entries.old distances.old) r) }
{
    let index = index(w, m, stars, codes, starts, ids);
    let found = search::within_masked(&index, query, mask, r, marks, entries, distances);
    tell_found(found, answers, opened, tested, table, bucket)
}

// The k nearest entries to each of up to 256 queries: four numbers and k records for each. A small k needs little scratch, and less is cleared.
#[unsafe(no_mangle)]
pub extern "C" fn tirnavoy_batch(
    w: u32,
    m: u32,
    stars: &[u32],
    codes: &[u64],
    starts: &[u32],
    ids: &[u32],
    queries: &[u64],
    k: u32,
    marks: &mut [u64],
    outcomes: &mut [u32],
    records: &mut [Answer],
) -> u32
    ensures { fills result marks.new outcomes.new records.new ≡ batch_end (batch (index (shape w m) stars.now codes.now starts.now ids.now) queries.now k marks.old outcomes.old (length records.old)) records.old }
{
    let index = index(w, m, stars, codes, starts, ids);
    if k <= 1024 {
        batch_in::<1024>(&index, queries, k, marks, outcomes, records)
    } else {
        batch_in::<65536>(&index, queries, k, marks, outcomes, records)
    }
}

// The same, with scratch of N places. Not inlined: a function has one frame, and a small k is not to pay for the largest scratch.
#[inline(never)]
fn batch_in<const N: usize>(
    index: &Index<'_>,
    queries: &[u64],
    k: u32,
    marks: &mut [u64],
    outcomes: &mut [u32],
    records: &mut [Answer],
) -> u32
    requires { (min k 65536 ≤ N) × (N ≤ 65536) }
    ensures { fills result marks.new outcomes.new records.new ≡ batch_end (batch index.now queries.now k marks.old outcomes.old (length records.old)) records.old }
{
    let mut entries = [0u32; N];
    let mut distances = [0u32; N];
    number(batch::fill(
        index,
        queries,
        k,
        marks,
        outcomes,
        &mut entries,
        &mut distances,
        records,
    ))
}

// A verdict as numbers: its kind, the nearest's star, the other star, the nearest's distance, the other's.
fn spoken(verdict: Verdict) -> [u32; 5]
    ensures { result ≡ spoken (of_verdict verdict) }
{
    match verdict {
        Verdict::None => [0; 5],
        Verdict::Unsure {
            star,
            other,
            distance,
            farther,
        } => [1, star, other, distance, farther],
        Verdict::Match { star, distance } => [2, star, 0, distance, 0],
    }
}

// What a verdict's search returns, and its outs.
fn verdict_outs(given: Result<VerdictReport, Refusal>) -> [u32; 10]
    ensures { result ≡ verdict_outs (of_judged given) }
{
    match given {
        Ok(report) => {
            let [kind, star, other, distance, farther] = spoken(report.verdict);
            let opened = report.opened.0;
            let tested = report.tested.0;
            [
                0, kind, star, other, distance, farther, opened, tested, 0, 0,
            ]
        }
        Err(refusal) => [
            refusal.number(),
            0,
            0,
            0,
            0,
            0,
            0,
            0,
            refusal.first(),
            refusal.second(),
        ],
    }
}

// The same, stored.
fn tell_judged(
    given: Result<VerdictReport, Refusal>,
    verdict: &mut u32,
    star: &mut u32,
    other: &mut u32,
    distance: &mut u32,
    farther: &mut u32,
    opened: &mut u32,
    tested: &mut u32,
    table: &mut u32,
    bucket: &mut u32,
) -> u32
    ensures { result ∷ verdict.new ∷ star.new ∷ other.new ∷ distance.new ∷ farther.new ∷ opened.new ∷ tested.new ∷ table.new ∷ bucket.new ∷ [] ≡ verdict_outs (of_judged given) }
{
    let [refusal, kind, s, o, d, f, b, e, z, v] = verdict_outs(given);
    *verdict = kind;
    *star = s;
    *other = o;
    *distance = d;
    *farther = f;
    *opened = b;
    *tested = e;
    *table = z;
    *bucket = v;
    refusal
}

// Which field is it? The verdict on the nearest entry and its runner-up, with reach t and gap g.
#[unsafe(no_mangle)]
pub extern "C" fn tirnavoy_verdict(
    w: u32,
    m: u32,
    stars: &[u32],
    codes: &[u64],
    starts: &[u32],
    ids: &[u32],
    query: &[u64],
    t: u32,
    g: u32,
    marks: &mut [u64],
    verdict: &mut u32,
    star: &mut u32,
    other: &mut u32,
    distance: &mut u32,
    farther: &mut u32,
    opened: &mut u32,
    tested: &mut u32,
    table: &mut u32,
    bucket: &mut u32,
) -> u32
    ensures { (result ∷ verdict.new ∷ star.new ∷ other.new ∷ distance.new ∷ farther.new ∷ opened.new ∷ tested.new ∷ table.new ∷ bucket.new ∷ [], marks.new) ≡ told (verdict_end (question (index (shape w m) stars.now codes.now starts.now ids.now) query.now) marks.old t g) }
{
    let index = index(w, m, stars, codes, starts, ids);
    let given = search::verdict(&index, query, t, g, marks);
    tell_judged(
        given, verdict, star, other, distance, farther, opened, tested, table, bucket,
    )
}

// The verdict under a mask.
#[unsafe(no_mangle)]
pub extern "C" fn tirnavoy_verdict_masked(
    w: u32,
    m: u32,
    stars: &[u32],
    codes: &[u64],
    starts: &[u32],
    ids: &[u32],
    query: &[u64],
    mask: &[u64],
    t: u32,
    g: u32,
    marks: &mut [u64],
    verdict: &mut u32,
    star: &mut u32,
    other: &mut u32,
    distance: &mut u32,
    farther: &mut u32,
    opened: &mut u32,
    tested: &mut u32,
    table: &mut u32,
    bucket: &mut u32,
) -> u32
    ensures { (result ∷ verdict.new ∷ star.new ∷ other.new ∷ distance.new ∷ farther.new ∷ opened.new ∷ tested.new ∷ table.new ∷ bucket.new ∷ [], marks.new) ≡ told (verdict_end (masked (index (shape w m) stars.now codes.now starts.now ids.now) query.now mask.now) marks.old t g) }
{
    let index = index(w, m, stars, codes, starts, ids);
    let given = search::verdict_masked(&index, query, mask, t, g, marks);
    tell_judged(
        given, verdict, star, other, distance, farther, opened, tested, table, bucket,
    )
}

// What the blackboard returns, and its out.
fn tell_count(count: Result<Opened, Refusal>, buckets: &mut u32) -> u32
    ensures { result ∷ buckets.new ∷ [] ≡ one_out (of_blackboard count) }
{
    match count {
        Ok(opened) => {
            *buckets = opened.0;
            0
        }
        Err(refusal) => {
            *buckets = 0;
            refusal.number()
        }
    }
}

// How many buckets are open after the step.
#[unsafe(no_mangle)]
pub extern "C" fn tirnavoy_blackboard(w: u32, m: u32, step: u32, buckets: &mut u32) -> u32
    ensures { result ∷ buckets.new ∷ [] ≡ one_out (of_blackboard (blackboard_answer (shape w m) step)) }
{
    let shape = Shape { w, m };
    tell_count(blackboard::count(shape, step), buckets)
}

// The same under a mask.
#[unsafe(no_mangle)]
pub extern "C" fn tirnavoy_blackboard_masked(
    w: u32,
    m: u32,
    mask: &[u64],
    step: u32,
    buckets: &mut u32,
) -> u32
    ensures { result ∷ buckets.new ∷ [] ≡ one_out (of_blackboard (masked_blackboard_answer (shape w m) mask.now step)) }
{
    let shape = Shape { w, m };
    tell_count(blackboard::count_masked(shape, mask, step), buckets)
}

fn sky_code(unit: Unit, across: &[f64], up: &[f64], code: &mut u64, place: &mut u32) -> u32
    ensures { result ∷ code.new ∷ place.new ∷ [] ≡ sky_outs (of_sky (sky_answer unit across.now up.now)) }
{
    match sky::code(unit, across, up) {
        Ok(made) => {
            *code = made;
            *place = 0;
            0
        }
        Err(refusal) => {
            *code = 0;
            *place = refusal.first();
            refusal.number()
        }
    }
}

// The code of stars at offsets in degrees, and in radians. Two functions, since from C a unit given as a number could be neither.
#[unsafe(no_mangle)]
pub extern "C" fn tirnavoy_sky_degrees(
    across: &[f64],
    up: &[f64],
    code: &mut u64,
    place: &mut u32,
) -> u32
    ensures { result ∷ code.new ∷ place.new ∷ [] ≡ sky_outs (of_sky (sky_answer Unit.Degrees across.now up.now)) }
{
    sky_code(Unit::Degrees, across, up, code, place)
}

#[unsafe(no_mangle)]
pub extern "C" fn tirnavoy_sky_radians(
    across: &[f64],
    up: &[f64],
    code: &mut u64,
    place: &mut u32,
) -> u32
    ensures { result ∷ code.new ∷ place.new ∷ [] ≡ sky_outs (of_sky (sky_answer Unit.Radians across.now up.now)) }
{
    sky_code(Unit::Radians, across, up, code, place)
}
