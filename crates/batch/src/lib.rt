// A table of students at once: up to 256 queries in one call, each answered as a single call answers it.
#![tactic(auto)]

ghost use Rattle.std.specs.Prelude.{◌≡◌, [], length};
ghost use Rattle.theory.specs.Lists.{tab, over, padded};
ghost use Rattle.scope.specs.Tables.{n};
ghost use Rattle.scope.specs.Refusals.{of_built, mark_words, allowed};
ghost use Rattle.scope.specs.Batch.{batch, batch_rows, single, outcome_of, record_from, record_of, fills};
ghost use Rattle.batch.specs.Part.{Listed, Asks, Scratch, fill_end};

use scope::{Answer, Index, Refusal, Report};
use shapes::Accepted;

// Refusals 1 to 5, but for the answer lists, and 11. Of the records only their number counts.
fn refused(
    index: &Index<'_>,
    queries: &[u64],
    k: u32,
    marks: &[u64],
    outcomes: &[u32],
    places: usize,
) -> Result<(), Refusal>
    ensures { result ≡ allowed (batch_rows (batch index.now queries.now k marks.now outcomes.now places)) }
{
    let accepted = Accepted::of(index)?;
    let w = accepted.shape.words();
    if queries.len() % w != 0 {
        return Err(Refusal::Query);
    }
    let count = queries.len() / w;
    let words = accepted.mark_words();
    if marks.len() < words {
        return Err(Refusal::Room);
    }
    if 256 < count {
        return Err(Refusal::Batch);
    }
    if places < count * (k as usize) {
        return Err(Refusal::Batch);
    }
    if outcomes.len() < 4 * count {
        return Err(Refusal::Batch);
    }
    Ok(())
}

// A query's outcome: refusal, number of answers, opened, tested.
fn outcome_of(found: Result<Report, Refusal>) -> [u32; 4]
    ensures { result ≡ outcome_of found }
{
    match found {
        Ok(report) => [0, report.answers, report.opened.0, report.tested.0],
        Err(refusal) => [refusal.number(), 0, 0, 0],
    }
}

// The record at a place of a query's part: an answer, or zeros behind the last one. The scratch lists are longer than what a query lists.
fn pick(stars: &[u32], answers: u32, entries: &[u32], distances: &[u32], place: usize) -> Answer
    requires { Listed stars.now answers entries.now distances.now }
    ensures { result ≡ record_from stars.now answers entries.now distances.now place }
{
    if place < answers as usize {
        let entry = entries[place];
        return Answer {
            entry,
            star: stars[entry as usize],
            distance: distances[place],
        };
    }
    Answer {
        entry: 0,
        star: 0,
        distance: 0,
    }
}

// Each record of a query's part.
fn write(stars: &[u32], answers: u32, entries: &[u32], distances: &[u32], records: &mut [Answer])
    requires { Listed stars.now answers entries.now distances.now }
    ensures { records.new ≡ tab (record_from stars.now answers entries.now distances.now) (length records.old) }
{
    for (place, record) in records.iter_mut().enumerate() {
        *record = pick(stars, answers, entries, distances, place);
    }
}

// One query's part: a single call, whose answers stay in the scratch lists, its outcome and its records.
fn answer(
    index: &Index<'_>,
    query: &[u64],
    k: u32,
    marks: &mut [u64],
    outcome: &mut [u32],
    entries: &mut [u32],
    distances: &mut [u32],
    records: &mut [Answer],
)
    requires { Asks index.now query.now k marks.old outcome.old entries.old distances.old }
    ensures marks_after { marks.new ≡ over (padded (mark_words (n index.now)) []) marks.old }
    ensures outcome_after { outcome.new ≡ outcome_of (single index.now query.now k).answer }
    ensures entries_after { entries.new ≡ over (single index.now query.now k).entries entries.old }
    ensures distances_after { distances.new ≡ over (single index.now query.now k).distances distances.old }
    ensures records_after { records.new ≡ tab (record_of index.now.stars (single index.now query.now k)) (length records.old) }
{
    let found = search::nearest(index, query, k, marks, entries, distances);
    let numbers = outcome_of(found);
    outcome.copy_from_slice(&numbers);
    let [_, answers, _, _] = numbers;
    write(index.stars, answers, entries, distances, records);
}

// The k nearest entries to each of the queries. The two scratch lists take one query's answers at a time.
pub fn fill(
    index: &Index<'_>,
    queries: &[u64],
    k: u32,
    marks: &mut [u64],
    outcomes: &mut [u32],
    entries: &mut [u32],
    distances: &mut [u32],
    records: &mut [Answer],
) -> Result<(), Refusal>
    requires { Scratch k entries.old distances.old }
    ensures { let c = batch index.now queries.now k marks.old outcomes.old (length records.old) in
        (result ≡ allowed (batch_rows c)) × ((fills (of_built result).0 marks.new outcomes.new records.new, entries.new, distances.new) ≡ fill_end c entries.old distances.old records.old) }
{
    refused(index, queries, k, marks, outcomes, records.len())?;
    codes::clear(marks, index.stars.len().div_ceil(64));
    let w = index.shape.w as usize;
    let count = queries.len() / w;
    // with k = 0 each query's outcome is four zeros, and a search for it would pass over all marks
    if k == 0 {
        codes::clear(outcomes, 4 * count);
        return Ok(());
    }
    let part = k as usize;
    // by index: after chunks_exact_mut a proof knows no element;
    // the queries alone in chunks are no plainer, as a proof must then say what is left of them before each turn
    for i in 0..count {
        let a = i * w;
        let first = 4 * i;
        let place = i * part;
        answer(
            index,
            &queries[a..a + w],
            k,
            marks,
            &mut outcomes[first..first + 4],
            entries,
            distances,
            &mut records[place..place + part],
        );
    }
    Ok(())
}
