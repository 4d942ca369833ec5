// Runs the searches, a line for each call: document 01's examples, each refusal on both sides of its border, unsound tables, and the empty and the full cases.
// Marks come in as ff and answer places as 99. Behind the answer, a line shows marks, entries and distances as they then stand, also the places that were not lent.
#![tactic(auto)]

ghost use Rattle.std.specs.Prelude.{◌<◌, length};

use scope::{Index, Shape};
use search::Sought::{self, Nearest, Within};
use shown::{Found, Judged, Places, Question, Words};
use std::io;

mod shown;

fn main(rt: HostRuntime) -> io::Result<()> {
    answers(&rt)?;
    unlisted_shapes(&rt)?;
    misfit_catalogues(&rt)?;
    short_tables(&rt)?;
    wrong_queries(&rt)?;
    rooms(&rt)?;
    first_that_fits(&rt)?;
    bad_starts(&rt)?;
    bad_ids(&rt)?;
    bad_buckets_met_or_not(&rt)?;
    missing_entries(&rt)?;
    no_entry(&rt)?;
    verdicts(&rt)?;
    verdicts_over_unsound_tables(&rt)?;
    two_words(&rt)?;
    four_words(&rt)?;
    largest_catalogue(&rt)
}

// ---- catalogue A, and its tables with a place behind each list

const A: Shape = Shape { w: 1, m: 8 };

const STARS: [u32; 5] = [10, 10, 20, 30, 40];

const CODES: [u64; 5] = [0, 1, 0xff, 0xffff_ffff_ffff_ffff, 0x0101_0101_0101_0101];

#[derive(Clone, Copy)]
struct Lists {
    starts: [u32; 2057],
    ids: [u32; 41],
}

impl Lists {
    // The builder's answer is dropped: had it refused, each start would be 77, which lies above n, and the searches would be refused.
    fn built() -> Self {
        let mut starts = [77; 2057];
        let mut ids = [77; 41];
        let _ = tables::build(A, &STARS, &CODES, &mut starts, &mut ids);
        Lists { starts, ids }
    }

    fn index(&self) -> Index<'_> {
        over_a(&self.starts, &self.ids)
    }

    // Changes start(v) of table z, or the id at a place of table z.
    fn set_start(&mut self, z: usize, v: usize, start: u32)
        requires { (z < 8) × (v < 257) }
    {
        self.starts[257 * z + v] = start;
    }

    fn set_id(&mut self, z: usize, place: usize, id: u32)
        requires { (z < 8) × (place < 5) }
    {
        self.ids[5 * z + place] = id;
    }
}

fn over_a<'a>(starts: &'a [u32], ids: &'a [u32]) -> Index<'a> {
    Index {
        shape: A,
        stars: &STARS,
        codes: &CODES,
        starts,
        ids,
    }
}

// ---- one call, and its line

// How many mark words a call is lent, and how many places for entries and for distances.
#[derive(Clone, Copy)]
struct Room(usize, usize, usize);

const AMPLE: Room = Room(2, 6, 7);

const MARKS_ONLY: Room = Room(1, 0, 0);

const NONE: Room = Room(0, 0, 0);

#[derive(Clone, Copy)]
struct Case<'a> {
    name: &'a str,
    index: &'a Index<'a>,
    query: &'a [u64],
    room: Room,
}

impl Case<'_> {
    fn ask(&self, rt: &impl Print, question: Sought) -> io::Result<()> {
        let mut marks = [0xff; 3];
        let mut entries = [99; 7];
        let mut distances = [99; 7];
        let Room(words, e, d) = self.room;
        let found = Found(question.list(
            self.index,
            self.query,
            &mut marks[..words.min(3)],
            &mut entries[..e.min(7)],
            &mut distances[..d.min(7)],
        ));
        self.show(rt, question, found, &marks, &entries, &distances)
    }

    fn show(
        &self,
        rt: &impl Print,
        question: Sought,
        found: Found,
        marks: &[u64],
        entries: &[u32],
        distances: &[u32],
    ) -> io::Result<()> {
        let name = self.name;
        let question = Question(question);
        print!(rt; "{name}: {question}: {found} |{}", Words(marks))?;
        println!(rt; " |{} |{}", Places(entries), Places(distances))
    }

    fn judge(&self, rt: &impl Print, t: u32, g: u32) -> io::Result<()> {
        let mut marks = [0xff; 3];
        let Room(words, ..) = self.room;
        let lent = &mut marks[..words.min(3)];
        let judged = Judged(search::verdict(self.index, self.query, t, g, lent));
        let name = self.name;
        println!(rt; "{name}: verdict {t} {g}: {judged} |{}", Words(&marks))
    }

    // The three searches.
    fn ask_each(&self, rt: &impl Print) -> io::Result<()> {
        self.ask(rt, Nearest(2))?;
        self.ask(rt, Within(2))?;
        self.judge(rt, 2, 2)
    }
}

// Ample room.
fn ample<'a>(name: &'a str, index: &'a Index<'a>, query: &'a [u64]) -> Case<'a> {
    Case {
        name,
        index,
        query,
        room: AMPLE,
    }
}

// What a verdict over 64 entries or fewer needs, and no more.
fn just_marks<'a>(name: &'a str, index: &'a Index<'a>, query: &'a [u64]) -> Case<'a> {
    Case {
        room: MARKS_ONLY,
        ..ample(name, index, query)
    }
}

fn lend(rt: &impl Print, name: &str, question: Sought, room: Room) -> io::Result<()> {
    let a = Lists::built();
    let index = a.index();
    let case = Case {
        name,
        index: &index,
        query: &[3],
        room,
    };
    case.ask(rt, question)
}

// A's tables, spoiled.
fn spoiled<F: FnOnce(&mut Lists)>(spoil: F) -> Lists
    requires { F.IsAlwaysCallable spoil }
{
    let mut a = Lists::built();
    spoil(&mut a);
    a
}

// Over A's tables, spoiled.
fn with<F: FnOnce(&mut Lists)>(
    rt: &impl Print,
    name: &str,
    question: Sought,
    spoil: F,
) -> io::Result<()>
    requires { F.IsAlwaysCallable spoil }
{
    let a = spoiled(spoil);
    ample(name, &a.index(), &[3]).ask(rt, question)
}

// ---- the calls

fn answers(rt: &impl Print) -> io::Result<()> {
    for question in [
        Nearest(0),
        Nearest(1),
        Nearest(2),
        Nearest(3),
        Nearest(4),
        Nearest(5),
        Nearest(6),
        Nearest(4294967295),
        Within(0),
        Within(1),
        Within(7),
        Within(8),
        Within(61),
        Within(62),
        Within(64),
        Within(65),
        Within(4294967295),
    ] {
        lend(rt, "A", question, AMPLE)?;
    }
    Ok(())
}

// Refusal 1.
fn unlisted_shapes(rt: &impl Print) -> io::Result<()> {
    let a = Lists::built();
    for (name, w, m) in [
        ("w 0", 0, 8),
        ("w 3", 3, 24),
        ("w 5", 5, 40),
        ("m 0", 1, 0),
        ("m 3", 1, 3),
        ("m 17", 1, 17),
        ("m 4294967295", 1, 4294967295),
        ("w 1 m 8", 1, 8),
    ] {
        let index = Index {
            shape: Shape { w, m },
            ..a.index()
        };
        ample(name, &index, &[3]).ask_each(rt)?;
    }
    Ok(())
}

// Refusal 2.
fn misfit_catalogues(rt: &impl Print) -> io::Result<()> {
    with_catalogue(rt, "5 stars, 4 codes", &STARS, &[0, 1, 0xff, 3])?;
    with_catalogue(rt, "5 stars, 5 codes", &STARS, &CODES)?;
    with_catalogue(rt, "4 stars, 5 codes", &[10; 4], &CODES)?;
    with_catalogue(rt, "65537 entries", &[10; 65537], &[0; 65537])
}

fn with_catalogue(rt: &impl Print, name: &str, stars: &[u32], codes: &[u64]) -> io::Result<()> {
    let a = Lists::built();
    let index = Index {
        stars,
        codes,
        ..a.index()
    };
    ample(name, &index, &[3]).ask_each(rt)
}

// Refusal 3.
fn short_tables(rt: &impl Print) -> io::Result<()> {
    with_tables(rt, "2055 starts", 2055, 41)?;
    with_tables(rt, "2056 starts", 2056, 41)?;
    with_tables(rt, "39 ids", 2057, 39)?;
    with_tables(rt, "40 ids", 2057, 40)
}

fn with_tables(rt: &impl Print, name: &str, starts: usize, ids: usize) -> io::Result<()> {
    let a = Lists::built();
    let index = over_a(&a.starts[..starts.min(2057)], &a.ids[..ids.min(41)]);
    ample(name, &index, &[3]).ask_each(rt)
}

// Refusal 4 by the query's length; by r above, by t and g below.
fn wrong_queries(rt: &impl Print) -> io::Result<()> {
    let a = Lists::built();
    let index = a.index();
    let words = [3, 0];
    ample("query of 0 words", &index, &words[..0]).ask_each(rt)?;
    ample("query of 1 word", &index, &words[..1]).ask_each(rt)?;
    ample("query of 2 words", &index, &words).ask_each(rt)
}

// Refusals 5 and 6.
fn rooms(rt: &impl Print) -> io::Result<()> {
    for (name, question, room) in [
        ("no marks", Nearest(0), Room(0, 7, 7)),
        ("no marks", Within(0), Room(0, 7, 7)),
        ("entries short", Nearest(4), Room(1, 3, 7)),
        ("distances short", Nearest(4), Room(1, 7, 3)),
        ("just room", Nearest(4), Room(1, 4, 4)),
        ("room for 4", Nearest(5), Room(1, 4, 4)),
        ("room for n", Nearest(6), Room(1, 5, 5)),
        ("no room", Nearest(0), Room(1, 0, 0)),
        ("no room", Within(0), Room(1, 0, 0)),
        ("no room", Within(1), Room(1, 0, 0)),
        ("entries short", Within(8), Room(1, 3, 7)),
        ("distances short", Within(8), Room(1, 7, 2)),
        ("just room", Within(8), Room(1, 4, 4)),
        ("room for 4", Within(64), Room(1, 4, 5)),
    ] {
        lend(rt, name, question, room)?;
    }
    Ok(())
}

// A call that each of refusals 1 to 7 fits, then with one after the other mended. Starts of 77 lie above n.
fn first_that_fits(rt: &impl Print) -> io::Result<()> {
    let few = [0, 1, 0xff, 3];
    mended(rt, "1 to 7 fit", 3, &few, &[77; 2055], &[3, 3], NONE)?;
    mended(rt, "2 to 7 fit", 1, &few, &[77; 2055], &[3, 3], NONE)?;
    mended(rt, "3 to 7 fit", 1, &CODES, &[77; 2055], &[3, 3], NONE)?;
    mended(rt, "4 to 7 fit", 1, &CODES, &[77; 2056], &[3, 3], NONE)?;
    mended(rt, "5 to 7 fit", 1, &CODES, &[77; 2056], &[3], NONE)?;
    mended(rt, "6 and 7 fit", 1, &CODES, &[77; 2056], &[3], MARKS_ONLY)?;
    lend(rt, "6 fits", Within(1), MARKS_ONLY)
}

fn mended(
    rt: &impl Print,
    name: &str,
    w: u32,
    codes: &[u64],
    starts: &[u32],
    query: &[u64],
    room: Room,
) -> io::Result<()> {
    let index = Index {
        shape: Shape { w, m: 8 },
        codes,
        ..over_a(starts, &[77; 40])
    };
    let case = Case {
        name,
        index: &index,
        query,
        room,
    };
    case.ask(rt, Within(1))
}

// Refusal 7 by starts. Step 1 opens bucket 0 of table 1, which lists entries 0, 1, 2; step 48 opens bucket 255 of table 0, which ends at n.
fn bad_starts(rt: &impl Print) -> io::Result<()> {
    with(rt, "starts equal", Nearest(1), |a| a.set_start(1, 0, 3))?;
    for question in [Nearest(1), Within(1)] {
        with(rt, "starts out of order", question, |a| {
            a.set_start(1, 0, 4)
        })?;
    }
    with(rt, "end at n", Within(48), |a| a.set_start(0, 256, 5))?;
    for question in [Within(48), Within(47)] {
        with(rt, "end above n", question, |a| a.set_start(0, 256, 6))?;
    }
    with(rt, "end far above n", Nearest(5), |a| {
        a.set_start(7, 1, 4294967295)
    })?;
    with(rt, "start far above n", Nearest(5), |a| {
        a.set_start(7, 0, 4294967295)
    })
}

// Refusal 7 by ids. Step 9 opens bucket 1 of table 1, which lists entry 4 alone.
fn bad_ids(rt: &impl Print) -> io::Result<()> {
    with(rt, "id below n", Within(9), |a| a.set_id(1, 3, 4))?;
    with(rt, "id n", Within(9), |a| a.set_id(1, 3, 5))?;
    with(rt, "id far above n", Within(9), |a| {
        a.set_id(1, 3, 4294967295)
    })?;
    for question in [Nearest(1), Within(1)] {
        with(rt, "another substring", question, |a| a.set_id(1, 2, 4))?;
    }
    with(rt, "equal ids", Nearest(1), |a| a.set_id(1, 1, 0))?;
    with(rt, "equal ids", Within(1), |a| a.set_id(1, 2, 1))?;
    with(rt, "descending ids", Nearest(1), |a| a.set_id(1, 2, 0))?;
    with(rt, "descending ids", Within(1), |a| a.set_id(1, 0, 2))
}

// Step 8 opens buckets 2, 1, 7 and on to 131 of table 0; bucket 1 lists the fourth nearest entry.
fn bad_buckets_met_or_not(rt: &impl Print) -> io::Result<()> {
    for question in [Nearest(2), Nearest(3), Within(2), Within(3)] {
        with(rt, "bad in step 3", question, |a| a.set_id(3, 0, 9))?;
    }
    for question in [Nearest(0), Within(0)] {
        with(rt, "bad in step 0", question, |a| a.set_start(0, 3, 9))?;
    }
    for question in [Nearest(3), Nearest(4)] {
        with(rt, "bad after the fourth", question, |a| {
            a.set_start(0, 131, 4)
        })?;
    }
    for question in [Nearest(4), Within(8)] {
        with(rt, "buckets 2 and 1 bad", question, |a| {
            a.set_start(0, 2, 9)
        })?;
    }
    Ok(())
}

// No bucket is bad: entry 0 is missing in one table, then all but 0 and 2 in each, then all in each.
fn missing_entries(rt: &impl Print) -> io::Result<()> {
    for question in [Nearest(1), Nearest(2), Within(1)] {
        with(rt, "0 missing in table 1", question, |a| {
            a.set_start(1, 0, 1)
        })?;
    }
    let (starts, ids) = few_listed(&[0, 2]);
    let index = over_a(&starts, &ids);
    let few = ample("0 and 2 listed", &index, &[3]);
    for question in [Nearest(1), Nearest(2), Nearest(3), Within(2), Within(64)] {
        few.ask(rt, question)?;
    }
    let none = over_a(&[2; 2056], &[77; 40]);
    ample("none listed", &none, &[3]).ask_each(rt)
}

// Bucket 0 of table 1 lists these entries, every other bucket none.
fn few_listed(entries: &[u32]) -> ([u32; 2056], [u32; 40])
    requires { length entries.now < 3 }
{
    let few = entries.len();
    let mut starts = [few as u32; 2056];
    let mut ids = [77; 40];
    starts[257] = 0;
    ids[5..5 + few].copy_from_slice(entries);
    (starts, ids)
}

// Nothing is opened, and refusals 1 to 5 still come first.
fn no_entry(rt: &impl Print) -> io::Result<()> {
    let case = Case {
        name: "n 0",
        index: &without_stars(&[77; 2056], &[]),
        query: &[3],
        room: NONE,
    };
    for question in [Nearest(0), Nearest(3), Within(0), Within(64), Within(65)] {
        case.ask(rt, question)?;
    }
    with_codes(rt, "n 0", &[77; 2056], &[])?;
    with_codes(rt, "n 0, 2055 starts", &[77; 2055], &[])?;
    with_codes(rt, "n 0, 1 code", &[77; 2056], &[3])
}

fn with_codes(rt: &impl Print, name: &str, starts: &[u32], codes: &[u64]) -> io::Result<()> {
    ample(name, &without_stars(starts, codes), &[3]).ask_each(rt)
}

fn without_stars<'a>(starts: &'a [u32], codes: &'a [u64]) -> Index<'a> {
    Index {
        stars: &[],
        codes,
        ..over_a(starts, &[])
    }
}

fn verdicts(rt: &impl Print) -> io::Result<()> {
    let a = Lists::built();
    let index = a.index();
    let case = just_marks("A", &index, &[3]);
    for (t, g) in [
        (0, 0),
        (0, 64),
        (1, 0),
        (1, 5),
        (1, 6),
        (4, 3),
        (64, 64),
        (65, 0),
        (0, 65),
    ] {
        case.judge(rt, t, g)?;
    }
    judge_alike(rt, "one entry", 0, 64, &[7], &[2])?;
    judge_alike(rt, "one entry", 1, 64, &[7], &[2])?;
    judge_alike(rt, "two alike", 1, 0, &[7, 8], &[2, 2])?;
    judge_alike(rt, "two alike", 1, 1, &[7, 8], &[2, 2])?;
    judge_alike(rt, "one star", 1, 64, &[7, 7], &[2, 2])
}

fn judge_alike(
    rt: &impl Print,
    name: &str,
    t: u32,
    g: u32,
    stars: &[u32],
    codes: &[u64],
) -> io::Result<()> {
    let mut starts = [77; 2056];
    let mut ids = [77; 16];
    let index = built(A, stars, codes, &mut starts, &mut ids);
    just_marks(name, &index, &[3]).judge(rt, t, g)
}

// The builder's tables, in lists that are lent. Its answer is dropped: had it refused, each start would be 77, and the searches be refused or find every bucket empty.
fn built<'a>(
    shape: Shape,
    stars: &'a [u32],
    codes: &'a [u64],
    starts: &'a mut [u32],
    ids: &'a mut [u32],
) -> Index<'a> {
    let _ = tables::build(shape, stars, codes, starts, ids);
    Index {
        shape,
        stars,
        codes,
        starts,
        ids,
    }
}

fn verdicts_over_unsound_tables(rt: &impl Print) -> io::Result<()> {
    let a = spoiled(|a| a.set_id(7, 0, 9));
    just_marks("bad in step 7", &a.index(), &[3]).judge(rt, 2, 2)?;
    let a = spoiled(|a| a.set_id(6, 0, 9));
    just_marks("bad in step 6", &a.index(), &[3]).judge(rt, 2, 2)?;
    let (starts, ids) = few_listed(&[0]);
    let index = over_a(&starts, &ids);
    let few = just_marks("0 listed", &index, &[3]);
    few.judge(rt, 1, 64)?;
    few.judge(rt, 2, 64)?;
    let case = Case {
        name: "no marks",
        index: &over_a(&[77; 2056], &[77; 40]),
        query: &[3],
        room: NONE,
    };
    case.judge(rt, 2, 2)
}

// Entries 0 and 1 lie at distance 2, and 1 is found first; entry 4 differs from the query in each bit.
fn two_words(rt: &impl Print) -> io::Result<()> {
    let codes = [
        0x0123_4567_89ab_cdec,
        0x1111_2222_3333_4444,
        0x0123_4567_89ab_cddf,
        0x1111_2222_3333_4444,
        0x0123_4567_89ab_cdef,
        0x9111_2222_3333_4444,
        0x1111_2222_3333_4444,
        0x0123_4567_89ab_cdef,
        0xfedc_ba98_7654_3210,
        0xeeee_dddd_cccc_bbbb,
    ];
    let query = [0x0123_4567_89ab_cdef, 0x1111_2222_3333_4444];
    let mut starts = [77; 544];
    let mut ids = [77; 160];
    let coarse = Shape { w: 2, m: 32 };
    let index = built(coarse, &STARS, &codes, &mut starts, &mut ids);
    ask_twos(rt, &ample("w 2 m 32", &index, &query))?;
    let mut more_starts = [77; 36875];
    let mut fewer_ids = [77; 55];
    let fine = Shape { w: 2, m: 11 };
    let index = built(fine, &STARS, &codes, &mut more_starts, &mut fewer_ids);
    ask_twos(rt, &ample("w 2 m 11", &index, &query))
}

fn ask_twos(rt: &impl Print, case: &Case<'_>) -> io::Result<()> {
    for question in [
        Nearest(1),
        Nearest(2),
        Nearest(3),
        Nearest(4),
        Nearest(5),
        Within(2),
        Within(127),
        Within(128),
        Within(129),
    ] {
        case.ask(rt, question)?;
    }
    ample("w 2, query of 1 word", case.index, &[3]).ask_each(rt)
}

fn four_words(rt: &impl Print) -> io::Result<()> {
    let mut starts = [77; 1048592];
    let mut ids = [77; 32];
    four_words_over(rt, &mut starts, &mut ids)
}

// Entry 0 differs from the query in 20 bits, entry 1 in its last bit alone. Before the builder has run, the first bucket is bad.
fn four_words_over(
    rt: &impl Print,
    starts: &mut [u32; 1048592],
    ids: &mut [u32; 32],
) -> io::Result<()> {
    let codes = [
        0x0123_4567_89ab_cdef,
        0x1111_2222_3333_4444,
        0x000f_ffff,
        9,
        0x0123_4567_89ab_cdef,
        0x1111_2222_3333_4444,
        0,
        0x8000_0000_0000_0009,
    ];
    let shape = Shape { w: 4, m: 16 };
    let unbuilt = Index {
        shape,
        stars: &[7, 8],
        codes: &codes,
        starts,
        ids,
    };
    ask_fours(rt, &unbuilt, &[Nearest(1)])?;
    let index = built(shape, &[7, 8], &codes, starts, ids);
    let nearest = [Nearest(0), Nearest(1), Nearest(2)];
    ask_fours(rt, &index, &nearest)?;
    let within = [Within(0), Within(19), Within(20), Within(257)];
    ask_fours(rt, &index, &within)
}

fn ask_fours(rt: &impl Print, index: &Index<'_>, questions: &[Sought]) -> io::Result<()> {
    let query = [0x0123_4567_89ab_cdef, 0x1111_2222_3333_4444, 0, 9];
    let case = ample("w 4 m 16", index, &query);
    for question in questions {
        case.ask(rt, *question)?;
    }
    Ok(())
}

// 65,536 entries that are alike need 1,024 mark words.
fn largest_catalogue(rt: &impl Print) -> io::Result<()> {
    let stars = [10; 65536];
    let codes = [3; 65536];
    let mut starts = [77; 262148];
    let mut ids = [77; 262144];
    let shape = Shape { w: 1, m: 4 };
    let index = built(shape, &stars, &codes, &mut starts, &mut ids);
    let case = ample("65536 entries", &index, &[3]);
    for (question, words) in [(Nearest(3), 1023), (Nearest(3), 1024), (Within(0), 1024)] {
        ask_largest(rt, &case, question, words)?;
    }
    Ok(())
}

// Shows the last two mark words needed, and the one behind them.
fn ask_largest(rt: &impl Print, case: &Case<'_>, question: Sought, words: usize) -> io::Result<()> {
    let mut marks = [0xff; 1025];
    let mut entries = [99; 7];
    let mut distances = [99; 7];
    let found = Found(question.list(
        case.index,
        case.query,
        &mut marks[..words.min(1025)],
        &mut entries[..3],
        &mut distances[..4],
    ));
    case.show(rt, question, found, &marks[1022..], &entries, &distances)
}
