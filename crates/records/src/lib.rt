// One turn of a session: what it knows and one record in, what it knows next and the text out. No input and no output.
// Each function that prints returns the place after its text. `ask`, `ask_verdict` and `ask_sky` write from a place of `out` on, as the functions of lines do,
// the others from its front.
#![tactic(auto)]

ghost use Rattle.std.specs.Prelude.{◌≡◌, ◌+◌, ◌*◌, ◌≤◌, ◌<◌, length, take, Ok, Some};
ghost use Rattle.lines.specs.Lines.{sky_line};
ghost use Rattle.lines.specs.Wrote.{Put};
ghost use Rattle.scope.specs.Calls.{sky_answer};
ghost use Rattle.reading.specs.Offsets.{across_of, up_of};
ghost use Rattle.reading.specs.Records.{record_of};
ghost use Rattle.reading.specs.State.{number_of};
ghost use Rattle.transcript.specs.Opening.{opening, ending};
ghost use Rattle.transcript.specs.Questions.{shape_of, words_of, asks, searched};
ghost use Rattle.transcript.specs.Turn.{index_of, with_entry, tabled, turns, turn_end};
ghost use Rattle.search.specs.Sought.{sought_end};
ghost use Rattle.records.specs.Arms.{StarsFit, word_of, Listed, Replied, Judging, Taken};

use reading::{Code, Question, Record, Session};
use scope::{Index, Refusal, Report, Shape, Unit};
use search::Sought;
use transcript::{Catalogue, Desk, ENTRIES, TEXT, Turned};

// The turn at the record at the front of s. The text is written to the front of `out`.
pub fn turn(session: Session, s: &[u8], desk: &mut Desk, out: &mut [u8; TEXT]) -> Turned
    ensures { turns result desk.new out.new ≡ turn_end session desk.old out.old s.now }
{
    match session.next_record(s) {
        Err(_) => {
            let written = lines::put_bad(out, 0, session.number());
            Turned {
                next: None,
                written,
            }
        }
        Ok(None) => {
            let written = put_end(session, out);
            Turned {
                next: None,
                written,
            }
        }
        Ok(Some(rec)) => {
            let written = take(session, rec, s, desk, out);
            Turned {
                next: Some(session.next(rec)),
                written,
            }
        }
    }
}

// What the record at the front of s leaves on the desk, and prints.
fn take(session: Session, rec: Record, s: &[u8], desk: &mut Desk, out: &mut [u8; TEXT]) -> usize
    requires { record_of session s.now ≡ Ok (Some rec) }
    ensures { Taken session rec s.now desk.old out.old desk.new out.new result }
{
    match rec {
        Record::Head(_, _) => 0,
        Record::Entry(star, code) => {
            keep(session, star, code, &mut desk.catalogue);
            0
        }
        Record::Ask(question) => answer(session, question, s, desk, out),
    }
}

// Keeps an entry behind those before it.
fn keep(session: Session, star: u32, code: Code, catalogue: &mut Catalogue)
    requires { session.entries < ENTRIES }
    ensures { catalogue.new ≡ with_entry session star code catalogue.old }
{
    let e = session.entries as usize;
    catalogue.stars[e] = star;
    let words = words(&code);
    let at = words.len() * e;
    catalogue.codes[at..at + words.len()].copy_from_slice(words);
}

// The first line, where it is due.
fn put_opening(session: Session, out: &mut [u8]) -> usize
    requires { 64 ≤ length out.old }
    ensures { Put 64 out.old 0 (opening session) out.new result }
{
    if session.asked {
        0
    } else {
        lines::put_stars(out, 0, session.entries)
    }
}

fn put_end(session: Session, out: &mut [u8]) -> usize
    requires { 64 ≤ length out.old }
    ensures { Put 64 out.old 0 (ending session) out.new result }
{
    if session.words == 0 {
        0
    } else {
        put_opening(session, out)
    }
}

// ---- questions

// Builds the tables where this is the first question, and prints the answer. A match and no table of functions: each kind of question carries other values.
fn answer(
    session: Session,
    question: Question,
    s: &[u8],
    desk: &mut Desk,
    out: &mut [u8; TEXT],
) -> usize
    requires { StarsFit question (length s.now) }
    ensures { Taken session (Record.Ask question) s.now desk.old out.old desk.new out.new result }
{
    build_tables(session, &mut desk.catalogue);
    let at = put_opening(session, out);
    match question {
        Question::Nearest(k, code) => ask(session, Sought::Nearest(k), code, desk, out, at),
        Question::Within(r, code) => ask(session, Sought::Within(r), code, desk, out, at),
        Question::Verdict(t, g, code) => ask_verdict(session, t, g, code, desk, out, at),
        Question::Sky(unit, n) => ask_sky(session, unit, n, s, out, at),
    }
}

// The tables, where no question came before. What the builder answers is dropped: after the head it never refuses a session's catalogue and lists (`never_refused`, transcript/proofs/Linking).
// No `index` here, since the tables are lent to the builder.
fn build_tables(session: Session, catalogue: &mut Catalogue)
    ensures { catalogue.new ≡ tabled session catalogue.old }
{
    if session.asked {
        return;
    }
    let n = session.entries as usize;
    let _ = tables::build(
        shape_of(session),
        kept(&catalogue.stars, n),
        kept(&catalogue.codes, n * session.words as usize),
        &mut catalogue.starts,
        &mut catalogue.ids,
    );
}

// Prints the entries that a search lists.
fn ask(
    session: Session,
    sought: Sought,
    code: Code,
    desk: &mut Desk,
    out: &mut [u8; TEXT],
    at: usize,
) -> usize
    requires { at ≤ 64 }
    ensures { Replied desk.old (searched (word_of sought) (number_of session) (take session.entries desk.old.catalogue.stars) (sought_end sought (asks (index_of session desk.old.catalogue) desk.old.lists code))) out.old at desk.new out.new result }
{
    let found = list(session, sought, code, desk);
    lines::put_found(
        out,
        at,
        session.number(),
        word_of(sought),
        found,
        kept(&desk.catalogue.stars, session.entries as usize),
        &desk.lists.entries,
        &desk.lists.distances,
    )
}

fn word_of(sought: Sought) -> &'static [u8]
    ensures { result.now ≡ word_of sought }
{
    match sought {
        Sought::Nearest(_) => b"near",
        Sought::Within(_) => b"within",
    }
}

fn list(session: Session, sought: Sought, code: Code, desk: &mut Desk) -> Result<Report, Refusal>
    ensures { Listed desk.old (sought_end sought (asks (index_of session desk.old.catalogue) desk.old.lists code)) result desk.new }
{
    let index = index(session, &desk.catalogue);
    sought.list(
        &index,
        words(&code),
        &mut desk.lists.marks,
        &mut desk.lists.entries,
        &mut desk.lists.distances,
    )
}

fn ask_verdict(
    session: Session,
    t: u32,
    g: u32,
    code: Code,
    desk: &mut Desk,
    out: &mut [u8; TEXT],
    at: usize,
) -> usize
    requires { at ≤ 64 }
    ensures { Judging session t g code desk.old out.old at desk.new out.new result }
{
    let index = index(session, &desk.catalogue);
    let judged = search::verdict(&index, words(&code), t, g, &mut desk.lists.marks);
    lines::put_judged(out, at, session.number(), judged)
}

fn ask_sky(
    session: Session,
    unit: Unit,
    n: usize,
    s: &[u8],
    out: &mut [u8; TEXT],
    at: usize,
) -> usize
    requires { (at ≤ 64) × (n ≤ ENTRIES) × (5 + 16 * n ≤ length s.now) }
    ensures { Put 64 out.old at (sky_line (number_of session) (sky_answer unit (across_of s.now n) (up_of s.now n))) out.new result }
{
    let mut across = [0.0; ENTRIES];
    let mut up = [0.0; ENTRIES];
    reading::read_offsets(s, n, &mut across, &mut up);
    let sky = sky::code(unit, &across[..n], &up[..n]);
    lines::put_sky(out, at, session.number(), sky)
}

// ---- the catalogue: the places that entries have filled, and its shape

// The catalogue with its tables.
fn index(session: Session, catalogue: &Catalogue) -> Index<'_>
    ensures { result ≡ index_of session catalogue.now }
{
    let n = session.entries as usize;
    Index {
        shape: shape_of(session),
        stars: kept(&catalogue.stars, n),
        codes: kept(&catalogue.codes, n * session.words as usize),
        starts: &catalogue.starts,
        ids: &catalogue.ids,
    }
}

// Two numbers of a session, which need not be a listed shape. No `From`: both types are of another crate.
fn shape_of(session: Session) -> Shape
    ensures { result ≡ shape_of session }
{
    Shape {
        w: session.words,
        m: session.tables,
    }
}

// The first n places of a list, or all.
fn kept<T>(list: &[T], n: usize) -> &[T]
    ensures { result.now ≡ take n list.now }
{
    &list[..n.min(list.len())]
}

// The words of a code. No method of `Code`: a public function's statement determines its result, and no clause says where a slice lies.
fn words(code: &Code) -> &[u64]
    ensures { (result.now ≡ words_of code.now) × (length result.now ≤ 2) }
{
    match code {
        Code::One(words) => words,
        Code::Two(words) => words,
    }
}
