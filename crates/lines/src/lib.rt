// A session's lines, from answers to bytes. Each function writes from a place of the lent list on, and returns the place after: a writer that holds the list
// would have to say in each clause that it still lends the same one. No `write!`: no clause says when it does not fail, and no line may fail.
#![tactic(auto)]

ghost use Rattle.std.specs.Prelude.{◌≡◌, ◌+◌, ◌*◌, ◌≤◌, ◌<◌, [], ◌∷◌, ◌++◌, length, get_or, map};
ghost use Rattle.lines.specs.Text.{hex, digit, line};
ghost use Rattle.lines.specs.Lines.{stars_line, bad_line, refused_line, counts_line, answer_line, answer_lines, verdict_line, answers_of, found_lines, judged_line, sky_line};
ghost use Rattle.lines.specs.Wrote.{Wrote, Put, text_of, width, room};

use itoa::Buffer;
use scope::{Refusal, Report, Verdict, VerdictReport};

const SPACE: u8 = b' ';

const END: u8 = b'\n';

// What stands in a line: a word, a number in decimal, or a code in 16 hexadecimal digits.
#[derive(Clone, Copy)]
enum Field<'a> {
    Word(&'a [u8]),
    Number(u32),
    Code(u64),
}

// The first line. It and the line of a bad record have a function each, since each is a line of its own in document 01.
pub fn put_stars(out: &mut [u8], at: usize, n: u32) -> usize
    requires { at + 64 ≤ length out.old }
    ensures { Put 64 out.old at (stars_line n) out.new result }
{
    put_line(out, at, &[Field::Word(b"stars"), Field::Number(n)])
}

pub fn put_bad(out: &mut [u8], at: usize, number: u32) -> usize
    requires { at + 64 ≤ length out.old }
    ensures { Put 64 out.old at (bad_line number) out.new result }
{
    put_line(out, at, &[Field::Word(b"bad"), Field::Number(number)])
}

// The answer of a search, `word` being near or within: the counts, then a line for each of the first entries and distances.
pub fn put_found(
    out: &mut [u8],
    at: usize,
    number: u32,
    word: &[u8],
    found: Result<Report, Refusal>,
    stars: &[u32],
    entries: &[u32],
    distances: &[u32],
) -> usize
    requires lists_hold { (length word.now ≤ 8) × (answers_of found ≤ length entries.now) × (answers_of found ≤ length distances.now) }
    requires room { at + 128 + 33 * answers_of found ≤ length out.old }
    ensures { Put (64 + 33 * answers_of found) out.old at (found_lines word.now number found stars.now entries.now distances.now) out.new result }
{
    match found {
        Ok(report) => {
            let a = put_counts(out, at, number, word, report);
            let n = report.answers as usize;
            put_answers(out, a, stars, &entries[..n], &distances[..n])
        }
        Err(why) => put_refused(out, at, number, why),
    }
}

pub fn put_judged(
    out: &mut [u8],
    at: usize,
    number: u32,
    judged: Result<VerdictReport, Refusal>,
) -> usize
    requires { at + 64 ≤ length out.old }
    ensures { Put 64 out.old at (judged_line number judged) out.new result }
{
    match judged {
        Ok(report) => put_verdict(out, at, number, report.verdict),
        Err(why) => put_refused(out, at, number, why),
    }
}

pub fn put_sky(out: &mut [u8], at: usize, number: u32, sky: Result<u64, Refusal>) -> usize
    requires { at + 64 ≤ length out.old }
    ensures { Put 64 out.old at (sky_line number sky) out.new result }
{
    match sky {
        Ok(code) => put_line(
            out,
            at,
            &[
                Field::Number(number),
                Field::Word(b"code"),
                Field::Code(code),
            ],
        ),
        Err(why) => put_refused(out, at, number, why),
    }
}

fn put_verdict(out: &mut [u8], at: usize, number: u32, verdict: Verdict) -> usize
    requires { at + 64 ≤ length out.old }
    ensures { Put 64 out.old at (verdict_line number verdict) out.new result }
{
    let number = Field::Number(number);
    match verdict {
        Verdict::None => put_line(out, at, &[number, Field::Word(b"none")]),
        Verdict::Unsure {
            star,
            other,
            distance,
            farther,
        } => put_line(
            out,
            at,
            &[
                number,
                Field::Word(b"unsure"),
                Field::Number(star),
                Field::Number(other),
                Field::Number(distance),
                Field::Number(farther),
            ],
        ),
        Verdict::Match { star, distance } => put_line(
            out,
            at,
            &[
                number,
                Field::Word(b"match"),
                Field::Number(star),
                Field::Number(distance),
            ],
        ),
    }
}

fn put_refused(out: &mut [u8], at: usize, number: u32, why: Refusal) -> usize
    requires { at + 64 ≤ length out.old }
    ensures { Put 64 out.old at (refused_line number why) out.new result }
{
    put_line(
        out,
        at,
        &[
            Field::Number(number),
            Field::Word(b"refused"),
            Field::Number(why.number()),
        ],
    )
}

fn put_counts(out: &mut [u8], at: usize, number: u32, word: &[u8], report: Report) -> usize
    requires { (length word.now ≤ 8) × (at + 64 ≤ length out.old) }
    ensures { Put 64 out.old at (counts_line word.now number report) out.new result }
{
    put_line(
        out,
        at,
        &[
            Field::Number(number),
            Field::Word(word),
            Field::Number(report.answers),
            Field::Number(report.opened.0),
            Field::Number(report.tested.0),
        ],
    )
}

// A line for each answer.
fn put_answers(
    out: &mut [u8],
    at: usize,
    stars: &[u32],
    entries: &[u32],
    distances: &[u32],
) -> usize
    requires { (length entries.now ≡ length distances.now) × (at + 33 * length entries.now + 64 ≤ length out.old) }
    ensures { Put (33 * length entries.now) out.old at (answer_lines stars.now entries.now distances.now (length entries.now)) out.new result }
{
    let mut place = at;
    for (&entry, &distance) in entries.iter().zip(distances) {
        place = put_answer(out, place, entry, star_of(stars, entry), distance);
    }
    place
}

fn put_answer(out: &mut [u8], at: usize, entry: u32, star: u32, distance: u32) -> usize
    requires { at + 33 ≤ length out.old }
    ensures { Put 33 out.old at (answer_line entry star distance) out.new result }
{
    put_line(
        out,
        at,
        &[
            Field::Number(entry),
            Field::Number(star),
            Field::Number(distance),
        ],
    )
}

fn star_of(stars: &[u32], entry: u32) -> u32
    ensures { result ≡ get_or stars.now entry 0 }
{
    stars.get(entry as usize).copied().unwrap_or(0)
}

// ---- a line of fields

// The fields with one space between, and a line feed.
fn put_line(out: &mut [u8], at: usize, fields: &[Field<'_>]) -> usize
    requires { (0 < length fields.now) × (at + room fields.now ≤ length out.old) }
    ensures { Put (room fields.now) out.old at (line (map text_of fields.now)) out.new result }
{
    let Some((last, front)) = fields.split_last() else {
        return at;
    };
    let mut place = at;
    for field in front {
        place = put_field(out, place, field);
        place = put_byte(out, place, SPACE);
    }
    place = put_field(out, place, last);
    put_byte(out, place, END)
}

fn put_field(out: &mut [u8], at: usize, field: &Field<'_>) -> usize
    requires { at + width field.now ≤ length out.old }
    ensures { Put (width field.now) out.old at (text_of field.now) out.new result }
{
    match *field {
        Field::Word(word) => put_text(out, at, word),
        Field::Number(n) => put_text(out, at, Buffer::new().format(n).as_bytes()),
        Field::Code(code) => put_hex(out, at, 16, code),
    }
}

fn put_byte(out: &mut [u8], at: usize, byte: u8) -> usize
    requires { at < length out.old }
    ensures { Wrote out.old at (byte ∷ []) out.new result }
{
    out[at] = byte;
    at + 1
}

fn put_text(out: &mut [u8], at: usize, text: &[u8]) -> usize
    requires { at + length text.now ≤ length out.old }
    ensures { Wrote out.old at text.now out.new result }
{
    let after = at + text.len();
    out[at..after].copy_from_slice(text);
    after
}

// The last k hexadecimal digits of n.
fn put_hex(out: &mut [u8], at: usize, k: usize, n: u64) -> usize
    requires { at + k ≤ length out.old }
    ensures { Wrote out.old at (hex k n) out.new result }
{
    if k == 0 {
        at
    } else {
        let p = put_hex(out, at, k - 1, n / 16);
        out[p] = glyph(n % 16);
        p + 1
    }
}

// The ASCII code of a digit below 16.
fn glyph(d: u64) -> u8
    requires { d < 16 }
    ensures { result ≡ digit d }
{
    let d = d as u8;
    if d < 10 { b'0' + d } else { b'a' + (d - 10) }
}
