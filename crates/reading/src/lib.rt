// A session's records, from bytes to what they mean. No input and no output.
#![tactic(auto)]

ghost use Rattle.std.specs.Prelude.{◌≡◌, ◌+◌, ◌*◌, ◌≤◌, ◌<◌, length, IsTrue, Option, Some, Result, Ok};
ghost use Rattle.std.specs.Float.{binary64};
ghost use Rattle.std.specs.Float.Ieee.{of_bits};
ghost use Rattle.theory.specs.Lists.{over};
ghost use Rattle.reading.specs.Bytes.{number_at};
ghost use Rattle.reading.specs.Records.{front_of, wanted, kind_of, unit_of, code_at, code_behind, head_of, head_in, tables_head_in, entry_in, nearest_in, within_in, verdict_in, sky_in, body_in, takes, meaning_of, record_of};
ghost use Rattle.reading.specs.State.{start_of, number_of, next_of, Room};
ghost use Rattle.reading.specs.Offsets.{angles_at, across_of, up_of};

use scope::Unit;
use std::num::f64_from_bits_with_nan;

pub const LONGEST_BODY: usize = 8193;

// Length and kind, 2 bytes each, and the body.
pub const LONGEST_RECORD: usize = 4 + LONGEST_BODY;

const MOST_RECORDS: u32 = 65535;

pub const MOST_ENTRIES: u32 = 512;

// Where the first star's angles stand in a sky record: after length, kind and unit.
const ACROSS: usize = 5;

const UP: usize = 13;

// A record that is bad. A session prints the same of each.
#[derive(Clone, Copy, Debug, PartialEq, Eq)]
pub struct Bad;

// What stands at the front of the bytes that are left of the input: the body's length and the kind's number, which need not be a kind.
#[derive(Clone, Copy, Debug, PartialEq, Eq)]
pub struct Front {
    pub length: usize,
    // no `Kind`: `meaning_of` goes by the number, so that `same_head` can say of kinds 1 and 7 what the format says of them
    pub kind: u32,
}

#[derive(Clone, Copy, Debug, PartialEq, Eq)]
pub enum Kind {
    Head,
    Entry,
    Nearest,
    Within,
    Verdict,
    Sky,
    TablesHead,
}

// The words of a code, the lowest bits first.
#[derive(Clone, Copy, Debug, PartialEq, Eq)]
pub enum Code {
    One([u64; 1]),
    Two([u64; 2]),
}

// What is asked: k, r, or t and g, with a code; or the unit and the number of stars, whose angles stay in the body.
#[derive(Clone, Copy, Debug, PartialEq, Eq)]
pub enum Question {
    Nearest(u32, Code),
    Within(u32, Code),
    Verdict(u32, u32, Code),
    Sky(Unit, usize),
}

// What a record means: a head's w and m, an entry's star and code, or a question.
#[derive(Clone, Copy, Debug, PartialEq, Eq)]
pub enum Record {
    Head(u32, u32),
    Entry(u32, Code),
    Ask(Question),
}

// What a session has read: how many records, the head's w and m, how many entries, and whether a question came.
// w is 0 before the head, and no Option: `never_refused` and each question after the head speak of its words.
#[derive(Clone, Copy, Debug, PartialEq, Eq)]
pub struct Session {
    pub records: u32,
    pub words: u32,
    pub tables: u32,
    pub entries: u32,
    pub asked: bool,
}

impl Session {
    // A session before its first record.
    pub fn start() -> Session
        ensures { result ≡ start_of }
    {
        Session {
            records: 0,
            words: 0,
            tables: 0,
            entries: 0,
            asked: false,
        }
    }

    // The record at the front of s, the bytes that are left, whether s ends with it or goes on; None where the input ends.
    #[tactic(auto, unfolding(crate::specs::Records::record_of))]
    pub fn next_record(self, s: &[u8]) -> Result<Option<Record>, Bad>
        ensures { result ≡ record_of self s.now }
    {
        let Some(front) = front_of(s)? else {
            return Ok(None);
        };
        if MOST_RECORDS <= self.records {
            return Err(Bad);
        }
        let end = 4 + front.length;
        let record = self.meaning(front.kind, &s[4..end])?;
        Ok(Some(record))
    }

    // The next record's number. No session has more than 65,535 records before it.
    pub fn number(self) -> u32
        ensures { result ≡ number_of self }
    {
        self.records.min(MOST_RECORDS) + 1
    }

    // What is known after a record.
    pub fn next(self, rec: Record) -> Session
        requires { Room self rec }
        ensures { result ≡ next_of self (Ok (Some rec)) }
    {
        let known = Session {
            records: self.number(),
            ..self
        };
        match rec {
            Record::Head(w, m) => Session {
                words: w,
                tables: m,
                ..known
            },
            Record::Entry(_, _) => Session {
                entries: self.entries + 1,
                ..known
            },
            Record::Ask(_) => Session {
                asked: true,
                ..known
            },
        }
    }

    // What a record of this kind and body means here.
    #[tactic(auto, unfolding(crate::specs::Records::meaning_of))]
    fn meaning(self, number: u32, body: &[u8]) -> Result<Record, Bad>
        ensures { result ≡ meaning_of self number body.now }
    {
        let kind = Kind::try_from(number)?;
        if !self.takes(kind) {
            return Err(Bad);
        }
        self.record(kind, body)
    }

    // Whether a record of this kind may stand here: the head first, then entries, then questions.
    fn takes(self, kind: Kind) -> bool
        ensures { result ≡ takes self kind }
    {
        match kind {
            Kind::Head | Kind::TablesHead => self.words == 0,
            Kind::Entry => self.words != 0 && !self.asked && self.entries < MOST_ENTRIES,
            Kind::Nearest | Kind::Within | Kind::Verdict | Kind::Sky => self.words != 0,
        }
    }

    // What the body b of a kind that may stand here means.
    fn record(self, kind: Kind, b: &[u8]) -> Result<Record, Bad>
        requires { IsTrue (takes self kind) }
        ensures { result ≡ body_in kind self.words b.now }
    {
        match kind {
            Kind::Head => head(b),
            Kind::TablesHead => tables_head(b),
            Kind::Entry => self.behind_head(b).entry(),
            Kind::Nearest => self.behind_head(b).nearest(),
            Kind::Within => self.behind_head(b).within(),
            Kind::Verdict => self.behind_head(b).verdict(),
            Kind::Sky => sky(b),
        }
    }

    // The body of a record behind the head, whose codes have the session's words.
    fn behind_head(self, bytes: &[u8]) -> Body<'_>
        requires { 0 < self.words }
        ensures { (result.words ≡ self.words) × (result.bytes.now ≡ bytes.now) }
    {
        Body {
            words: self.words,
            bytes,
        }
    }
}

// A body that ends with a code of so many words.
#[derive(Clone, Copy)]
struct Body<'a> {
    words: u32,
    bytes: &'a [u8],
    ghost some_words: { 0 < words },
}

// A function for each kind of body, as the format has them. One for `nearest` and `within` would take the constructor, and a clause say what that makes.
impl Body<'_> {
    fn entry(self) -> Result<Record, Bad>
        ensures { result ≡ entry_in self.entry.words self.entry.bytes.now }
    {
        let code = self.code_behind(4)?;
        Ok(Record::Entry(four_at(self.bytes, 0), code))
    }

    fn nearest(self) -> Result<Record, Bad>
        ensures { result ≡ nearest_in self.entry.words self.entry.bytes.now }
    {
        let code = self.code_behind(2)?;
        Ok(Record::Ask(Question::Nearest(two_at(self.bytes, 0), code)))
    }

    fn within(self) -> Result<Record, Bad>
        ensures { result ≡ within_in self.entry.words self.entry.bytes.now }
    {
        let code = self.code_behind(2)?;
        Ok(Record::Ask(Question::Within(two_at(self.bytes, 0), code)))
    }

    fn verdict(self) -> Result<Record, Bad>
        ensures { result ≡ verdict_in self.entry.words self.entry.bytes.now }
    {
        let code = self.code_behind(4)?;
        let b = self.bytes;
        Ok(Record::Ask(Question::Verdict(two_at(b, 0), two_at(b, 2), code)))
    }

    // The code that ends the body, behind `at` bytes.
    fn code_behind(self, at: usize) -> Result<Code, Bad>
        requires { at ≤ 8 }
        ensures { result ≡ code_behind at self.entry.words self.entry.bytes.now }
    {
        let b = self.bytes;
        if b.len() != at + 8 * (self.words as usize) {
            return Err(Bad);
        }
        let low = eight_at(b, at);
        if self.words == 2 {
            Ok(Code::Two([low, eight_at(b, at + 8)]))
        } else {
            Ok(Code::One([low]))
        }
    }
}

impl TryFrom<u32> for Kind {
    type Error = Bad;

    ghost try_from_gives = { λ number r. r ≡ kind_of number };

    fn try_from(number: u32) -> Result<Kind, Bad> {
        match number {
            1 => Ok(Kind::Head),
            2 => Ok(Kind::Entry),
            3 => Ok(Kind::Nearest),
            4 => Ok(Kind::Within),
            5 => Ok(Kind::Verdict),
            6 => Ok(Kind::Sky),
            7 => Ok(Kind::TablesHead),
            _ => Err(Bad),
        }
    }
}

// How many bytes of body to read after the first 4 bytes of a record; 0 where there are fewer, or the body is too long.
// No Option: 0 is a number of bytes, and in each case none is to be read.
#[tactic(auto, unfolding(crate::specs::Records::wanted))]
pub fn body_length(s: &[u8]) -> usize
    ensures { (result ≡ wanted s.now) × (result ≤ LONGEST_BODY) }
{
    if s.len() < 4 {
        return 0;
    }
    let n = two_at(s, 0) as usize;
    if LONGEST_BODY < n {
        return 0;
    }
    n
}

fn front_of(s: &[u8]) -> Result<Option<Front>, Bad>
    ensures { result ≡ front_of s.now }
{
    if s.is_empty() {
        return Ok(None);
    }
    if s.len() < 4 {
        return Err(Bad);
    }
    let length = two_at(s, 0) as usize;
    if LONGEST_BODY < length {
        return Err(Bad);
    }
    if s.len() < 4 + length {
        return Err(Bad);
    }
    let kind = two_at(s, 2);
    Ok(Some(Front { length, kind }))
}

// ---- the body of each kind, a code being w words

fn head(b: &[u8]) -> Result<Record, Bad>
    ensures { result ≡ head_in b.now }
{
    match b {
        [w, 8] => head_of(u32::from(*w), 8 * u32::from(*w)),
        _ => Err(Bad),
    }
}

fn tables_head(b: &[u8]) -> Result<Record, Bad>
    ensures { result ≡ tables_head_in b.now }
{
    match b {
        [w, m] => head_of(u32::from(*w), u32::from(*m)),
        _ => Err(Bad),
    }
}

// A head that names w words and m tables.
fn head_of(w: u32, m: u32) -> Result<Record, Bad>
    requires { w < 256 }
    ensures { result ≡ head_of w m }
{
    if w != 1 && w != 2 {
        return Err(Bad);
    }
    let q = 64 * w;
    if m < q / 8 {
        return Err(Bad);
    }
    if q / 4 < m {
        return Err(Bad);
    }
    Ok(Record::Head(w, m))
}

fn sky(b: &[u8]) -> Result<Record, Bad>
    ensures { result ≡ sky_in b.now }
{
    if b.len() % 16 != 1 {
        return Err(Bad);
    }
    let unit = unit_of(b[0])?;
    Ok(Record::Ask(Question::Sky(unit, b.len() / 16)))
}

// No `TryFrom`, as `Kind` has: `u8` and `Unit` are both of another crate.
fn unit_of(byte: u8) -> Result<Unit, Bad>
    ensures { result ≡ unit_of byte }
{
    match byte {
        1 => Ok(Unit::Degrees),
        2 => Ok(Unit::Radians),
        _ => Err(Bad),
    }
}

// ---- the angles of a sky record

// The angles of the n stars of a sky record s, written to the front of two lists.
pub fn read_offsets(s: &[u8], n: usize, across: &mut [f64], up: &mut [f64])
    requires { (n ≤ length across.old) × (n ≤ length up.old) × (5 + 16 * n ≤ length s.now) }
    ensures across_after { across.new ≡ over (across_of s.now n) across.old }
    ensures up_after { up.new ≡ over (up_of s.now n) up.old }
{
    read_angles(s, ACROSS, &mut across[..n]);
    read_angles(s, UP, &mut up[..n]);
}

// The angles that stand at every 16th byte from place `at` on. By place: in a record without stars UP is behind the end, where no chunk can begin,
// and std has no lemma of what a zip of `iter_mut` with chunks leaves.
fn read_angles(s: &[u8], at: usize, list: &mut [f64])
    requires { at + 16 * length list.old ≤ length s.now + 8 }
    ensures { list.new ≡ angles_at s.now at (length list.old) }
{
    for (i, angle) in list.iter_mut().enumerate() {
        *angle = f64_from_bits_with_nan(eight_at(s, at + 16 * i));
    }
}

// ---- the number in the 2, 4 or 8 bytes from place `at` on, little-endian

#[tactic(auto, unfolding(crate::specs::Bytes::number_at))]
fn two_at(s: &[u8], at: usize) -> u32
    requires { at + 2 ≤ length s.now }
    ensures { result ≡ number_at 2 s.now at }
{
    u32::from(u16::from_le_bytes(bytes(s, at)))
}

#[tactic(auto, unfolding(crate::specs::Bytes::number_at))]
fn four_at(s: &[u8], at: usize) -> u32
    requires { at + 4 ≤ length s.now }
    ensures { result ≡ number_at 4 s.now at }
{
    u32::from_le_bytes(bytes(s, at))
}

#[tactic(auto, unfolding(crate::specs::Bytes::number_at))]
fn eight_at(s: &[u8], at: usize) -> u64
    requires { at + 8 ≤ length s.now }
    ensures { result ≡ number_at 8 s.now at }
{
    u64::from_le_bytes(bytes(s, at))
}

// The N bytes of that number. Copied, since std makes an array of a slice by a Result, whose Err could not come.
#[tactic(auto, using(crate::proofs::Numbers::own_bytes))]
fn bytes<const N: usize>(s: &[u8], at: usize) -> [u8; N]
    requires { at + N ≤ length s.now }
    ensures { number_at N result 0 ≡ number_at N s.now at }
{
    let mut bytes = [0; N];
    bytes.copy_from_slice(&s[at..at + N]);
    bytes
}
