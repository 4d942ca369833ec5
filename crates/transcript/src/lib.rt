// The lists of a session, and what one turn comes to. What a turn and a whole session print is in specs/, what holds of every session in proofs/.
#![tactic(auto)]

use reading::{MOST_ENTRIES, Session};

// ---- how long the lists of a session are: there is room for the most entries, with w = 2, whatever m a head names

pub const ENTRIES: usize = MOST_ENTRIES as usize;

pub const WORDS: usize = 2 * ENTRIES;

// m is 16, its substrings of 8 bits: no other shape has as many
pub const STARTS: usize = 16 * 257;

// m is 32 at most
pub const IDS: usize = 32 * ENTRIES;

pub const MARKS: usize = ENTRIES / 64;

// Room for the longest text of a turn: the first line, the counts and a line for each entry.
pub const TEXT: usize = 17408;

// The entries' stars and codes, and the tables. Like the lists lent to the searches they are arrays, since the memory of a session is fixed.
#[derive(Drop)]
pub struct Catalogue {
    pub stars: [u32; ENTRIES],
    pub codes: [u64; WORDS],
    pub starts: [u32; STARTS],
    pub ids: [u32; IDS],
}

// The lists lent to the searches.
#[derive(Drop)]
pub struct Lists {
    pub marks: [u64; MARKS],
    pub entries: [u32; ENTRIES],
    pub distances: [u32; ENTRIES],
}

// The lists of a session.
#[derive(Drop)]
pub struct Desk {
    pub catalogue: Catalogue,
    pub lists: Lists,
}

// The session after the turn, None where the run ends; and how many bytes to print, a number, since the memory of their list is fixed.
#[derive(Clone, Copy, Debug, PartialEq, Eq)]
pub struct Turned {
    pub next: Option<Session>,
    pub written: usize,
}
