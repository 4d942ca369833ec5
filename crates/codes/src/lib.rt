// Leaves of the searches: distance, substrings and marks over 64-bit words, and zeros in a list.
#![tactic(auto)]

ghost use Rattle.std.specs.Prelude.{◌≡◌, [], ◌+◌, ◌*◌, ◌≤◌, ◌<◌, length};
ghost use Rattle.theory.specs.Lists.{over, tab};
ghost use Rattle.scope.specs.Codes as spec;
ghost use Rattle.scope.specs.Codes.{code_of};
ghost use Rattle.codes.specs.Distances.{distance_from, limited};
ghost use Rattle.codes.specs.Marks.{is_marked, with_mark};

// A list of codes, as C lends them: w words each, one code after another. Which entries it has is the caller's.
#[derive(Clone, Copy)]
pub struct Codes<'a> {
    pub words: &'a [u64],
    pub w: usize,
    pub ghost few_words: { w ≤ 4 },
}

// How many bits of a code and the query differ, of those under the mask. Query and mask may have more words.
fn differing(code: &[u64], query: &[u64], mask: &[u64]) -> u32
    requires few { length code.now ≤ 4 }
    requires long { (length code.now ≤ length query.now) × (length code.now ≤ length mask.now) }
    ensures { result ≡ spec.distance_under mask.now (64 * length code.now) code.now query.now }
{
    let mut r = 0;
    for (k, word) in code.iter().enumerate() {
        r += ((*word ^ query[k]) & mask[k]).count_ones();
    }
    r
}

// The len bits of a code from bit `from` on, as a number. They may cross from one word into the next.
pub fn substring(code: &[u64], from: usize, len: usize) -> usize
    requires { (1 ≤ len) × (len ≤ 32) × (from + len ≤ 64 * length code.now) }
    ensures { result ≡ spec.substring from len code.now }
{
    let k = from / 64;
    let o = from % 64;
    if o + len <= 64 {
        ((code[k] >> o) % (1 << len)) as usize
    } else {
        let low = 64 - o;
        let high = code[k + 1] % (1 << (len - low));
        ((code[k] >> o) + (high << low)) as usize
    }
}

impl<'a> Codes<'a> {
    // Entry i's code.
    fn code(self, i: usize) -> &'a [u64]
        requires { i * self.w + self.w ≤ length self.words.now }
        ensures value { result.now ≡ code_of self.entry.w self.entry.words.now i }
        ensures whole { length result.now ≡ self.entry.w }
    {
        let at = i * self.w;
        let words = self.words;
        &words[at..at + self.w]
    }

    // How many bits of entry i's code and the query differ, of those under the mask, if that is at most the limit. Where the limit is low, a first look goes over just as many words
    // as exceed it at 24 bits each: words of unrelated codes differ in about 32 bits, hardly ever in fewer than 24.
    pub fn distance(self, i: usize, query: &[u64], mask: &[u64], limit: u32) -> Option<u32>
        requires inside { i * self.w + self.w ≤ length self.words.now }
        requires long { (self.w ≤ length query.now) × (self.w ≤ length mask.now) }
        ensures { result ≡ limited limit (distance_from self.entry.w self.entry.words.now query.now mask.now i) }
    {
        let code = self.code(i);
        if limit as usize + 24 < 24 * self.w {
            let few = limit as usize / 24 + 1;
            if limit < differing(&code[..few], query, mask) {
                return None;
            }
        }
        let d = differing(code, query, mask);
        if limit < d {
            return None;
        }
        Some(d)
    }

    // The len bits of entry i's code from bit `from` on.
    pub fn entry_substring(self, i: usize, from: usize, len: usize) -> usize
        requires { (1 ≤ len) × (len ≤ 32) × (from + len ≤ 64 * self.w) × (i * self.w + self.w ≤ length self.words.now) }
        ensures { result ≡ spec.substring from len (code_of self.entry.w self.entry.words.now i) }
    {
        substring(self.code(i), from, len)
    }
}

// Whether entry i is marked.
pub fn marked(marks: &[u64], i: usize) -> bool
    requires { i < 64 * length marks.now }
    ensures { result ≡ is_marked marks.now i }
{
    (marks[i / 64] >> (i % 64)) % 2 == 1
}

// Entry i becomes marked.
pub fn mark(marks: &mut [u64], i: usize)
    requires { i < 64 * length marks.old }
    ensures { marks.new ≡ with_mark marks.old i }
{
    let k = i / 64;
    marks[k] |= 1 << (i % 64);
}

// A number type, with its zero.
pub trait Zero: Copy {
    ghost ZERO: { Self };

    const ZERO: Self;
}

impl Zero for u32 {
    ghost ZERO = { 0 };

    const ZERO: u32 = 0;
}

impl Zero for u64 {
    ghost ZERO = { 0 };

    const ZERO: u64 = 0;
}

// The first n places become 0, the others stay.
pub fn clear<T: Zero>(list: &mut [T], n: usize)
    requires { n ≤ length list.old }
    ensures { list.new ≡ over (tab (λ _. T.ZERO) n) list.old }
{
    for x in &mut list[..n] {
        *x = T::ZERO;
    }
}
