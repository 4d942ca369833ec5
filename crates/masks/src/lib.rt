// The numbers with r ones under a mask, ascending: the first of them, and from one straight to the next.
#![tactic(auto)]

ghost use Rattle.std.specs.Prelude.{◌≡◌, ◌+◌, ◌≤◌, ◌<◌};
ghost use Rattle.std.specs.Int.Bits.{bit_and};
ghost use Rattle.std.specs.Int.Count.{ones};
ghost use Rattle.theory.specs.Lists.{first_from};
ghost use Rattle.masks.specs.Masks.{has_ones, Lowest, carry_place};

// The lowest k ones of the mask. It is worked with as a usize, as a bucket's number is.
fn lowest(under: u16, k: u32) -> usize
    requires { k ≤ ones under }
    ensures { Lowest under k result }
{
    let mut rest = under as usize;
    for _ in 0..k {
        rest &= rest - 1;
    }
    under as usize - rest
}

// The smallest number with r ones under the mask; 65536 if the mask has fewer, which is above every bucket of a table: one test then ends a step, where an Option would need two.
pub fn first(under: u16, r: u32) -> usize
    ensures { result ≡ first_from (has_ones under r) 0 65536 }
{
    if under.count_ones() < r {
        return 65536;
    }
    lowest(under, r)
}

// The lowest place where e can get a one: outside the mask, or above its lowest one under the mask, which then goes. With the mask's ones below that one filled in, adding 1 carries to this place.
fn place(under: u16, e: usize) -> usize
    requires { e < 65536 }
    ensures { result ≡ carry_place under e }
{
    let under = under as usize;
    let t = ((e & under) + 65536).trailing_zeros();
    let fill = under & ((1 << t) - 1);
    (e + fill + 1).trailing_zeros() as usize
}

// The smallest number above e with as many ones under the mask, which are r: e with a one at that place, and below it the lowest of the mask's ones, as many as are missing.
pub fn next(under: u16, r: u32, e: usize) -> usize
    requires { (e < 65536) × (ones (bit_and e under) ≡ r) }
    ensures { result ≡ first_from (has_ones under r) (e + 1) 65536 }
{
    let p = place(under, e);
    let up = ((e >> p) + 1) << p;
    let missing = r - (up & under as usize).count_ones();
    up + lowest(under, missing)
}
