// The blackboard's count: how many buckets are open after a step, by the formula, with no catalogue at hand; under a mask too.
#![tactic(auto)]

ghost use Rattle.std.specs.Prelude.{◌≡◌, Ok, Err, [], ◌∷◌, ◌++◌, ◌+◌, ◌/◌, ◌%◌, ◌≤◌, ◌<◌, cond, leb, length};
ghost use Rattle.scope.specs.Shape.{q, m};
ghost use Rattle.scope.specs.Walk.{open_in, open_after, open_in_under, open_after_under};
ghost use Rattle.scope.specs.Refusals.{unless, unlisted, above};
ghost use Rattle.scope.specs.Calls.{blackboard_answer, masked_blackboard_answer};

use binomials::first_binomials;
use scope::{Opened, Refusal, Shape};
use shapes::ListedShape;

mod binomials;

// Step m * r + a leaves tables 0 to a open to radius r, and the rest to r - 1: how many radii of table z these are, from 0 on.
// z is a number below m: it is counted up, and compared with step % m.
fn radii(m: u32, step: u32, z: u32) -> u32
    requires { (0 < m) × (step / m ≤ 16) }
    ensures value { result ≡ cond (leb z (step % m)) (step / m + 1) (step / m) }
    ensures few { result ≤ 17 }
{
    let r = step / m;
    if z <= step % m {
        return r + 1;
    }
    r
}

// How many buckets of table z are open.
fn open_in(shape: ListedShape, step: u32, z: u32) -> u32
    requires { (step ≤ q shape) × (z < m shape) }
    ensures { result ≡ open_in shape step z }
{
    let m = shape.shape.m;
    let s = shape.bits(z as usize) as u32;
    first_binomials(s, radii(m, step, z))
}

// And of all tables.
fn open_after(shape: ListedShape, step: u32) -> u32
    requires { step ≤ q shape }
    ensures { result ≡ open_after shape step }
{
    let m = shape.shape.m;
    (0..m).map(|z| open_in(shape, step, z)).sum()
}

// Under a mask: a bucket's bits that do not count are free.
fn open_in_under(shape: ListedShape, mask: &[u64], step: u32, z: u32) -> u32
    requires bounds { (step ≤ q shape) × (z < m shape) }
    requires long { length mask.now ≡ shape.w }
    ensures { result ≡ open_in_under shape mask.now step z }
{
    let m = shape.shape.m;
    let place = z as usize;
    let s = shape.bits(place);
    let under = codes::substring(mask, shape.first_bit(place), s);
    let c = under.count_ones();
    let free = s as u32 - c;
    (1 << free) * first_binomials(c, radii(m, step, z))
}

fn open_after_under(shape: ListedShape, mask: &[u64], step: u32) -> u32
    requires bounds { step ≤ q shape }
    requires long { length mask.now ≡ shape.w }
    ensures { result ≡ open_after_under shape mask.now step }
{
    let m = shape.shape.m;
    (0..m).map(|z| open_in_under(shape, mask, step, z)).sum()
}

// Refusals 1 and 4, but for the mask.
fn accept(shape: Shape, step: u32) -> Result<ListedShape, Refusal>
    ensures { result ≡ unless (unlisted shape ++ above shape (step ∷ [])) Err (Ok shape) }
{
    let shape = ListedShape::try_from(shape)?;
    if shape.q() < step {
        return Err(Refusal::Query);
    }
    Ok(shape)
}

// How many buckets are open after the step.
pub fn count(shape: Shape, step: u32) -> Result<Opened, Refusal>
    ensures { result ≡ blackboard_answer shape step }
{
    let shape = accept(shape, step)?;
    Ok(Opened(open_after(shape, step)))
}

// The same under a mask.
pub fn count_masked(shape: Shape, mask: &[u64], step: u32) -> Result<Opened, Refusal>
    ensures { result ≡ masked_blackboard_answer shape mask.now step }
{
    let shape = accept(shape, step)?;
    if mask.len() != shape.words() {
        return Err(Refusal::Query);
    }
    Ok(Opened(open_after_under(shape, mask, step)))
}
