// A shape that refusal 1 does not fit, and how it cuts codes into substrings.
ghost use Rattle.std.specs.Prelude.{◌≡◌, Ok, Err, true, ◌||◌, ◌/◌, ◌%◌, ◌≤◌, ◌<◌, eqb};
ghost use Rattle.scope.specs.Refusals.{unless, unlisted};
ghost use Rattle.scope.specs.Shape as spec;

use scope::{Refusal, Shape};
use std::marker::Model;

fn known_words(w: u32) -> bool
    ensures { result ≡ (eqb w 1 || eqb w 2 || eqb w 4) }
{
    matches!(w, 1 | 2 | 4)
}

pub fn listed(shape: Shape) -> bool
    ensures { result ≡ spec.listed shape }
{
    if !known_words(shape.w) {
        return false;
    }
    let q = 64 * shape.w;
    q / 16 <= shape.m && shape.m <= q / 4
}

// How many tables a shape has, listed or not.
pub fn tables(shape: Shape) -> usize
    ensures { result ≡ spec.m shape }
{
    shape.m as usize
}

#[derive(Clone, Copy)]
pub struct ListedShape {
    pub shape: Shape,
}

impl Model for ListedShape {
    ghost use Rattle.std.specs.Prelude.{◌≡◌, true};
    ghost use Rattle.scope.specs.declared.Shape.{Shape as SpecShape};
    ghost use Rattle.scope.specs.Shape as spec;

    ghost Value = { SpecShape };

    ghost view = { λ x. x.shape };

    ghost invariant = { λ x. spec.listed x.shape ≡ true };

    ghost inverse = { λ shape. record { shape = shape } };
}

impl TryFrom<Shape> for ListedShape {
    type Error = Refusal;

    ghost try_from_gives = { λ shape r. r ≡ unless (unlisted shape) Err (Ok shape) };

    fn try_from(shape: Shape) -> Result<ListedShape, Refusal> {
        if listed(shape) {
            Ok(ListedShape { shape })
        } else {
            Err(Refusal::Unlisted)
        }
    }
}

impl ListedShape {
    // How many words a code has.
    pub fn words(self) -> usize
        ensures { result ≡ self.w }
    {
        self.shape.w as usize
    }

    // How many bits a code has.
    pub fn q(self) -> u32
        ensures value { result ≡ spec.q self }
        ensures few { result ≤ 256 }
    {
        64 * self.shape.w
    }

    // How many tables there are.
    pub fn m(self) -> usize
        ensures { result ≡ spec.m self }
    {
        tables(self.shape)
    }

    // Every substring has so many bits or one more.
    fn least(self) -> usize
        ensures value { result ≡ spec.q self / spec.m self }
        ensures known { spec.listed self ≡ true }
    {
        (self.q() / self.shape.m) as usize
    }

    // So many substrings, the first, have one bit more.
    fn longer(self) -> usize
        ensures { result ≡ spec.q self % spec.m self }
    {
        (self.q() % self.shape.m) as usize
    }

    // z is a number: a type for it would belong to one shape, and each caller counts up to m.
    // The first bit of substring z.
    pub fn first_bit(self, z: usize) -> usize
        requires { z < spec.m self }
        ensures { result ≡ spec.first_bit self z }
    {
        z * self.least() + z.min(self.longer())
    }

    // How many bits it has.
    pub fn bits(self, z: usize) -> usize
        requires { z < spec.m self }
        ensures value { result ≡ spec.len self z }
        ensures few { result ≤ 16 }
    {
        if z < self.longer() {
            self.least() + 1
        } else {
            self.least()
        }
    }

    // How many buckets table z has.
    pub fn buckets(self, z: usize) -> usize
        requires { z < spec.m self }
        ensures { result ≡ spec.size self z }
    {
        1 << self.bits(z)
    }

    // How many starts the tables before z have: each has one more than it has buckets, and one bit more is twice as many buckets.
    pub fn starts_before(self, z: usize) -> usize
        requires { z ≤ spec.m self }
        ensures { result ≡ spec.starts_before self z }
    {
        let each = 1 << self.least();
        z * (each + 1) + z.min(self.longer()) * each
    }
}
