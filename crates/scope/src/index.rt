use crate::Shape;
use std::marker::Model;

// A catalogue, two lent lists, with its shape; and its tables, two lent lists more.
#[derive(Drop)]
pub struct Index<'a> {
    pub shape: Shape,
    pub stars: &'a [u32],
    pub codes: &'a [u64],
    pub starts: &'a [u32],
    pub ids: &'a [u32],
}

impl<'a> Model for Index<'a> {
    ghost use Rattle.scope.specs.Tables.{Index as Tables, index};

    ghost Value = { Tables };

    ghost view = { λ x. index x.shape x.stars.now x.codes.now x.starts.now x.ids.now };
}
