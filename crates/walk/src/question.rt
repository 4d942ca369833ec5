// What is asked: an index, and a query and a mask of as many words as a code.
ghost use Rattle.std.specs.Prelude.{◌≡◌, ◌<◌, ◌++◌, Ok, Err};
ghost use Rattle.codes.specs.Distances.{limited};
ghost use Rattle.scope.specs.Refusals.{unless, wrong_query, wrong_mask};
ghost use Rattle.scope.specs.Tables.{n};
ghost use Rattle.scope.specs.Walk.{masked, distance_of};

use scope::Refusal;
use shapes::Accepted;
use std::marker::Model;

#[derive(Drop)]
pub struct Question<'a> {
    pub index: Accepted<'a>,
    pub query: &'a [u64],
    pub mask: &'a [u64],
}

impl<'a> Model for Question<'a> {
    ghost use Rattle.scope.specs.Walk.{Question as Asking, masked};
    ghost use Rattle.walk.specs.Asked.{Asked};

    ghost Value = { Asking };

    ghost view = { λ x. masked x.index x.query.now x.mask.now };

    ghost invariant = { λ x. Asked (masked x.index x.query.now x.mask.now) };
}

impl<'a> Question<'a> {
    // Refusal 4 where the query or the mask is not of w words.
    pub fn of(
        index: Accepted<'a>,
        query: &'a [u64],
        mask: &'a [u64],
    ) -> Result<Question<'a>, Refusal>
        ensures { result ≡ unless (wrong_query index.entry.shape query.now ++ wrong_mask index.entry.shape mask.now) Err (Ok (masked index.entry query.now mask.now)) }
    {
        let words = index.shape.words();
        if query.len() != words {
            return Err(Refusal::Query);
        }
        if mask.len() != words {
            return Err(Refusal::Query);
        }
        Ok(Question { index, query, mask })
    }

    // The same question, held by value: what lies behind a reference is read again after each write to marks or tally. By hand, since a derived clone may fail.
    pub(crate) fn again(&self) -> Question<'a>
        ensures { result ≡ self.now }
    {
        let index = &self.index;
        let own = Accepted {
            shape: index.shape,
            stars: index.stars,
            codes: index.codes,
            starts: index.starts,
            ids: index.ids,
        };
        Question {
            index: own,
            query: self.query,
            mask: self.mask,
        }
    }

    // Entry i's distance from the query under the mask, up to a limit.
    pub(crate) fn distance(&self, i: usize, limit: u32) -> Option<u32>
        requires { i < n self.now.index }
        ensures { result ≡ limited limit (distance_of self.now i) }
    {
        let index = &self.index;
        index.codes().distance(i, self.query, self.mask, limit)
    }
}
