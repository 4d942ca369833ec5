// What a line shows.
use scope::{Refusal, Report, Verdict, VerdictReport};
use search::Sought;
use std::fmt;

#[derive(Clone, Copy)]
pub struct Question(pub Sought);

impl fmt::Display for Question {
    fn fmt<W: fmt::Write>(&self, f: &mut fmt::Formatter<W>) -> fmt::Result {
        match self.0 {
            Sought::Nearest(k) => write!(f, "nearest {k}"),
            Sought::Within(r) => write!(f, "within {r}"),
        }
    }
}

// What the searches nearest and within answer, and what verdict answers.
#[derive(Clone, Copy)]
pub struct Found(pub Result<Report, Refusal>);

impl fmt::Display for Found {
    fn fmt<W: fmt::Write>(&self, f: &mut fmt::Formatter<W>) -> fmt::Result {
        match self.0 {
            Ok(
                Report {
                    answers,
                    opened,
                    tested,
                },
            ) => write!(
                f,
                "{answers} listed, {} opened, {} tested",
                opened.0, tested.0
            ),
            Err(refusal) => write!(f, "{}", Refused(refusal)),
        }
    }
}

#[derive(Clone, Copy)]
pub struct Judged(pub Result<VerdictReport, Refusal>);

impl fmt::Display for Judged {
    fn fmt<W: fmt::Write>(&self, f: &mut fmt::Formatter<W>) -> fmt::Result {
        match self.0 {
            Ok(
                VerdictReport {
                    verdict,
                    opened,
                    tested,
                },
            ) => write!(
                f,
                "{}, {} opened, {} tested",
                Said(verdict),
                opened.0,
                tested.0
            ),
            Err(refusal) => write!(f, "{}", Refused(refusal)),
        }
    }
}

#[derive(Clone, Copy)]
struct Said(Verdict);

impl fmt::Display for Said {
    fn fmt<W: fmt::Write>(&self, f: &mut fmt::Formatter<W>) -> fmt::Result {
        match self.0 {
            Verdict::None => write!(f, "none"),
            Verdict::Unsure {
                star,
                other,
                distance,
                farther,
            } => write!(f, "unsure {star} {other} {distance} {farther}"),
            Verdict::Match { star, distance } => write!(f, "match {star} {distance}"),
        }
    }
}

#[derive(Clone, Copy)]
struct Refused(Refusal);

impl fmt::Display for Refused {
    fn fmt<W: fmt::Write>(&self, f: &mut fmt::Formatter<W>) -> fmt::Result {
        let why = self.0;
        write!(
            f,
            "refused {}, {} {}",
            why.number(),
            why.first(),
            why.second()
        )
    }
}

// Mark words, in hexadecimal digits, and places of the other lists.
#[derive(Clone, Copy)]
pub struct Words<'a>(pub &'a [u64]);

impl fmt::Display for Words<'_> {
    fn fmt<W: fmt::Write>(&self, f: &mut fmt::Formatter<W>) -> fmt::Result {
        for word in self.0 {
            write!(f, " {word:x}")?;
        }
        Ok(())
    }
}

#[derive(Clone, Copy)]
pub struct Places<'a>(pub &'a [u32]);

impl fmt::Display for Places<'_> {
    fn fmt<W: fmt::Write>(&self, f: &mut fmt::Formatter<W>) -> fmt::Result {
        for place in self.0 {
            write!(f, " {place}")?;
        }
        Ok(())
    }
}
