// How an answer is said.
ghost use Rattle.cases.specs.Said.{tabbed, answer_said, refusal_said};

use limits::refusal::Refusal;
use std::fmt;

// Numbers, each behind a tab.
#[derive(Clone, Copy)]
pub struct Tabbed<'a, T>(pub &'a [T]);

impl<T: fmt::Display> fmt::Display for Tabbed<'_, T> {
    ghost output = { λ t. tabbed T.output t.0.now };

    fn fmt<W: fmt::Write>(&self, f: &mut fmt::Formatter<W>) -> fmt::Result {
        for number in self.0 {
            write!(f, "\t{number}")?;
        }
        Ok(())
    }
}

// An answer: `taken` and its numbers, or `refused`, number and place.
#[derive(Clone, Copy)]
pub struct Answer<const N: usize>(pub Result<[u64; N], Refusal>);

impl<const N: usize> fmt::Display for Answer<N> {
    ghost output = { λ a. answer_said a.0 };

    fn fmt<W: fmt::Write>(&self, f: &mut fmt::Formatter<W>) -> fmt::Result {
        match self.0 {
            Ok(numbers) => write!(f, "taken{}", Tabbed(&numbers)),
            Err(r) => write!(f, "refused\t{}\t{}", r.number, r.place),
        }
    }
}

// A refusal in words.
#[derive(Clone, Copy)]
pub struct InWords(pub Refusal);

impl fmt::Display for InWords {
    ghost output = { λ r. refusal_said r.0 };

    fn fmt<W: fmt::Write>(&self, f: &mut fmt::Formatter<W>) -> fmt::Result {
        write!(f, "refused {} at {}", self.0.number, self.0.place)
    }
}
