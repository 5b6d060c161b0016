//! What is told: the first of the faults that were met.

ghost use Rattle.std.specs.Prelude.{◌≡◌};
ghost use Rattle.c_typing.specs.Faults.{broken, comes_before, fault, note, notes};
ghost use Rattle.c_typing.specs.Expressions.{broken_by, broken_if};

use c_tree::At;
use c_typing::Fault;

fn comes_before(a: &Fault, b: &Fault) -> bool
    ensures { result ≡ comes_before a.now b.now }
{
    a.at.line < b.at.line
        || (a.at.line == b.at.line
            && (a.at.column < b.at.column || (a.at.column == b.at.column && a.rule < b.rule)))
}

/// The first fault so far.
#[derive(Clone, Copy, Debug)]
pub struct Told {
    pub first: Option<Fault>,
}

impl Told {
    fn note(&mut self, fault: Fault)
        ensures { self.new.first ≡ note self.old.first fault }
    {
        self.first = match self.first {
            None => Some(fault),
            Some(first) => Some(if comes_before(&first, &fault) {
                first
            } else {
                fault
            }),
        };
    }

    /// A rule is broken at a place.
    pub fn tell(&mut self, rule: u8, at: At)
        ensures { self.new.first ≡ notes self.old.first (broken rule at) }
    {
        self.note(Fault { rule, at });
    }

    /// A rule may be broken at a place.
    pub fn tell_any(&mut self, rule: Option<u8>, at: At)
        ensures { self.new.first ≡ notes self.old.first (broken_by rule at) }
    {
        if let Some(rule) = rule {
            self.tell(rule, at);
        }
    }

    /// A rule is broken at a place, or not.
    pub fn tell_if(&mut self, broken: bool, rule: u8, at: At)
        ensures { self.new.first ≡ notes self.old.first (broken_if broken rule at) }
    {
        if broken {
            self.tell(rule, at);
        }
    }
}
