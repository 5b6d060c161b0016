//! The rules of a description's text.

ghost use Rattle.std.specs.Prelude.{◌≡◌};
ghost use Rattle.md_text.specs.Accepted.{number_of};
ghost use Rattle.md_forms.specs.SeenRules.{rule_of};

/// A rule that a text may break, in the order of their numbers.
#[derive(Clone, Copy, Debug, PartialEq, Eq)]
pub enum Rule {
    BadByte,
    OtherVersion,
    NoForm,
    BadHeading,
    OutOfRange,
    DeclaredTwice,
    NotDeclared,
    ReservedName,
    WrongRoles,
    BadTransfer,
    MisusedHole,
    ModeInMode,
    TooLarge,
    TooMany,
}

/// The number of a rule, counted from 1.
pub fn number_of(rule: Rule) -> u32
    ensures { result ≡ number_of (rule_of rule) }
{
    match rule {
        Rule::BadByte => 1,
        Rule::OtherVersion => 2,
        Rule::NoForm => 3,
        Rule::BadHeading => 4,
        Rule::OutOfRange => 5,
        Rule::DeclaredTwice => 6,
        Rule::NotDeclared => 7,
        Rule::ReservedName => 8,
        Rule::WrongRoles => 9,
        Rule::BadTransfer => 10,
        Rule::MisusedHole => 11,
        Rule::ModeInMode => 12,
        Rule::TooLarge => 13,
        Rule::TooMany => 14,
    }
}

/// A rule that is broken, and the line at which it is told.
#[derive(Clone, Copy, Debug, PartialEq, Eq)]
pub struct Told {
    pub rule: Rule,
    pub line: u32,
}
