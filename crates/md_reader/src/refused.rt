//! The reason that is told.

ghost use Rattle.std.specs.Prelude.{◌≡◌};
ghost use Rattle.md_text.specs.Accepted.{number_of};
ghost use Rattle.md_forms.specs.SeenRules.{rule_of};

use md_forms::{Told, number_of};
use vp_io::Reason;

/// A rule of a text is told at a line's first column, without a detail.
pub fn reason_of(told: Told) -> Reason
    ensures line { result.line ≡ told.line }
    ensures rule { result.rule ≡ number_of (rule_of told.rule) }
    ensures column { result.column ≡ 1 }
    ensures detail { result.detail ≡ 0 }
{
    Reason {
        line: told.line,
        column: 1,
        rule: number_of(told.rule) as u8,
        detail: 0,
    }
}
