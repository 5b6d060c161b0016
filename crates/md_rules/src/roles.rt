//! The roles of registers.

ghost use Rattle.std.specs.Prelude.{◌≡◌, ◌≤◌, length};
ghost use Rattle.md_text.specs.Declarations.{registers_in};
ghost use Rattle.md_text.specs.Rules.{has_roles};
ghost use Rattle.md_forms.specs.Seen.{form_of, declarations_of};
ghost use Rattle.md_rules.specs.Roles.{is_role, declares_role, role_count};

use md_forms::{Declaration, Form};
use md_rows::Role;

fn is_role(role: Role, other: Role) -> bool
    ensures { result ≡ is_role role other }
{
    match role {
        Role::General => matches!(other, Role::General),
        Role::Result => matches!(other, Role::Result),
        Role::Stack => matches!(other, Role::Stack),
        Role::Link => matches!(other, Role::Link),
        Role::Other => false,
    }
}

fn declares_role(role: Role, form: &Form) -> bool
    ensures { result ≡ declares_role role (form_of form.now) }
{
    match form {
        Form::RegisterLine { role: other, .. } => is_role(role, *other),
        _ => false,
    }
}

fn role_count(declarations: &[Declaration], role: Role) -> usize
    ensures { result ≡ role_count role (declarations_of declarations.now) }
{
    let mut count = 0;
    for declaration in declarations {
        if declares_role(role, &declaration.form) {
            count += 1;
        }
    }
    count
}

/// Whether there are one stack and one result register, at most one link register, and some general ones.
pub fn has_roles(declarations: &[Declaration]) -> bool
    ensures { result ≡ has_roles (registers_in (declarations_of declarations.now)) }
{
    role_count(declarations, Role::Stack) == 1
        && role_count(declarations, Role::Result) == 1
        && role_count(declarations, Role::Link) <= 1
        && role_count(declarations, Role::General) > 0
}
