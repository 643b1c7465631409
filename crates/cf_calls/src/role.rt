//! The roles of desks, and which call needs which.

ghost use Rattle.std.specs.Prelude.{◌≡◌};
ghost use Rattle.std.specs.List.{list_any};
ghost use Rattle.cf_calls.specs.Acts as acts;
ghost use Rattle.cf_calls.specs.Roles.{is_role};

use crate::acts::Act;

/// What a desk may do.
#[derive(Clone, Copy)]
pub enum Role {
    Council,
    Dept,
    Purchasing,
    Payables,
    Treasury,
    Revenue,
    Assets,
    Payroll,
    Controller,
}

/// The role that an act needs.
pub fn role_of(act: &Act) -> Role
    ensures { result ≡ acts.role_of act.now }
{
    act.kind().row().role
}

fn is_same_role(role: Role, other: Role) -> bool
    ensures { result ≡ is_role role other }
{
    role == other
}

/// Whether a role is among these.
pub fn has_role(roles: &[Role], role: Role) -> bool
    ensures { result ≡ list_any (is_role role) roles.now }
{
    roles.iter().any(|other| is_same_role(role, *other))
}
