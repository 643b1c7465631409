//! What each statement is called.
ghost use Rattle.std.specs.Prelude.{◌≡◌};
ghost use Rattle.cf_statements.specs.Titles.{title_of};

use cf_base::Kind;

/// The title of a statement, without city and year.
pub fn title(kind: Kind) -> &'static str
    ensures { result.now ≡ title_of kind }
{
    match kind {
        Kind::Balance => "Balance sheet",
        Kind::Operating => "Revenues, expenditures and changes",
        Kind::Budget => "Budgetary comparison",
        Kind::Position => "Net position",
        Kind::Activities => "Activities",
        Kind::Reconcile => "Reconciliation to net position",
        Kind::Changes => "Reconciliation to change in net position",
    }
}
