//! The kinds of statement.

ghost use Rattle.std.specs.Prelude.{◌≡◌};
ghost use Rattle.cf_base.specs.Statements.{statement_of};

/// Which statement a report is: the fund statements, the government-wide ones, and what joins the
/// two (GASB Statement 34).
#[derive(Clone, Copy)]
pub enum Kind {
    Balance,
    Operating,
    Budget,
    Position,
    Activities,
    Reconcile,
    Changes,
}

impl Kind {
    /// The statement of a word, as calls, paths and command lines name it (own rule).
    pub fn named(word: &str) -> Option<Kind>
        ensures { result ≡ statement_of word.now }
    {
        match word {
            "balance" => Some(Kind::Balance),
            "operating" => Some(Kind::Operating),
            "budget" => Some(Kind::Budget),
            "position" => Some(Kind::Position),
            "activities" => Some(Kind::Activities),
            "reconcile" => Some(Kind::Reconcile),
            "changes" => Some(Kind::Changes),
            _ => None,
        }
    }
}
