//! The words of the commands, and what each of them lets stand behind it.

ghost use Rattle.std.specs.Prelude.{◌≡◌, ◌≤◌, map};
ghost use Rattle.cf_books_words.specs.Options as options;
ghost use Rattle.cf_books_words.specs.Requests as spec;

/// The first word of a command line.
#[derive(Clone, Copy)]
pub enum CommandWord {
    CheckChart,
    CheckGrants,
    Check,
    List,
    Calls,
    Chart,
    Lines,
    Claims,
    Posts,
    Balances,
    Open,
    Statement,
    Ledger,
    Documents,
    Month,
    Paid,
}

/// The command of a word.
pub fn word_named(text: &str) -> Option<CommandWord>
    ensures { result ≡ spec.word_of text.now }
{
    match text {
        "check-chart" => Some(CommandWord::CheckChart),
        "check-grants" => Some(CommandWord::CheckGrants),
        "check" => Some(CommandWord::Check),
        "list" => Some(CommandWord::List),
        "calls" => Some(CommandWord::Calls),
        "chart" => Some(CommandWord::Chart),
        "lines" => Some(CommandWord::Lines),
        "claims" => Some(CommandWord::Claims),
        "posts" => Some(CommandWord::Posts),
        "balances" => Some(CommandWord::Balances),
        "open" => Some(CommandWord::Open),
        "statement" => Some(CommandWord::Statement),
        "ledger" => Some(CommandWord::Ledger),
        "documents" => Some(CommandWord::Documents),
        "month" => Some(CommandWord::Month),
        "paid" => Some(CommandWord::Paid),
        _ => None,
    }
}

/// The options that a command has.
pub fn options_of(word: CommandWord) -> &'static [&'static str]
    ensures { map (λ n. n.now) result.now ≡ options.options_of word }
{
    match word {
        CommandWord::CheckChart | CommandWord::CheckGrants | CommandWord::Chart => &[],
        CommandWord::Check | CommandWord::Calls | CommandWord::Lines => &["entries"],
        CommandWord::Claims => &["csv"],
        CommandWord::List | CommandWord::Open | CommandWord::Month | CommandWord::Paid => {
            &["csv", "entries"]
        }
        CommandWord::Posts => &["csv", "entries", "through", "year", "fund", "account"],
        CommandWord::Balances => &["csv", "entries", "through", "alone"],
        CommandWord::Statement => &["csv", "entries", "through"],
        CommandWord::Ledger => &[
            "csv", "entries", "through", "from", "fund", "dept", "object", "line", "source",
            "vendor", "year",
        ],
        CommandWord::Documents => &["csv", "entries", "kind", "party", "key", "amount"],
    }
}

/// How many words stand between a command and its file.
pub fn words_of(word: CommandWord) -> u8
    ensures count { result ≡ spec.words_of word }
    ensures few { result ≤ 2 }
{
    match word {
        CommandWord::CheckChart
        | CommandWord::CheckGrants
        | CommandWord::Check
        | CommandWord::List
        | CommandWord::Calls
        | CommandWord::Chart
        | CommandWord::Lines
        | CommandWord::Posts
        | CommandWord::Open
        | CommandWord::Ledger
        | CommandWord::Documents => 0,
        CommandWord::Claims | CommandWord::Balances | CommandWord::Month | CommandWord::Paid => 1,
        CommandWord::Statement => 2,
    }
}
