//! Lists for those who keep and audit a city's books: the posts of each entry, the trial balance of
//! a fiscal year, what is open, and the statements with their names. Each is records of
//! comma-separated values below a row of names.
#![tactic(auto)]

mod accounts;
mod balances;
mod lines;
mod names;
mod open;
mod open_fields;
mod posts;
mod rows;
mod statement;
mod texts;

pub use accounts::{fund_accounts, gov_accounts};
pub use balances::{
    AccountBalances, balances_text, put_balance_head, put_balance_unless_zero, trial_balance_text,
};
pub use lines::{later_of, part_and_years, part_name};
pub use names::{basis_word, department_name, fund_name, source_name};
pub use open::open_text;
pub use open_fields::line_of;
pub use posts::{PlacedPost, is_asked, is_id_asked, open_with_posts, posts_text};
pub use rows::{Layout, Rows};
pub use statement::{row_part, row_part_name, statement_text, text_of_rows};
pub use texts::{decimal_text, drawn_text, money_if, number_text, put_between, put_text};
