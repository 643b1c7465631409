//! The documents of a city's books: a row for each requisition, order item, voucher, bill, asset,
//! bond, lease and loan that ever was, with its state and what entries did to it.
#![tactic(auto)]

mod accounts;
mod documents;
mod event;
mod facts;
mod index;
mod lent;
mod named;
mod rolls;
mod standing;
mod text;
mod texts;
mod told;
mod vouchers;
mod wanted;

pub use text::documents_text;
