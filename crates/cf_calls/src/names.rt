//! The kinds of thing that a refusal names.

/// What a call names.
#[derive(Clone, Copy)]
pub enum NameKind {
    Fund,
    Dept,
    Object,
    Line,
    Source,
    Requisition,
    Order,
    Voucher,
    Bill,
    Asset,
    Bond,
}

/// A document, or a part of one, that has a state.
#[derive(Clone, Copy)]
pub enum DocumentKind {
    Requisition,
    Order,
    Item,
    Voucher,
    Bond,
}
