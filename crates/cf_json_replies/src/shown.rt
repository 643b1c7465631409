//! The answers of looks in JSON.

ghost use Rattle.std.specs.Prelude.{◌≡◌, ◌+◌, ◌≤◌, ◌∷◌, ◌++◌, true, false, map, IfOk, OnOk, OnErr, vec_len, vec_capacity};
ghost use Rattle.std.specs.List.{list_all};
ghost use Rattle.serde_json.specs.Data.{Data, string};
ghost use Rattle.serde_json.specs.View.{items_of};
ghost use Rattle.serde_json.specs.Written.{items_text, comma_if};
ghost use Rattle.json.specs.Print as json;
ghost use Rattle.cf_calls.specs.declared.reply.Body.TheVariants as body;
ghost use Rattle.cf_calls.specs.declared.shown.Shown.TheVariants as variant;
ghost use Rattle.cf_json_members.specs.Objects.{signed_cents, list_of, text_of};
ghost use Rattle.cf_json_members.specs.Parts.{is_plain};
ghost use Rattle.cf_json_replies.specs.Replies.{reply_data};
ghost use Rattle.cf_json_replies.specs.Shown as spec;

use crate::form::quoted;
use cf_base::Day;
use cf_calls::Row;
use cf_calls::items::LineAmount;
use cf_calls::shown::{
    AssetState, ItemState, LineNumbers, OrderItemShown, ReconShown, RequisitionState, Shown,
    VoucherState,
};
use cf_json_members::parts::Part::{Cents, Date, Number, Signed, Word};
use cf_json_members::parts::{put_field, put_head, put_object, put_quoted, put_signed};
use std::alloc::{AllocError, Global};

fn requisition_word(state: RequisitionState) -> &'static str
    ensures value { result.now ≡ spec.requisition_word state }
    ensures plain { list_all is_plain result.now ≡ true }
{
    match state {
        RequisitionState::Open => "open",
        RequisitionState::Withdrawn => "withdrawn",
        RequisitionState::Ordered => "ordered",
        RequisitionState::Lapsed => "lapsed",
    }
}

fn item_word(state: ItemState) -> &'static str
    ensures value { result.now ≡ spec.item_word state }
    ensures plain { list_all is_plain result.now ≡ true }
{
    match state {
        ItemState::Live => "live",
        ItemState::Finished => "finished",
        ItemState::Lapsed => "lapsed",
        ItemState::Cancelled => "cancelled",
    }
}

fn voucher_word(state: VoucherState) -> &'static str
    ensures value { result.now ≡ spec.voucher_word state }
    ensures plain { list_all is_plain result.now ≡ true }
{
    match state {
        VoucherState::Open => "open",
        VoucherState::Paid => "paid",
        VoucherState::Void => "void",
    }
}

fn asset_word(state: AssetState) -> &'static str
    ensures value { result.now ≡ spec.asset_word state }
    ensures plain { list_all is_plain result.now ≡ true }
{
    match state {
        AssetState::Held => "held",
        AssetState::Disposed => "disposed",
        AssetState::Void => "void",
    }
}

/// What stands in a list of an answer.
trait Element {
    /// Its JSON value.
    ghost value: { Self → Data };

    fn put(&self, alloc: Global, out: &mut Vec<u8>) -> Result<(), AllocError>
        ensures { OnOk result (out.new.items ≡ out.old.items ++ text_of (value self.now)) };
}

impl Element for LineAmount {
    ghost value = { spec.line_amount_data };

    fn put(&self, _alloc: Global, out: &mut Vec<u8>) -> Result<(), AllocError> {
        put_object(
            out,
            &[
                ("amount", Cents(self.amount)),
                ("line", Number(self.line as u64)),
            ],
        )
    }
}

impl Element for OrderItemShown {
    ghost value = { spec.order_item_data };

    fn put(&self, _alloc: Global, out: &mut Vec<u8>) -> Result<(), AllocError> {
        put_object(
            out,
            &[
                ("line", Number(self.line as u64)),
                ("open", Cents(self.open_cents)),
                ("state", Word(item_word(self.state))),
                ("year", Number(self.year as u64)),
            ],
        )
    }
}

impl Element for i128 {
    ghost value = { signed_cents };

    #[tactic(auto, unfolding(cf_json_members::specs::Objects::text_of))]
    fn put(&self, _alloc: Global, out: &mut Vec<u8>) -> Result<(), AllocError> {
        put_signed(out, *self)
    }
}

impl Element for Row {
    ghost value = { spec.row_data };

    #[tactic(auto, unfolding(cf_json_members::specs::Objects::text_of))]
    fn put(&self, alloc: Global, out: &mut Vec<u8>) -> Result<(), AllocError> {
        out.push(b'[')?;
        put_text(alloc, out, self.label.as_str())?;
        put_elements(alloc, out, true, self.amounts.as_slice())
    }
}

/// Appends the JSON of a text.
fn put_text(alloc: Global, out: &mut Vec<u8>, text: &str) -> Result<(), AllocError>
    ensures { OnOk result (out.new.items ≡ out.old.items ++ text_of (string text.now)) }
{
    let json = quoted(alloc, text)?;
    out.extend_from_slice(json.as_bytes())
}

/// Appends an element, after a comma where it isn't the first.
fn put_element<T: Element>(
    alloc: Global,
    out: &mut Vec<u8>,
    later: bool,
    element: &T,
) -> Result<(), AllocError>
    ensures { OnOk result
        (out.new.items ≡ out.old.items ++ (comma_if later ++ text_of (T.value element.now))) }
{
    if later {
        out.push(b',')?;
    }
    element.put(alloc, out)
}

/// Appends the elements of an array and its end. Before the first stands a comma where others are
/// written.
#[tactic(auto, unfolding(cf_json_members::specs::Objects::text_of))]
fn put_elements<T: Element>(
    alloc: Global,
    out: &mut Vec<u8>,
    later: bool,
    elements: &[T],
) -> Result<(), AllocError>
    ensures { OnOk result
        (out.new.items ≡ out.old.items ++ items_text later (items_of (map T.value elements.now))) }
{
    let mut later = later;
    for element in elements {
        put_element(alloc, out, later, element)?;
        later = true;
    }
    out.push(b']')?;
    Ok(())
}

/// Appends an array.
#[tactic(auto, unfolding(cf_json_members::specs::Objects::text_of))]
fn put_array<T: Element>(alloc: Global, out: &mut Vec<u8>, elements: &[T]) -> Result<(), AllocError>
    ensures { OnOk result
        (out.new.items ≡ out.old.items ++ text_of (list_of T.value elements.now)) }
{
    out.push(b'[')?;
    put_elements(alloc, out, false, elements)
}

/// Appends the first field of an object, which is an array.
fn put_first<T: Element>(
    alloc: Global,
    out: &mut Vec<u8>,
    name: &str,
    elements: &[T],
) -> Result<(), AllocError>
    requires { list_all is_plain name.now ≡ true }
    ensures { OnOk result
        (out.new.items ≡ out.old.items
        ++ (123 ∷ (json.quoted name.now ++ 58 ∷ text_of (list_of T.value elements.now)))) }
{
    out.push(b'{')?;
    put_quoted(out, name.as_bytes())?;
    out.push(b':')?;
    put_array(alloc, out, elements)
}

fn put_line(out: &mut Vec<u8>, numbers: &LineNumbers) -> Result<(), AllocError>
    ensures { OnOk result (out.new.items ≡ out.old.items ++ text_of (spec.line_data numbers.now)) }
{
    put_object(
        out,
        &[
            ("appropriated", Signed(numbers.appropriated)),
            ("encumbered", Signed(numbers.encumbered)),
            ("expended", Signed(numbers.expended)),
            ("held", Signed(numbers.held)),
            ("original", Signed(numbers.original)),
            ("room", Signed(numbers.room)),
        ],
    )
}

#[tactic(auto, unfolding(cf_json_members::specs::Objects::text_of))]
fn put_requisition(
    alloc: Global,
    out: &mut Vec<u8>,
    items: &[LineAmount],
    state: RequisitionState,
    year: u16,
) -> Result<(), AllocError>
    ensures { OnOk result
        (out.new.items ≡ out.old.items
        ++ text_of (spec.shown_data (variant.Requisition items.now state year))) }
{
    put_first(alloc, out, "items", items)?;
    out.push(b',')?;
    put_field(out, "state", &Word(requisition_word(state)))?;
    out.push(b',')?;
    put_field(out, "year", &Number(year as u64))?;
    out.push(b'}')?;
    Ok(())
}

#[tactic(auto, unfolding(cf_json_members::specs::Objects::text_of))]
fn put_order(
    alloc: Global,
    out: &mut Vec<u8>,
    items: &[OrderItemShown],
    vendor: u32,
) -> Result<(), AllocError>
    ensures { OnOk result
        (out.new.items ≡ out.old.items
        ++ text_of (spec.shown_data (variant.Order items.now vendor))) }
{
    put_first(alloc, out, "items", items)?;
    out.push(b',')?;
    put_field(out, "vendor", &Number(vendor as u64))?;
    out.push(b'}')?;
    Ok(())
}

fn put_voucher(
    out: &mut Vec<u8>,
    amount: u64,
    state: VoucherState,
    year: u16,
) -> Result<(), AllocError>
    ensures { OnOk result
        (out.new.items ≡ out.old.items
        ++ text_of (spec.shown_data (variant.Voucher amount state year))) }
{
    put_object(
        out,
        &[
            ("amount", Cents(amount)),
            ("state", Word(voucher_word(state))),
            ("year", Number(year as u64)),
        ],
    )
}

fn put_bill(out: &mut Vec<u8>, left: u64, levy_year: u16, source: u16) -> Result<(), AllocError>
    ensures { OnOk result
        (out.new.items ≡ out.old.items
        ++ text_of (spec.shown_data (variant.Bill left levy_year source))) }
{
    put_object(
        out,
        &[
            ("left", Cents(left)),
            ("levy_year", Number(levy_year as u64)),
            ("source", Number(source as u64)),
        ],
    )
}

fn put_asset(
    out: &mut Vec<u8>,
    cost: u64,
    depreciation: u64,
    state: AssetState,
) -> Result<(), AllocError>
    ensures { OnOk result
        (out.new.items ≡ out.old.items
        ++ text_of (spec.shown_data (variant.Asset cost depreciation state))) }
{
    put_object(
        out,
        &[
            ("cost", Cents(cost)),
            ("depreciation", Cents(depreciation)),
            ("state", Word(asset_word(state))),
        ],
    )
}

fn put_bond(
    out: &mut Vec<u8>,
    accrued: i128,
    next: Option<Day>,
    outstanding: u64,
) -> Result<(), AllocError>
    ensures { OnOk result
        (out.new.items ≡ out.old.items
        ++ text_of (spec.shown_data (variant.Bond accrued next outstanding))) }
{
    let next = match next {
        Some(day) => Date(day),
        None => Word(""),
    };
    put_object(
        out,
        &[
            ("accrued", Signed(accrued)),
            ("next", next),
            ("outstanding", Cents(outstanding)),
        ],
    )
}

fn put_recon(out: &mut Vec<u8>, recon: ReconShown) -> Result<(), AllocError>
    ensures { OnOk result (out.new.items ≡ out.old.items ++ text_of (spec.recon_data recon)) }
{
    put_object(
        out,
        &[
            ("accrued_interest", Signed(recon.accrued_interest)),
            ("bonds", Signed(recon.bonds)),
            ("capital_assets", Signed(recon.capital_assets)),
            ("fund_balances", Signed(recon.fund_balances)),
            ("leases", Signed(recon.leases)),
            ("leave", Signed(recon.leave)),
            ("net_position", Signed(recon.net_position)),
            ("right_to_use", Signed(recon.right_to_use)),
            ("unavailable", Signed(recon.unavailable)),
        ],
    )
}

#[tactic(auto, unfolding(cf_json_members::specs::Objects::text_of))]
fn put_report(alloc: Global, out: &mut Vec<u8>, rows: &[Row], title: &str) -> Result<(), AllocError>
    ensures { OnOk result
        (out.new.items ≡ out.old.items
        ++ text_of (spec.shown_data (variant.Report rows.now title.now))) }
{
    put_first(alloc, out, "rows", rows)?;
    out.push(b',')?;
    put_quoted(out, b"title")?;
    out.push(b':')?;
    put_text(alloc, out, title)?;
    out.push(b'}')?;
    Ok(())
}

fn put_shown(alloc: Global, out: &mut Vec<u8>, shown: &Shown) -> Result<(), AllocError>
    ensures { OnOk result (out.new.items ≡ out.old.items ++ text_of (spec.shown_data shown.now)) }
{
    match shown {
        Shown::Line(numbers) => put_line(out, numbers),
        Shown::Requisition { items, state, year } => {
            put_requisition(alloc, out, items.as_slice(), *state, *year)
        }
        Shown::Order { items, vendor } => put_order(alloc, out, items.as_slice(), *vendor),
        Shown::Voucher {
            amount,
            state,
            year,
        } => put_voucher(out, *amount, *state, *year),
        Shown::Bill {
            left,
            levy_year,
            source,
        } => put_bill(out, *left, *levy_year, *source),
        Shown::Asset {
            cost,
            depreciation,
            state,
        } => put_asset(out, *cost, *depreciation, *state),
        Shown::Bond {
            accrued,
            next,
            outstanding,
        } => put_bond(out, *accrued, *next, *outstanding),
        Shown::Leave { left } => put_object(out, &[("left", Cents(*left))]),
        Shown::Account { balance } => put_object(out, &[("balance", Signed(*balance))]),
        Shown::Reconcile(recon) => put_recon(out, *recon),
        Shown::Report { rows, title } => put_report(alloc, out, rows.as_slice(), title.as_str()),
    }
}

/// The reply with the answer of a look.
#[tactic(auto, unfolding(cf_json_members::specs::Objects::text_of))]
fn reply(alloc: Global, at: u64, shown: &Shown) -> Result<Vec<u8>, AllocError>
    ensures { IfOk result
        (λ v. v.items ≡ text_of (reply_data (record { at = at; body = body.Shown shown.now }))) }
{
    let mut text = Vec::new(alloc);
    put_head(&mut text, "at", &Number(at), "is")?;
    put_shown(alloc, &mut text, shown)?;
    text.push(b'}')?;
    Ok(text)
}

/// Appends the reply with the answer of a look, and keeps room for one byte more.
pub fn write_shown(
    alloc: Global,
    out: &mut Vec<u8>,
    at: u64,
    shown: &Shown,
) -> Result<(), AllocError>
    ensures text { OnOk result
        (out.new.items ≡ out.old.items
        ++ text_of (reply_data (record { at = at; body = body.Shown shown.now }))) }
    ensures err { OnErr result (out.new.items ≡ out.old.items) }
    ensures capacity { vec_capacity out.old ≤ vec_capacity out.new }
    ensures newline { OnOk result (vec_len out.new + 1 ≤ vec_capacity out.new) }
{
    let text = reply(alloc, at, shown)?;
    out.reserve(text.len() + 1)?;
    out.extend_from_slice(text.as_slice())
}
