//! Refusals in JSON.

ghost use Rattle.std.specs.Prelude.{◌≡◌, ◌+◌, ◌≤◌, [], ◌∷◌, ◌++◌, true, length, IsOk, OnOk, vec_len, vec_capacity};
ghost use Rattle.std.specs.List.{list_all};
ghost use Rattle.cf_calls.specs.Common.{name_of};
ghost use Rattle.cf_calls.specs.declared.refusal.Refusal.TheVariants as refused;
ghost use Rattle.cf_json_members.specs.Objects.{fields, text_of};
ghost use Rattle.cf_json_members.specs.Parts.{part_data, part_room, is_plain, is_plain_part};
ghost use Rattle.cf_json_replies.specs.Refusals as spec;

use cf_base::Day;
use cf_calls::Refusal::{
    Adopted, Ahead, AmountRange, AssetState, CashShort, DebtDue, DeskUnknown, DocState, Exceeds,
    HistoryFull, KeyReused, LeaveShort, MonthOrder, NotAdopted, NotDue, NotOnOrder, NotThisDesk,
    OverOpen, OverReceivable, PeriodClosed, SameHand, UnknownName, WindowOpen, YearClosed,
    YearNotOpen,
};
use cf_calls::{AssetFault, DocumentKind, DocumentState, NameKind, Refusal, Role};
use cf_json_members::parts::Part::{Cents, Date, Number, Signed, Word, YearMonth};
use cf_json_members::parts::{Part, put_object};
use std::alloc::AllocError;

fn role_word(role: Role) -> &'static str
    ensures value { result.now ≡ spec.role_word role }
    ensures plain { list_all is_plain result.now ≡ true }
    ensures short { length result.now ≤ 12 }
{
    match role {
        Role::Council => "council",
        Role::Dept => "dept",
        Role::Purchasing => "purchasing",
        Role::Payables => "payables",
        Role::Treasury => "treasury",
        Role::Revenue => "revenue",
        Role::Assets => "assets",
        Role::Payroll => "payroll",
        Role::Controller => "controller",
    }
}

fn refusal_word(refusal: &Refusal) -> &'static str
    ensures value { result.now ≡ name_of refusal.now }
    ensures plain { list_all is_plain result.now ≡ true }
    ensures short { length result.now ≤ 14 }
{
    refusal.name()
}

fn name_word(kind: NameKind) -> &'static str
    ensures value { result.now ≡ spec.name_word kind }
    ensures plain { list_all is_plain result.now ≡ true }
    ensures short { length result.now ≤ 12 }
{
    match kind {
        NameKind::Fund => "fund",
        NameKind::Dept => "dept",
        NameKind::Object => "object",
        NameKind::Line => "line",
        NameKind::Source => "source",
        NameKind::Requisition => "requisition",
        NameKind::Order => "order",
        NameKind::Voucher => "voucher",
        NameKind::Bill => "bill",
        NameKind::Asset => "asset",
        NameKind::Bond => "bond",
    }
}

fn document_word(kind: DocumentKind) -> &'static str
    ensures value { result.now ≡ spec.document_word kind }
    ensures plain { list_all is_plain result.now ≡ true }
    ensures short { length result.now ≤ 12 }
{
    match kind {
        DocumentKind::Requisition => "requisition",
        DocumentKind::Order => "order",
        DocumentKind::Item => "item",
        DocumentKind::Voucher => "voucher",
        DocumentKind::Bond => "bond",
    }
}

fn state_word(state: DocumentState) -> &'static str
    ensures value { result.now ≡ spec.state_word state }
    ensures plain { list_all is_plain result.now ≡ true }
    ensures short { length result.now ≤ 12 }
{
    match state {
        DocumentState::Withdrawn => "withdrawn",
        DocumentState::Ordered => "ordered",
        DocumentState::Lapsed => "lapsed",
        DocumentState::OtherYear => "other year",
        DocumentState::Ended => "ended",
        DocumentState::Finished => "finished",
        DocumentState::Cancelled => "cancelled",
        DocumentState::Paid => "paid",
        DocumentState::Void => "void",
        DocumentState::Later => "later",
    }
}

fn fault_word(fault: AssetFault) -> &'static str
    ensures value { result.now ≡ spec.fault_word fault }
    ensures plain { list_all is_plain result.now ≡ true }
    ensures short { length result.now ≤ 12 }
{
    match fault {
        AssetFault::Void => "void",
        AssetFault::Disposed => "disposed",
        AssetFault::Charged => "charged",
        AssetFault::Leased => "leased",
        AssetFault::Later => "later",
    }
}

/// Appends a refusal with one value, where its field stands between the number and the name.
fn put_middle<'a>(
    out: &mut Vec<u8>,
    refusal: &Refusal,
    field: &'a str,
    part: &Part<'a>,
) -> Result<(), AllocError>
    requires field { list_all is_plain field.now ≡ true }
    requires part { is_plain_part part.now ≡ true }
    ensures text { OnOk result
        (out.new.items ≡ out.old.items
        ++ text_of (fields (spec.numbered refusal.now ∷ (field.now, part_data part.now)
        ∷ spec.named refusal.now ∷ []))) }
    ensures longer { vec_len out.new
        ≤ vec_len out.old + (length field.now + part_room part.now + 78) }
    ensures room { vec_len out.old + (length field.now + part_room part.now + 78)
        ≤ vec_capacity out.old → IsOk result }
    ensures capacity { vec_capacity out.old ≤ vec_capacity out.new }
{
    put_object(
        out,
        &[
            ("code", Number(u64::from(refusal.number()))),
            (field, *part),
            ("name", Word(refusal_word(refusal))),
        ],
    )
}

/// Appends a refusal with one value, where its field stands after the name.
fn put_last<'a>(
    out: &mut Vec<u8>,
    refusal: &Refusal,
    field: &'a str,
    part: &Part<'a>,
) -> Result<(), AllocError>
    requires field { list_all is_plain field.now ≡ true }
    requires part { is_plain_part part.now ≡ true }
    ensures text { OnOk result
        (out.new.items ≡ out.old.items
        ++ text_of (fields (spec.numbered refusal.now ∷ spec.named refusal.now
        ∷ (field.now, part_data part.now) ∷ []))) }
    ensures longer { vec_len out.new
        ≤ vec_len out.old + (length field.now + part_room part.now + 78) }
    ensures room { vec_len out.old + (length field.now + part_room part.now + 78)
        ≤ vec_capacity out.old → IsOk result }
    ensures capacity { vec_capacity out.old ≤ vec_capacity out.new }
{
    put_object(
        out,
        &[
            ("code", Number(u64::from(refusal.number()))),
            ("name", Word(refusal_word(refusal))),
            (field, *part),
        ],
    )
}

fn put_ahead(out: &mut Vec<u8>, after: u64, seen: u64) -> Result<(), AllocError>
    ensures text { OnOk result
        (out.new.items ≡ out.old.items ++ text_of (spec.refusal_data (refused.Ahead after seen))) }
    ensures longer { vec_len out.new ≤ vec_len out.old + 256 }
    ensures room { vec_len out.old + 256 ≤ vec_capacity out.old → IsOk result }
    ensures capacity { vec_capacity out.old ≤ vec_capacity out.new }
{
    let refusal = Ahead {
        after,
        length: seen,
    };
    put_object(
        out,
        &[
            ("after", Number(after)),
            ("code", Number(u64::from(refusal.number()))),
            ("length", Number(seen)),
            ("name", Word(refusal_word(&refusal))),
        ],
    )
}

fn put_amount_range(out: &mut Vec<u8>, amount: u64) -> Result<(), AllocError>
    ensures text { OnOk result
        (out.new.items ≡ out.old.items
        ++ text_of (spec.refusal_data (refused.AmountRange amount))) }
    ensures longer { vec_len out.new ≤ vec_len out.old + 256 }
    ensures room { vec_len out.old + 256 ≤ vec_capacity out.old → IsOk result }
    ensures capacity { vec_capacity out.old ≤ vec_capacity out.new }
{
    let refusal = AmountRange { amount };
    put_object(
        out,
        &[
            ("amount", Cents(amount)),
            ("code", Number(u64::from(refusal.number()))),
            ("name", Word(refusal_word(&refusal))),
        ],
    )
}

fn put_unknown_name(out: &mut Vec<u8>, kind: NameKind, id: u32) -> Result<(), AllocError>
    ensures text { OnOk result
        (out.new.items ≡ out.old.items
        ++ text_of (spec.refusal_data (refused.UnknownName kind id))) }
    ensures longer { vec_len out.new ≤ vec_len out.old + 256 }
    ensures room { vec_len out.old + 256 ≤ vec_capacity out.old → IsOk result }
    ensures capacity { vec_capacity out.old ≤ vec_capacity out.new }
{
    let refusal = UnknownName { kind, id };
    put_object(
        out,
        &[
            ("code", Number(u64::from(refusal.number()))),
            ("id", Number(id as u64)),
            ("kind", Word(name_word(kind))),
            ("name", Word(refusal_word(&refusal))),
        ],
    )
}

fn put_not_adopted(out: &mut Vec<u8>, fund: u16, year: u16) -> Result<(), AllocError>
    ensures text { OnOk result
        (out.new.items ≡ out.old.items
        ++ text_of (spec.refusal_data (refused.NotAdopted fund year))) }
    ensures longer { vec_len out.new ≤ vec_len out.old + 256 }
    ensures room { vec_len out.old + 256 ≤ vec_capacity out.old → IsOk result }
    ensures capacity { vec_capacity out.old ≤ vec_capacity out.new }
{
    let refusal = NotAdopted { fund, year };
    put_object(
        out,
        &[
            ("code", Number(u64::from(refusal.number()))),
            ("fund", Number(fund as u64)),
            ("name", Word(refusal_word(&refusal))),
            ("year", Number(year as u64)),
        ],
    )
}

fn put_document_state(
    out: &mut Vec<u8>,
    kind: DocumentKind,
    number: u32,
    state: DocumentState,
) -> Result<(), AllocError>
    ensures text { OnOk result
        (out.new.items ≡ out.old.items
        ++ text_of (spec.refusal_data (refused.DocState kind number state))) }
    ensures longer { vec_len out.new ≤ vec_len out.old + 256 }
    ensures room { vec_len out.old + 256 ≤ vec_capacity out.old → IsOk result }
    ensures capacity { vec_capacity out.old ≤ vec_capacity out.new }
{
    let refusal = DocState {
        kind,
        number,
        state,
    };
    put_object(
        out,
        &[
            ("code", Number(u64::from(refusal.number()))),
            ("kind", Word(document_word(kind))),
            ("name", Word(refusal_word(&refusal))),
            ("number", Number(number as u64)),
            ("state", Word(state_word(state))),
        ],
    )
}

fn put_not_on_order(out: &mut Vec<u8>, order: u32, item: u16) -> Result<(), AllocError>
    ensures text { OnOk result
        (out.new.items ≡ out.old.items
        ++ text_of (spec.refusal_data (refused.NotOnOrder order item))) }
    ensures longer { vec_len out.new ≤ vec_len out.old + 256 }
    ensures room { vec_len out.old + 256 ≤ vec_capacity out.old → IsOk result }
    ensures capacity { vec_capacity out.old ≤ vec_capacity out.new }
{
    let refusal = NotOnOrder { order, item };
    put_object(
        out,
        &[
            ("code", Number(u64::from(refusal.number()))),
            ("item", Number(item as u64)),
            ("name", Word(refusal_word(&refusal))),
            ("order", Number(order as u64)),
        ],
    )
}

fn put_asset_state(out: &mut Vec<u8>, asset: u32, state: AssetFault) -> Result<(), AllocError>
    ensures text { OnOk result
        (out.new.items ≡ out.old.items
        ++ text_of (spec.refusal_data (refused.AssetState asset state))) }
    ensures longer { vec_len out.new ≤ vec_len out.old + 256 }
    ensures room { vec_len out.old + 256 ≤ vec_capacity out.old → IsOk result }
    ensures capacity { vec_capacity out.old ≤ vec_capacity out.new }
{
    let refusal = AssetState { asset, state };
    put_object(
        out,
        &[
            ("asset", Number(asset as u64)),
            ("code", Number(u64::from(refusal.number()))),
            ("name", Word(refusal_word(&refusal))),
            ("state", Word(fault_word(state))),
        ],
    )
}

fn put_debt_due(out: &mut Vec<u8>, bond: u32, day: Day) -> Result<(), AllocError>
    ensures text { OnOk result
        (out.new.items ≡ out.old.items ++ text_of (spec.refusal_data (refused.DebtDue bond day))) }
    ensures longer { vec_len out.new ≤ vec_len out.old + 256 }
    ensures room { vec_len out.old + 256 ≤ vec_capacity out.old → IsOk result }
    ensures capacity { vec_capacity out.old ≤ vec_capacity out.new }
{
    let refusal = DebtDue { bond, day };
    put_object(
        out,
        &[
            ("bond", Number(bond as u64)),
            ("code", Number(u64::from(refusal.number()))),
            ("day", Date(day)),
            ("name", Word(refusal_word(&refusal))),
        ],
    )
}

fn put_exceeds(out: &mut Vec<u8>, line: u16, asked: i128, room: i128) -> Result<(), AllocError>
    ensures text { OnOk result
        (out.new.items ≡ out.old.items
        ++ text_of (spec.refusal_data (refused.Exceeds line asked room))) }
    ensures longer { vec_len out.new ≤ vec_len out.old + 256 }
    ensures room { vec_len out.old + 256 ≤ vec_capacity out.old → IsOk result }
    ensures capacity { vec_capacity out.old ≤ vec_capacity out.new }
{
    let refusal = Exceeds { line, asked, room };
    put_object(
        out,
        &[
            ("asked", Signed(asked)),
            ("code", Number(u64::from(refusal.number()))),
            ("line", Number(line as u64)),
            ("name", Word(refusal_word(&refusal))),
            ("room", Signed(room)),
        ],
    )
}

fn put_cash_short(out: &mut Vec<u8>, fund: u16, cash: i128, asked: i128) -> Result<(), AllocError>
    ensures text { OnOk result
        (out.new.items ≡ out.old.items
        ++ text_of (spec.refusal_data (refused.CashShort fund cash asked))) }
    ensures longer { vec_len out.new ≤ vec_len out.old + 256 }
    ensures room { vec_len out.old + 256 ≤ vec_capacity out.old → IsOk result }
    ensures capacity { vec_capacity out.old ≤ vec_capacity out.new }
{
    let refusal = CashShort { fund, cash, asked };
    put_object(
        out,
        &[
            ("asked", Signed(asked)),
            ("cash", Signed(cash)),
            ("code", Number(u64::from(refusal.number()))),
            ("fund", Number(fund as u64)),
            ("name", Word(refusal_word(&refusal))),
        ],
    )
}

/// Appends a refusal: its number and name, and the values that it states.
pub fn put_refusal(out: &mut Vec<u8>, refusal: &Refusal) -> Result<(), AllocError>
    ensures text { OnOk result
        (out.new.items ≡ out.old.items ++ text_of (spec.refusal_data refusal.now)) }
    ensures longer { vec_len out.new ≤ vec_len out.old + 256 }
    ensures room { vec_len out.old + 256 ≤ vec_capacity out.old → IsOk result }
    ensures capacity { vec_capacity out.old ≤ vec_capacity out.new }
{
    match *refusal {
        DeskUnknown { desk } => put_middle(out, refusal, "desk", &Number(desk as u64)),
        Ahead { after, length } => put_ahead(out, after, length),
        KeyReused { was } => put_last(out, refusal, "was", &Number(was)),
        NotThisDesk { role } => put_last(out, refusal, "role", &Word(role_word(role))),
        HistoryFull { limit } => put_middle(out, refusal, "limit", &Number(limit)),
        AmountRange { amount } => put_amount_range(out, amount),
        UnknownName { kind, id } => put_unknown_name(out, kind, id),
        PeriodClosed { month } => put_middle(out, refusal, "month", &YearMonth(month)),
        YearNotOpen { year } => put_last(out, refusal, "year", &Number(year as u64)),
        YearClosed { year } => put_last(out, refusal, "year", &Number(year as u64)),
        Adopted { was } => put_last(out, refusal, "was", &Number(was)),
        NotAdopted { fund, year } => put_not_adopted(out, fund, year),
        DocState {
            kind,
            number,
            state,
        } => put_document_state(out, kind, number, state),
        SameHand { desk } => put_middle(out, refusal, "desk", &Number(desk as u64)),
        NotOnOrder { order, item } => put_not_on_order(out, order, item),
        OverOpen { open_cents } => put_last(out, refusal, "open", &Cents(open_cents)),
        OverReceivable { left } => put_middle(out, refusal, "left", &Cents(left)),
        AssetState { asset, state } => put_asset_state(out, asset, state),
        NotDue { next } => put_last(out, refusal, "next", &Date(next)),
        LeaveShort { left } => put_middle(out, refusal, "left", &Cents(left)),
        MonthOrder { next } => put_last(out, refusal, "next", &YearMonth(next)),
        DebtDue { bond, day } => put_debt_due(out, bond, day),
        WindowOpen { month } => put_middle(out, refusal, "month", &YearMonth(month)),
        Exceeds { line, asked, room } => put_exceeds(out, line, asked, room),
        CashShort { fund, cash, asked } => put_cash_short(out, fund, cash, asked),
    }
}
