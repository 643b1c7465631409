//! The readers of the looks: the fields of each in order.

ghost use Rattle.std.specs.Prelude.{◌≡◌, map, IfOk};
ghost use Rattle.serde_json.specs.View.{view};
ghost use Rattle.cf_calls.specs.Common.{IsReadInForm};
ghost use Rattle.cf_json_members.specs.Faults.{Gives};
ghost use Rattle.cf_json.specs.Reads as spec;

use crate::words::{BasisWord, LookWord, StatementWord};
use cf_calls::Read;
use cf_json_members::CallRefused;
use cf_json_members::fields::need;
use cf_json_members::kinds::{N16, N32, Year};
use serde_json::Value;
use std::alloc::Global;

fn line(alloc: Global, value: &Value) -> Result<Read, CallRefused>
    ensures answer { Gives result (spec.line_of (view value.now)) }
    ensures form { IfOk result IsReadInForm }
{
    let line = need::<N16>(alloc, value, "line")?;
    let year = need::<Year>(alloc, value, "year")?;
    Ok(Read::Line { line, year })
}

fn leave(alloc: Global, value: &Value) -> Result<Read, CallRefused>
    ensures answer { Gives result (spec.leave_of (view value.now)) }
    ensures form { IfOk result IsReadInForm }
{
    let fund = need::<N16>(alloc, value, "fund")?;
    let dept = need::<N16>(alloc, value, "dept")?;
    Ok(Read::Leave { fund, dept })
}

fn account(alloc: Global, value: &Value) -> Result<Read, CallRefused>
    ensures answer { Gives result (spec.account_of (view value.now)) }
    ensures form { IfOk result IsReadInForm }
{
    let basis = need::<BasisWord>(alloc, value, "basis")?;
    let year = need::<Year>(alloc, value, "year")?;
    let fund = need::<N16>(alloc, value, "fund")?;
    let account = need::<N32>(alloc, value, "account")?;
    Ok(Read::Account {
        basis,
        year,
        fund,
        account,
    })
}

fn report(alloc: Global, value: &Value) -> Result<Read, CallRefused>
    ensures answer { Gives result (spec.report_of (view value.now)) }
    ensures form { IfOk result IsReadInForm }
{
    let year = need::<Year>(alloc, value, "year")?;
    let kind = need::<StatementWord>(alloc, value, "kind")?;
    Ok(Read::Report { year, kind })
}

/// What a look reads.
pub fn read_of(alloc: Global, word: LookWord, value: &Value) -> Result<Read, CallRefused>
    ensures answer { Gives result (spec.read_of word (view value.now)) }
    ensures form { IfOk result IsReadInForm }
{
    match word {
        LookWord::Line => line(alloc, value),
        LookWord::Requisition => {
            let requisition = need::<N32>(alloc, value, "requisition")?;
            Ok(Read::Requisition { requisition })
        }
        LookWord::Order => {
            let order = need::<N32>(alloc, value, "order")?;
            Ok(Read::Order { order })
        }
        LookWord::Voucher => {
            let voucher = need::<N32>(alloc, value, "voucher")?;
            Ok(Read::Voucher { voucher })
        }
        LookWord::Bill => {
            let bill = need::<N32>(alloc, value, "bill")?;
            Ok(Read::Bill { bill })
        }
        LookWord::Asset => {
            let asset = need::<N32>(alloc, value, "asset")?;
            Ok(Read::Asset { asset })
        }
        LookWord::Bond => {
            let bond = need::<N32>(alloc, value, "bond")?;
            Ok(Read::Bond { bond })
        }
        LookWord::Leave => leave(alloc, value),
        LookWord::Account => account(alloc, value),
        LookWord::Reconcile => {
            let year = need::<Year>(alloc, value, "year")?;
            Ok(Read::Reconcile { year })
        }
        LookWord::Report => report(alloc, value),
    }
}

/// The fields of a look, beside those that every look has.
pub fn look_names(word: LookWord) -> &'static [&'static str]
    ensures { map (λ n. n.now) result.now ≡ spec.look_names word }
{
    match word {
        LookWord::Line => &["line", "year"],
        LookWord::Requisition => &["requisition"],
        LookWord::Order => &["order"],
        LookWord::Voucher => &["voucher"],
        LookWord::Bill => &["bill"],
        LookWord::Asset => &["asset"],
        LookWord::Bond => &["bond"],
        LookWord::Leave => &["fund", "dept"],
        LookWord::Account => &["basis", "year", "fund", "account"],
        LookWord::Reconcile => &["year"],
        LookWord::Report => &["year", "kind"],
    }
}
