//! The claim of a grant of a document.

ghost use Rattle.std.specs.Prelude.{◌≡◌, Ok, Err, IfOk};
ghost use Rattle.cf_claims.specs.Texts.{claim_text as text_of};
ghost use Rattle.cf_grants.specs.declared.fault.GrantFault.{GrantFault as AFault};
ghost use Rattle.cf_model.specs.Common.{IsLegal};

use crate::bills::claims;
use cf_base::Day;
use cf_calls::Entry;
use cf_chart::Chart;
use cf_grants::{GrantFault, GrantRefused, Grants};
use std::alloc::Global;

/// The lines by which a desk claims, on a day, the grant of this id of the document that these
/// bytes are (`claims`); or the first fault of the document, where the last one is that it has no
/// such grant. Only want of memory may come instead of either.
pub fn claim_text(
    alloc: Global,
    chart: &Chart,
    entries: &[Entry],
    bytes: &[u8],
    id: u16,
    on: Day,
    desk: u16,
) -> Result<Vec<u8>, GrantRefused>
    requires { IsLegal chart.now entries.now }
    ensures ok { IfOk result
        (λ text. text_of chart.now entries.now bytes.now id on desk ≡ Ok text.items) }
    ensures fault { (f : AFault) → result ≡ Err (GrantRefused.Fault f)
        → text_of chart.now entries.now bytes.now id on desk ≡ Err f }
{
    let grants = Grants::read(alloc, bytes, chart)?;
    let Some(grant) = grants.grant(id) else {
        return Err(GrantRefused::Fault(GrantFault::Unknown { id }));
    };
    let mut lines = Vec::new(alloc);
    claims(alloc, chart, entries, grant, on, desk, &mut lines)?;
    Ok(lines)
}
