//! The chart and its readers.

ghost use Rattle.std.specs.Prelude.{◌≡◌, ◌<◌, ◌≤◌, ℕ, true, length, IfSome, option_map, position};
ghost use Rattle.std.specs.Option.{option_copied};
ghost use Rattle.cf_chart.specs.Index.{has_key, key_at};
ghost use Rattle.std.specs.List.{list_all};
ghost use Rattle.cf_chart.specs.Levels.{has_function};
ghost use Rattle.cf_chart.specs.Plan as spec;
ghost use Rattle.cf_chart.specs.Rising.{is_rising};

use crate::index::{LineKey, number_at};
use crate::lines::LineId;
use crate::rows::{Department, Desk, Function, Fund, Line, Object, RevenueSource, level_for};
use crate::search::by_id;
use cf_calls::{Label, List};
use std::collections::BTreeMap;
use std::marker::Model;

/// A chart. Each table is by rising id, and the control lines by number.
pub struct Chart {
    pub(crate) city: Label,
    pub(crate) first_year: u16,
    pub(crate) first_month: u8,
    pub(crate) functions: List<Function>,
    pub(crate) funds: List<Fund>,
    pub(crate) departments: List<Department>,
    pub(crate) objects: List<Object>,
    pub(crate) sources: List<RevenueSource>,
    pub(crate) lines: List<Line>,
    pub(crate) numbers: BTreeMap<LineKey, u16>,
    pub(crate) desks: List<Desk>,
}

/// Written out, for a derived one is proved anew in each crate that lets such a value go.
impl Drop for Chart {
    fn drop(self) {
        let Chart {
            city: _,
            first_year: _,
            first_month: _,
            functions: _,
            funds: _,
            departments: _,
            objects: _,
            sources: _,
            lines: _,
            numbers: _,
            desks: _,
        } = self;
    }
}

impl Model for Chart {
    ghost use Rattle.cf_chart.specs.Plan.{Plan};

    ghost Value = { Plan };

    ghost use Rattle.cf_chart.specs.ChartView.{plan_of, IsChart};

    ghost view = { plan_of };

    ghost invariant = { IsChart };
}

impl Chart {
    /// The first fiscal year that the office keeps, 1971 to 2150.
    pub fn first_year(&self) -> u16
        ensures value { result ≡ self.now.first_year }
        ensures from { 1971 ≤ result }
        ensures to { result ≤ 2150 }
    {
        self.first_year
    }

    /// The month that fiscal years begin with, 1 to 12.
    pub fn first_month(&self) -> u8
        ensures value { result ≡ self.now.first_month }
        ensures from { 1 ≤ result }
        ensures to { result ≤ 12 }
    {
        self.first_month
    }

    /// The city's name.
    pub fn city(&self) -> &str
        ensures { result.now ≡ self.now.city }
    {
        self.city.as_str()
    }

    /// What the city does, by rising id, at most 64.
    pub fn functions(&self) -> &[Function]
        ensures value { result.now ≡ self.now.functions }
        ensures rising { is_rising (λ f. f.id) result.now ≡ true }
        ensures few { length result.now ≤ 64 }
    {
        self.functions.as_slice()
    }

    /// The funds, by rising id.
    pub fn funds(&self) -> &[Fund]
        ensures value { result.now ≡ self.now.funds }
        ensures rising { is_rising (λ f. f.id) result.now ≡ true }
        ensures few { length result.now ≤ 64 }
    {
        self.funds.as_slice()
    }

    /// The departments, by rising id. The function of each is there.
    pub fn depts(&self) -> &[Department]
        ensures value { result.now ≡ self.now.departments }
        ensures known { list_all (has_function self.now.functions) result.now ≡ true }
    {
        self.departments.as_slice()
    }

    /// The objects, by rising id.
    pub fn objects(&self) -> &[Object]
        ensures { result.now ≡ self.now.objects }
    {
        self.objects.as_slice()
    }

    /// The revenue sources, by rising id, at most 256.
    pub fn sources(&self) -> &[RevenueSource]
        ensures value { result.now ≡ self.now.sources }
        ensures few { length result.now ≤ 256 }
    {
        self.sources.as_slice()
    }

    /// The control lines by number, at most 4096.
    pub fn lines(&self) -> &[Line]
        ensures value { result.now ≡ self.now.lines }
        ensures few { length result.now ≤ 4096 }
    {
        self.lines.as_slice()
    }

    /// The desks, by rising id.
    pub fn desks(&self) -> &[Desk]
        ensures { result.now ≡ self.now.desks }
    {
        self.desks.as_slice()
    }

    /// The function of this id.
    pub fn function(&self, id: u16) -> Option<&Function>
        ensures { option_copied result ≡ spec.function_at self.now id }
    {
        by_id(self.functions.as_slice(), id)
    }

    /// The fund of this id.
    pub fn fund(&self, id: u16) -> Option<&Fund>
        ensures { option_copied result ≡ spec.fund_at self.now id }
    {
        by_id(self.funds.as_slice(), id)
    }

    /// The department of this id.
    pub fn dept(&self, id: u16) -> Option<&Department>
        ensures { option_copied result ≡ spec.department_at self.now id }
    {
        by_id(self.departments.as_slice(), id)
    }

    /// The object of expenditure of this id.
    pub fn object(&self, id: u16) -> Option<&Object>
        ensures { option_copied result ≡ spec.object_at self.now id }
    {
        by_id(self.objects.as_slice(), id)
    }

    /// The revenue source of this id.
    pub fn source(&self, id: u16) -> Option<&RevenueSource>
        ensures { option_copied result ≡ spec.source_at self.now id }
    {
        by_id(self.sources.as_slice(), id)
    }

    /// The control line of this number.
    pub fn line(&self, number: u16) -> Option<&Line>
        ensures { option_copied result ≡ spec.line_at self.now number }
    {
        self.lines.as_slice().get(number as usize)
    }

    /// The desk of this id.
    pub fn desk(&self, id: u16) -> Option<&Desk>
        ensures { option_copied result ≡ spec.desk_at self.now id }
    {
        by_id(self.desks.as_slice(), id)
    }

    /// Whether a fund is controlled at its later level in a fiscal year.
    pub fn is_later(&self, fund: u16, year: u16) -> bool
        ensures { result ≡ spec.is_later self.now fund year }
    {
        match self.fund(fund) {
            Some(fund) => fund.is_later_in(year),
            None => false,
        }
    }

    /// Whether a line is one that its fund is controlled by in a fiscal year.
    pub fn is_of_year(&self, line: &Line, year: u16) -> bool
        ensures { result ≡ spec.is_of_year self.now year line.now }
    {
        line.later == self.is_later(line.fund, year)
    }

    /// The line that controls an account in a fiscal year, at the level of that year: `None`
    /// exactly where it has none.
    pub fn line_of(&self, fund: u16, dept: u16, object: u16, year: u16) -> Option<LineId>
        ensures value { option_map (λ l. l.number) result
            ≡ spec.line_of self.now fund dept object year }
        ensures within { IfSome result (λ l. l.number < length self.now.lines) }
    {
        self.line_in(fund, dept, object, self.is_later(fund, year))
    }

    /// The line of an account at its fund's first level, or at its later one: `None` exactly where
    /// it has none. No other line of the level has the account.
    pub fn line_in(&self, fund: u16, dept: u16, object: u16, later: bool) -> Option<LineId>
        ensures value { option_map (λ l. l.number) result
            ≡ spec.line_in self.now fund dept object later }
        ensures within { IfSome result (λ l. l.number < length self.now.lines) }
        ensures alone { (n : ℕ) → spec.has_account self.now fund dept object later n ≡ true
            → option_map (λ l. l.number) result ≡ Some n }
    {
        let _ = &self.lines;
        match self.number_of(fund, dept, object, later) {
            Some(number) => Some(LineId { number }),
            None => None,
        }
    }

    fn number_of(&self, fund: u16, dept: u16, object: u16, later: bool) -> Option<u16>
        ensures { result ≡ spec.line_in self.now fund dept object later }
    {
        match self.object(object) {
            Some(object) => self.number_at(fund, dept, object, later),
            None => None,
        }
    }

    fn number_at(&self, fund: u16, dept: u16, object: &Object, later: bool) -> Option<u16>
        ensures { result ≡ position (spec.covers fund dept later object.now) self.now.lines }
    {
        match by_id(self.funds.as_slice(), fund) {
            Some(fund) => self.number_in(fund, dept, object, later),
            None => None,
        }
    }

    fn number_in(&self, fund: &Fund, dept: u16, object: &Object, later: bool) -> Option<u16>
        ensures { result ≡ position
            (has_key (key_at fund.now dept object.now later)) self.now.lines }
    {
        let key = LineKey {
            fund: fund.id,
            dept,
            later,
            part: number_at(level_for(fund.level, fund.later, later), object),
        };
        match self.numbers.get(&key) {
            Some(number) => Some(*number),
            None => None,
        }
    }

    /// The longest availability period of the revenue sources, in days; 0 where there are none.
    pub fn longest_window(&self) -> u16
        ensures value { result ≡ spec.longest_window self.now.sources }
        ensures most { result ≤ 365 }
    {
        longest_window(self.sources.as_slice())
    }
}

fn longest_window(sources: &[RevenueSource]) -> u16
    ensures { result ≡ spec.longest_window sources.now }
{
    let mut longest = 0;
    for source in sources {
        longest = source.window.max(longest);
    }
    longest
}
