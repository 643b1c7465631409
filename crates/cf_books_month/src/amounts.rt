//! The amounts of a row, and their totals, each as 128 bits hold it.

ghost use Rattle.std.specs.Prelude.{◌≡◌, ◌+ℤ◌, ◌-ℤ◌};
ghost use Rattle.cf_books_month.specs.Amounts as spec;

/// The amounts of a control line, of a revenue source, or of some of them, in cents.
#[derive(Clone, Copy)]
pub struct Amounts {
    /// What is appropriated, or estimated.
    pub budget: i128,
    /// What was spent, or received, in the month.
    pub month: i128,
    /// What was spent, or received, in the fiscal year through the month.
    pub year: i128,
    pub on_order: i128,
    pub held: i128,
    pub left: i128,
    /// What was spent, or received, in the same month a year before.
    pub month_ago: i128,
    /// What was spent, or received, in the fiscal year before through that month.
    pub year_ago: i128,
}

/// One of the amounts.
#[derive(Clone, Copy)]
pub enum Column {
    Budget,
    Month,
    Year,
    OnOrder,
    Held,
    Left,
    MonthAgo,
    YearAgo,
}

impl Amounts {
    /// The amount of a column.
    pub fn of(&self, column: Column) -> i128
        ensures { result ≡ spec.amount_of column self.now }
    {
        match column {
            Column::Budget => self.budget,
            Column::Month => self.month,
            Column::Year => self.year,
            Column::OnOrder => self.on_order,
            Column::Held => self.held,
            Column::Left => self.left,
            Column::MonthAgo => self.month_ago,
            Column::YearAgo => self.year_ago,
        }
    }
}

/// A sum as 128 bits hold it.
fn sum(a: i128, b: i128) -> i128
    ensures { result ≡ spec.held (a +ℤ b) }
{
    a.wrapping_add(b)
}

/// A difference as 128 bits hold it.
pub fn less(a: i128, b: i128) -> i128
    ensures { result ≡ spec.held (a -ℤ b) }
{
    a.wrapping_sub(b)
}

/// A sum as far as it is made, in cents.
#[derive(Clone, Copy)]
struct Running {
    cents: i128,
}

/// Adds the amount of a column.
fn add(total: &mut Running, amounts: &Amounts, column: Column)
    ensures { total.new.cents ≡ spec.held (total.old.cents +ℤ spec.amount_of column amounts.now) }
{
    total.cents = sum(total.cents, amounts.of(column));
}

/// What a column of these comes to.
fn total_of(amounts: &[Amounts], column: Column) -> i128
    ensures { result ≡ spec.total_of column amounts.now }
{
    let mut total = Running { cents: 0 };
    for one in amounts {
        add(&mut total, one, column);
    }
    total.cents
}

/// What these come to, column by column.
#[tactic(auto, unfolding(crate::specs::Amounts::total))]
pub fn total(amounts: &[Amounts]) -> Amounts
    ensures { result ≡ spec.total amounts.now }
{
    Amounts {
        budget: total_of(amounts, Column::Budget),
        month: total_of(amounts, Column::Month),
        year: total_of(amounts, Column::Year),
        on_order: total_of(amounts, Column::OnOrder),
        held: total_of(amounts, Column::Held),
        left: total_of(amounts, Column::Left),
        month_ago: total_of(amounts, Column::MonthAgo),
        year_ago: total_of(amounts, Column::YearAgo),
    }
}
