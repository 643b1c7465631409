//! The last day of a fiscal year.

use cf_base::{LAST_YEAR, day_text, year_end};
use std::io;

/// Prints the last day of a fiscal year, by the first month of fiscal years.
pub fn show_year_end(rt: &impl Print, first_month: u8, year: u16) -> io::Result<()> {
    if 1 <= first_month && first_month <= 12 && 1971 <= year && year <= LAST_YEAR {
        let day = day_text(year_end(first_month, year));
        println!(rt; "  {}", str::from_utf8(&day).unwrap_or("no day"))
    } else {
        println!(rt; "  no year")
    }
}
