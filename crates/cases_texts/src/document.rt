//! What is said of the text of a chart.

use crate::page::Page;
use cf_chart::{Chart, ChartRefused};
use std::alloc::Global;

/// What is asked of a text.
#[derive(Clone, Copy)]
pub enum Asked {
    /// Whether it is a chart, or its first fault.
    Fault,
    /// The control line of an account in a fiscal year.
    Line {
        fund: u16,
        dept: u16,
        object: u16,
        year: u16,
    },
}

/// Appends the control line of an account (its fund, department and object) in a fiscal year.
fn tell_line(page: &mut Page, chart: &Chart, [fund, dept, object, year]: [u16; 4]) {
    match chart.line_of(fund, dept, object, year) {
        Some(line) => page.put_numbers("  #\n", &[line.number as i128]),
        None => page.put("  none\n"),
    }
}

fn tell_chart(page: &mut Page, chart: &Chart, asked: Asked) {
    match asked {
        Asked::Fault => page.put("  good\n"),
        Asked::Line {
            fund,
            dept,
            object,
            year,
        } => tell_line(page, chart, [fund, dept, object, year]),
    }
}

fn tell_refused(page: &mut Page, alloc: Global, refused: ChartRefused) {
    match refused.to_string(alloc) {
        Ok(text) => {
            page.put("  ");
            page.put(text.as_str());
            page.put("\n");
        }
        Err(_) => page.note(false),
    }
}

/// Appends what is asked of a text, or the first fault that it has as a chart.
pub fn tell_document(page: &mut Page, alloc: Global, bytes: &[u8], asked: Asked) {
    match Chart::read(alloc, bytes) {
        Ok(chart) => tell_chart(page, &chart, asked),
        Err(refused) => tell_refused(page, alloc, refused),
    }
}
