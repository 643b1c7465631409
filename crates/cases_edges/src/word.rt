//! The lines of the script.

/// What a line of the script asks for.
#[derive(Clone, Copy)]
pub enum Word<'a> {
    Heading,
    Source {
        size: usize,
        file: &'a str,
    },
    Ends,
    File(&'a str),
    Missing(&'a str),
    Nowhere(&'a str),
    Memory {
        fail: u64,
        stop: u64,
    },
    Found {
        fail: u64,
        path: &'a str,
        chart: &'a str,
    },
    Append {
        fail: u64,
        path: &'a str,
        payload: &'a str,
    },
    Faults {
        path: &'a str,
        chart: &'a str,
        payload: &'a str,
    },
    Remove(&'a str),
    Talk(&'a str),
    Long(usize),
    Drip {
        reads: u64,
        text: &'a str,
    },
    Limit {
        limit: usize,
        text: &'a str,
    },
    Counted {
        each: bool,
        text: &'a str,
    },
    YearEnd {
        first_month: u8,
        year: u16,
    },
}

/// The first word of a text, and the rest.
fn pair(text: &str) -> (&str, &str) {
    text.split_once(" ").unwrap_or((text, ""))
}

/// The number that is a word, or 0.
fn number(word: &str) -> u32 {
    word.parse::<u32>().unwrap_or(0)
}

/// The last day of the fiscal year of this number, where fiscal years begin with this month.
fn year_word<'a>(first_month: &str, year: &str) -> Word<'a> {
    Word::YearEnd {
        first_month: first_month.parse::<u8>().unwrap_or(0),
        year: year.parse::<u16>().unwrap_or(0),
    }
}

/// A word on a journal in a file. What is none of these words is a heading.
fn journal_word<'a>(verb: &str, rest: &'a str) -> Word<'a> {
    let (first, behind) = pair(rest);
    let (second, third) = pair(behind);
    match verb {
        "found" => Word::Found {
            fail: u64::from(number(first)),
            path: second,
            chart: third,
        },
        "append" => Word::Append {
            fail: u64::from(number(first)),
            path: second,
            payload: third,
        },
        "faults" => Word::Faults {
            path: first,
            chart: second,
            payload: third,
        },
        "remove" => Word::Remove(rest),
        _ => Word::Heading,
    }
}

/// What a line of the script asks for.
pub fn word_of(line: &str) -> Word<'_> {
    let (verb, rest) = pair(line);
    let (first, second) = pair(rest);
    match verb {
        "source" => Word::Source {
            size: number(first) as usize,
            file: second,
        },
        "ends" => Word::Ends,
        "file" => Word::File(rest),
        "missing" => Word::Missing(rest),
        "nowhere" => Word::Nowhere(rest),
        "memory" => Word::Memory {
            fail: u64::from(number(first)),
            stop: u64::from(number(second)),
        },
        "talk" => Word::Talk(rest),
        "long" => Word::Long(number(first) as usize),
        "drip" => Word::Drip {
            reads: u64::from(number(first)),
            text: second,
        },
        "limit" => Word::Limit {
            limit: number(first) as usize,
            text: second,
        },
        "gathered" => Word::Counted {
            each: false,
            text: rest,
        },
        "each" => Word::Counted {
            each: true,
            text: rest,
        },
        "year_end" => year_word(first, second),
        _ => journal_word(verb, rest),
    }
}
