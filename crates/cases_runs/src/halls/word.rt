//! The lines of the script.

use crate::halls::board::{Begin, Hold};

/// What a line of the script asks for.
#[derive(Clone, Copy)]
pub enum Word<'a> {
    Heading,
    Chart(&'a str),
    Call(&'a str),
    Caller,
    Wait(Begin),
    Hold(Hold),
    Fail(u64),
    Play,
    Mixed(u64),
    Time,
    TimeDesk,
    TimeReading,
}

/// A number of the script.
fn number(word: &str) -> u64 {
    word.parse::<u64>().unwrap_or(0)
}

fn begin(word: &str) -> Begin {
    match word {
        "held" => Begin::OnceHeld,
        _ => Begin::OnceAnswered(number(word)),
    }
}

fn time<'a>(word: &str) -> Word<'a> {
    match word {
        "desk" => Word::TimeDesk,
        "read" => Word::TimeReading,
        _ => Word::Time,
    }
}

/// What a line of the script asks for. What is none of the words is a heading.
pub fn word_of(line: &str) -> Word<'_> {
    if line.starts_with("{") {
        return Word::Call(line);
    }
    let (verb, rest) = line.split_once(" ").unwrap_or((line, ""));
    match verb {
        "chart" => Word::Chart(rest),
        "caller" => Word::Caller,
        "wait" => Word::Wait(begin(rest)),
        "hold" => Word::Hold(Hold::UntilAnswered(number(rest))),
        "keep" => Word::Hold(Hold::WhileBegun(number(rest))),
        "fail" => Word::Fail(number(rest)),
        "play" => Word::Play,
        "mixed" => Word::Mixed(number(rest)),
        "time" => time(rest),
        _ => Word::Heading,
    }
}
