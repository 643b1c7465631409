//! The lines of the script.

/// What a line of the script asks for.
#[derive(Clone, Copy)]
pub enum Word<'a> {
    Heading,
    Line(&'a str),
    Lines(&'a str),
    Chart(&'a str),
    Swap { old: &'a str, new: &'a str },
    Fail(u64),
    Stop(u64),
    Limit(usize),
    Feed(usize),
    Alter { at: usize, byte: u8 },
    Lose(u64),
    Door(u64),
    Link(usize),
    Get(&'a str),
    Post(&'a str),
    Run(&'a str),
    Calls,
    Empty,
    Cut(usize),
    Set { at: usize, byte: u8 },
    Add(&'a str),
    Keep,
    Back,
    Same,
    Cuts,
    Tears,
}

/// A number of the script.
fn number(word: &str) -> u64 {
    word.parse::<u64>().unwrap_or(0)
}

/// A size of the script.
fn size(word: &str) -> usize {
    word.parse::<usize>().unwrap_or(0)
}

/// A byte of the script.
pub fn byte(word: &str) -> u8 {
    word.parse::<u8>().unwrap_or(0)
}

fn swap(rest: &str) -> Word<'_> {
    match rest.split_once(" => ") {
        Some((old, new)) => Word::Swap { old, new },
        None => Word::Heading,
    }
}

/// A place and the byte that is to stand there.
fn place_and_byte(rest: &str) -> (usize, u8) {
    let (at, value) = rest.split_once(" ").unwrap_or((rest, ""));
    (size(at), byte(value))
}

fn set(rest: &str) -> Word<'_> {
    let (at, byte) = place_and_byte(rest);
    Word::Set { at, byte }
}

fn alter(rest: &str) -> Word<'_> {
    let (at, byte) = place_and_byte(rest);
    Word::Alter { at, byte }
}

/// How many bytes a link takes, or a run is fed: all, where the script doesn't say.
fn count_or_all(word: &str) -> usize {
    word.parse::<usize>().unwrap_or(usize::MAX)
}

/// A word of what comes at the next doors.
fn door_word<'a>(verb: &str, rest: &'a str) -> Word<'a> {
    match verb {
        "door" => Word::Door(number(rest)),
        "link" => Word::Link(count_or_all(rest)),
        "get" => Word::Get(rest),
        "post" => Word::Post(rest),
        _ => disk_word(verb, rest),
    }
}

/// A word of what the disk holds. What is none of the words is a heading.
fn disk_word<'a>(verb: &str, rest: &'a str) -> Word<'a> {
    match verb {
        "empty" => Word::Empty,
        "cut" => Word::Cut(size(rest)),
        "set" => set(rest),
        "add" => Word::Add(rest),
        "keep" => Word::Keep,
        "back" => Word::Back,
        "same" => Word::Same,
        "cuts" => Word::Cuts,
        "tears" => Word::Tears,
        _ => Word::Heading,
    }
}

/// What a line of the script asks for.
pub fn word_of(line: &str) -> Word<'_> {
    if line.starts_with("{") {
        return Word::Line(line);
    }
    let (verb, rest) = line.split_once(" ").unwrap_or((line, ""));
    match verb {
        "lines" => Word::Lines(rest),
        "chart" => Word::Chart(rest),
        "swap" => swap(rest),
        "fail" => Word::Fail(number(rest)),
        "stop" => Word::Stop(number(rest)),
        "limit" => Word::Limit(size(rest)),
        "feed" => Word::Feed(count_or_all(rest)),
        "alter" => alter(rest),
        "lose" => Word::Lose(number(rest)),
        "run" => Word::Run(rest),
        "calls" => Word::Calls,
        _ => door_word(verb, rest),
    }
}
