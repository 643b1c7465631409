//! The program `books`: the real ends of what `cf_books::run` works over.
#![tactic(auto)]

use cf_base::{FileSource, StdSink};
use cf_books::{Status, run, tell};
use cf_books_words::{JOURNAL, WordsRefused, read_words};
use std::process::ExitCode;
use std::{env, io};

const HELP: &str = "\
books check-chart [FILE]    says what a chart has, or its first fault (FILE: chart.toml)
books check-grants [FILE]   says what a document of grants has, or its first fault (FILE: grants.toml)
books check [FILE]          says what a journal has, or where it is damaged (FILE: fund.journal)
books list [FILE]           prints a row an entry: place, day, desk, key, call, amount, numbers drawn
books calls [FILE]          prints the entries as calls, which make the journal again
books posts [FILE]          prints the posts of the entries (--year Y, --fund F, --account A, --through DAY)
books balances YEAR [FILE]  prints the balance of each account through a fiscal year, on both bases
                            (--through DAY; or --alone: of the year alone, with what it began with)
books open [FILE]           prints what is open, and what is closed
books statement YEAR KIND [FILE]
                            prints a statement with the names of funds and lines (KIND: as for cityfund report;
                            --through DAY: balance, operating, budget, position, activities)
books ledger [FILE]         prints what each entry moved of control lines and sources (--fund F, --dept D,
                            --object O, --line L, --source S, --vendor V, --year Y, --from DAY, --through DAY)
books documents [FILE]      prints each document that ever was, and what became of it (--kind KIND, --party P,
                            --key TEXT, --amount CENTS)
books month YYYY-MM [FILE]  prints what each line spent and each source received in a month, and what is left
books paid YEAR [FILE]      prints what each vendor was paid in a calendar year
books chart [FILE]          prints the chart that a journal keeps
books lines [FILE]          prints its control lines, or those of a chart, with numbers and names
books claims GRANT [FILE]   prints a row a voucher of a grant: what is eligible, the share, whether it is claimed
                            (FILE: grants.toml; both commands on grants read fund.journal too)
books --help                prints this
books --version             prints the version

--entries N says all of a journal's first N entries: check, list, calls, lines, posts, balances, open, statement,
ledger, documents, month and paid have it.
list, posts, balances, open, statement, ledger, documents, month, paid and claims print records below a row of
names with --csv.
Each command only reads. docs/BOOKS.md says how a run ends, and what to do then.
";

const VERSION: &str = "books 1\n";

/// The words after the program's name.
fn words(rt: &HostRuntime) -> io::Result<Vec<String>> {
    let words = env::args(rt)?.skip(1).collect(rt.alloc())?;
    Ok(words)
}

/// The text that is asked for by a single word.
fn text_of(words: &[String]) -> Option<&'static str> {
    match words {
        [word] if word.as_str() == "--help" => Some(HELP),
        [word] if word.as_str() == "--version" => Some(VERSION),
        _ => None,
    }
}

/// The status of words that can't be had: they are no text, or there is no memory.
fn wordless(error: &io::Error) -> Status {
    if error.kind() == io::ErrorKind::OutOfMemory {
        Status::NoMemory
    } else {
        Status::BadWords
    }
}

/// Runs what the words ask for.
fn run_words(rt: &HostRuntime, words: &[String]) -> Status {
    if let Some(text) = text_of(words) {
        return match print!(rt; "{text}") {
            Ok(()) => Status::Done,
            Err(_) => Status::WriteFault,
        };
    }
    match read_words(rt.alloc(), words) {
        Ok(request) => {
            let mut source = FileSource::new(rt, request.path());
            let mut journal = FileSource::new(rt, JOURNAL);
            let mut out = StdSink::new(rt.stdout());
            run(rt.alloc(), request, &mut source, &mut journal, &mut out)
        }
        Err(WordsRefused::BadWords) => Status::BadWords,
        Err(WordsRefused::NoSuchDay) => Status::NoSuchDay,
        Err(WordsRefused::NoMemory) => Status::NoMemory,
    }
}

fn main(rt: HostRuntime) -> ExitCode {
    let status = match words(&rt) {
        Ok(words) => run_words(&rt, words.as_slice()),
        Err(error) => wordless(&error),
    };
    let mut err = StdSink::new(rt.stderr());
    let _ = tell(rt.alloc(), &mut err, status);
    ExitCode::from(status.code())
}
