//! The program: the real ends of what `cf_top::run` works over.
#![tactic(auto)]

use cf_base::{FileSource, StdSink, StdSource};
use cf_disk::FileDisk;
use cf_http_links::{TcpDoor, doors_from};
use cf_run_status::{Ran, Status, tell};
use cf_run_words::{Command, WordsRefused, read_words};
use cf_top::run;
use std::alloc::{AllocError, Global};
use std::io::BufReader;
use std::net::{Net, TcpListener, TcpStream};
use std::process::ExitCode;
use std::{env, io};

/// The words after the program's name.
fn words(rt: &HostRuntime) -> io::Result<Vec<String>> {
    let words = env::args(rt)?.skip(1).collect(rt.alloc())?;
    Ok(words)
}

/// The status of words that can't be had: they are no text, or there is no memory.
fn wordless(error: &io::Error) -> Status {
    if error.kind() == io::ErrorKind::OutOfMemory {
        Status::NoMemory
    } else {
        Status::BadWords
    }
}

/// The doors that the words ask for. Other words than those of `serve` ask for none.
fn doors_for<'a, R: Net<Listener = TcpListener, Stream = TcpStream>>(
    net: &'a R,
    alloc: Global,
    words: &[String],
) -> Result<Vec<TcpDoor<'a, R>>, AllocError> {
    match read_words(alloc, words) {
        Ok(Command::Serve { port, doors, .. }) => doors_from(net, alloc, port, doors),
        Err(WordsRefused::NoMemory) => Err(AllocError),
        _ => doors_from(net, alloc, 0, 0),
    }
}

fn main(rt: HostRuntime) -> ExitCode {
    let mut chart = FileSource::new(&rt, "chart.toml");
    let mut out = StdSink::new(rt.stdout());
    let disk = FileDisk::new(&rt, "fund.journal");
    let status = match words(&rt) {
        Ok(words) => match doors_for(&rt, rt.alloc(), words.as_slice()) {
            // A stream is read piece by piece, so the input stands in a buffer first.
            Ok(mut doors) => match BufReader::new(rt.alloc(), rt.reader()) {
                Ok(reader) => {
                    let mut input = StdSource::new(reader);
                    let Ran { status, disk: _ } = run(
                        &rt,
                        rt.alloc(),
                        words.as_slice(),
                        &mut chart,
                        &mut input,
                        &mut out,
                        disk,
                        &mut doors,
                    );
                    status
                }
                Err(_) => Status::NoMemory,
            },
            Err(AllocError) => Status::NoMemory,
        },
        Err(error) => wordless(&error),
    };
    let mut err = StdSink::new(rt.stderr());
    let _ = tell(&mut err, status);
    ExitCode::from(status.code())
}
