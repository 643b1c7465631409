//! Plays a script of charts, lines and payloads, and prints beside each line of it what the public
//! calls say.
//!
//! The lines of a script, and what is printed below each:
//!
//! - `# ..`: a heading, with nothing below it
//! - `chart FILE`: the lines below change the text of this file; nothing is printed
//! - `clear`: the text is empty; nothing is printed
//! - `OLD => NEW`: what is said of the text with this change, in which `;` is the end of a line
//! - `rows TABLE N`: a table of N empty rows comes before the text; nothing is printed
//! - `said`: what is said of the text
//! - `line FUND DEPT OBJECT YEAR`: the control line of an account in a fiscal year
//! - `document HEX`: what is said of a chart of these bytes
//! - `blanks N HEX`: the same of N blanks with these bytes behind them
//! - `call LINE`, `bytes HEX`: the change that a line, or these bytes, are, as the line that a desk
//!   sends for it; that it is a look; or the form reply
//! - `payload HEX`: the entry that begins these bytes: its change, its drawn numbers and its
//!   length; or the offset of the first faulty field
//! - `older HEX`: the same in a journal of version 1
//! - `room N HEX`: what writing the entry into N bytes of room leaves of them
//! - `replies`: the text of each refusal, each result and each look
#![tactic(auto)]

mod document;
mod entries;
mod hex;
mod lines;
mod page;
mod play;
mod refusals;
mod replies;
mod stage;

use play::play;
use stage::Stage;
use std::io;

fn main(rt: HostRuntime) -> io::Result<()> {
    let mut stage = Stage::new(rt.alloc());
    for line in rt.lines(rt.alloc()) {
        let line = line?;
        play(&rt, &mut stage, line.as_str())?;
    }
    Ok(())
}
