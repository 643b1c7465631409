//! Plays a script of links in memory and over the loopback device, and prints what each one was
//! answered and how it ended.
#![tactic(auto)]

mod clerk;
mod cut;
mod net;
mod peers;
mod script;
mod stage;

use script::play;
use stage::Stage;
use std::io;

fn main(rt: HostRuntime) -> io::Result<()> {
    let mut stage = Stage::new(rt.alloc());
    for line in rt.lines(rt.alloc()) {
        play(&rt, &mut stage, line?.as_str())?;
    }
    Ok(())
}
