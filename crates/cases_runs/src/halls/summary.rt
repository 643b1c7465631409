//! What callers were answered that is the same whoever comes first.

use crate::halls::stage::Stage;
use std::alloc::{AllocError, Global};

/// The replies of all callers, without the order in which they came.
#[derive(Drop)]
struct Sorted {
    bodies: Vec<String>,
    places: Vec<u64>,
}

/// Adds a reply: its place, which stands first, and the rest.
fn add_reply(alloc: Global, sorted: &mut Sorted, reply: &str) -> Result<(), AllocError> {
    let (place, body) = reply.split_once(",").unwrap_or(("", reply));
    let number = place.trim_start_matches("{\"at\":");
    sorted.places.push(number.parse::<u64>().unwrap_or(0))?;
    sorted.bodies.push(String::from_str(alloc, body)?)?;
    Ok(())
}

/// Adds replies, each on a line.
fn add_replies(alloc: Global, sorted: &mut Sorted, replies: &str) -> Result<(), AllocError> {
    for reply in replies.lines() {
        add_reply(alloc, sorted, reply)?;
    }
    Ok(())
}

/// Adds the replies to a text, each on a line.
fn put_bodies(bodies: &[String], text: &mut String) -> Result<(), AllocError> {
    for body in bodies {
        text.push_str(body.as_str())?;
        text.push('\n')?;
    }
    Ok(())
}

/// Adds the places to a text, with a blank before each.
fn put_places(alloc: Global, places: &[u64], text: &mut String) -> Result<(), AllocError> {
    for place in places {
        let place = format!(in alloc; " {place}")?;
        text.push_str(place.as_str())?;
    }
    Ok(())
}

/// Sorts the replies and the places, and adds them to a text.
fn put_sorted(alloc: Global, sorted: &mut Sorted, text: &mut String) -> Result<(), AllocError> {
    sorted.bodies.sort()?;
    sorted.places.sort()?;
    put_bodies(sorted.bodies.as_slice(), text)?;
    text.push_str("at")?;
    put_places(alloc, sorted.places.as_slice(), text)
}

/// Adds the replies of all callers.
fn add_all(stage: &mut Stage, sorted: &mut Sorted) -> Result<(), AllocError> {
    for caller in stage.table.callers.iter_mut() {
        add_replies(stage.alloc, sorted, caller.get_mut().replies())?;
    }
    Ok(())
}

/// The replies of all callers without their places, and the places, both sorted.
pub fn summary(stage: &mut Stage) -> Result<String, AllocError> {
    let mut sorted = Sorted {
        bodies: Vec::new(stage.alloc),
        places: Vec::new(stage.alloc),
    };
    add_all(stage, &mut sorted)?;
    let mut text = String::new(stage.alloc);
    put_sorted(stage.alloc, &mut sorted, &mut text)?;
    Ok(text)
}
