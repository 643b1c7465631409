//! A desk over each image that a crash may leave.

use crate::images::{TEARS, Tear, image_after};
use crate::stage::{Left, Stage, desk_over, disk_with};
use crate::status::brief_text;
use cf_run_status::Status;
use std::alloc::{AllocError, Global};
use std::io;

/// Texts, each of them once, as they first came.
#[derive(Drop)]
struct Texts {
    texts: Vec<String>,
}

impl Texts {
    fn has(&self, text: &str) -> bool {
        self.texts.iter().any(|other| other.as_str() == text)
    }

    fn add(&mut self, text: String) -> Result<(), AllocError> {
        if !self.has(text.as_str()) {
            self.texts.push(text)?;
        }
        Ok(())
    }
}

/// What a desk with the lines said over an image, or how it ended where that isn't well; and
/// whether the disk then holds another.
fn left_text(alloc: Global, left: &Left, image: &[u8]) -> Result<String, AllocError> {
    let mut text = match left.status {
        Status::Ok => String::from_str(alloc, left.said().trim_end())?,
        status => brief_text(alloc, status)?,
    };
    if left.disk.bytes() != image {
        text.push_str(", and the journal is another")?;
    }
    Ok(text)
}

/// What a desk with the lines said over an image, where its disk stops at a call, or at none.
fn said_over(stage: &Stage, image: &[u8], stop: u64) -> Result<String, AllocError> {
    let disk = disk_with(stage.alloc, image, &[], stop)?;
    let left = desk_over(stage.alloc, stage.lines.as_str(), disk)?;
    left_text(stage.alloc, &left, image)
}

/// An image after the last run.
fn image(stage: &Stage, tears: [Tear; 2]) -> Result<Vec<u8>, AllocError> {
    match &stage.last {
        Some(disk) => image_after(stage.alloc, stage.before.as_slice(), disk.calls(), tears),
        None => Ok(Vec::new(stage.alloc)),
    }
}

/// Adds what desks say over an image: one that runs on, and those whose disk stops in opening.
fn add_said(
    stage: &Stage,
    image: &[u8],
    whole: &mut Texts,
    stopped: &mut Texts,
) -> Result<(), AllocError> {
    whole.add(said_over(stage, image, 0)?)?;
    for stop in 1..6 {
        stopped.add(said_over(stage, image, stop)?)?;
    }
    Ok(())
}

/// The images that a crash at the end of the last run may leave, each of them once.
fn images(stage: &Stage) -> Result<Vec<Vec<u8>>, AllocError> {
    let mut images = Vec::new(stage.alloc);
    for tear in TEARS {
        for next in TEARS {
            add_image(&mut images, image(stage, [tear, next])?)?;
        }
    }
    Ok(images)
}

/// Adds an image that isn't among them.
fn add_image(images: &mut Vec<Vec<u8>>, image: Vec<u8>) -> Result<(), AllocError> {
    if !images
        .iter()
        .any(|other| other.as_slice() == image.as_slice())
    {
        images.push(image)?;
    }
    Ok(())
}

fn show_texts(rt: &impl Print, name: &str, texts: &Texts) -> io::Result<()> {
    for text in &texts.texts {
        println!(rt; "{name} {}", text.as_str())?;
    }
    Ok(())
}

/// Prints what desks say over each image that a crash at the end of the last run may leave.
pub fn show_tears(rt: &impl Print, stage: &mut Stage) -> io::Result<()> {
    let mut whole = Texts {
        texts: Vec::new(stage.alloc),
    };
    let mut stopped = Texts {
        texts: Vec::new(stage.alloc),
    };
    for image in &images(stage)? {
        add_said(stage, image.as_slice(), &mut whole, &mut stopped)?;
    }
    stage.lines.clear();
    show_texts(rt, "=", &whole)?;
    show_texts(rt, "stopped =", &stopped)
}
