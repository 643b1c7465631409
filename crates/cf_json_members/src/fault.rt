//! Why a line is no call.

use cf_calls::Label;
use thiserror::Error;

/// What is wrong with the form of a line.
#[derive(Debug, Drop, Error)]
pub enum FormFault {
    /// The line isn't a JSON object.
    #[error("the line isn't a JSON object")]
    Json,
    /// `call` is missing or isn't the word of a call.
    #[error("the line names no call")]
    Call,
    /// The first field, in the order of its call, that is missing, of another type or against a
    /// rule of form. Where there is none, the least name, by bytes, that the call doesn't have.
    #[error("the field `{}` is missing or malformed", .name.as_str())]
    Fields { name: Label },
    /// The line is longer than a line may be.
    #[error("the line is too long")]
    Long,
}

/// Why no call was read.
#[derive(Debug, Drop, Error)]
pub enum CallRefused {
    #[error(transparent)]
    Form(FormFault),
    /// There was no memory for the call.
    #[error("out of memory")]
    NoMemory,
}
