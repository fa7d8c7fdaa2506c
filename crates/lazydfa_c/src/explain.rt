//! Messages about the limits that the texts of patterns exceed: which limit it is, its value, what is needed, and which
//! member of the options or of the settings raises it.

use crate::code::Code;
use crate::settings::Settings;
use crate::status::Status;
use std::alloc::{AllocError, Global};
use std::fmt::Write;

/// Formats that the texts have more of something than the option of a name allows.
pub fn too_many(
    alloc: Global,
    count: usize,
    things: &str,
    limit: usize,
    option: &str,
) -> Result<String, AllocError> {
    let mut message = String::new(alloc);
    write!(
        message,
        "the patterns have {count} {things}, and may have {limit}; raise {option}"
    )?;
    Ok(message)
}

/// Formats why no regex is built, if the reason is a limit. Otherwise the message is empty.
pub fn not_built(alloc: Global, status: Status, settings: &Settings) -> Result<String, AllocError> {
    let mut message = String::new(alloc);
    if status.code == Code::Capacity.number() {
        let minimum = status.offset;
        let capacity = settings.capacity();
        let limit = settings.limit();
        write!(
            message,
            "a cache of the patterns needs at least {minimum} bytes, and may take only "
        )?;
        write!(
            message,
            "{capacity} (cache_capacity) or {limit} (cache_limit); raise cache_limit"
        )?;
    }
    if status.code == Code::TooLarge.number() {
        message.push_str("the patterns have more states, read backward, than there are IDs")?;
    }
    Ok(message)
}
