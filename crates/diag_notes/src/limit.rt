//! The limits of a log and of a journal.

/// The limit that a file is beyond, as the line of a fault tells it, and what takes more.
pub fn beyond(told: &str) -> Option<&'static str> {
    if told.contains(": too many lines") {
        Some("a log has at most 1000000 lines; bus takes a recording of any length")
    } else if told.contains(": too many events") {
        Some(
            "a log gives at most 1000000 events: frames that count, tick lines, and with --stamps the time between two of these frames, in parts of 60 s; bus takes a recording of any length",
        )
    } else if told.contains("file ") && told.contains(": too long") {
        Some(
            "a log has at most 67108864 bytes and a journal 268435456; bus takes a recording of any length",
        )
    } else {
        None
    }
}
