// What is said of a call that failed.
use crate::NotWhole;
use std::io;
use std::io::{Cursor, Write};

// Bytes that are room for what the system says of a fault, and for the fault's number behind that.
const FAULT_ROOM: usize = 256;

pub fn say<E: Write>(errors: &mut E, why: NotWhole) {
    match why {
        NotWhole::Unread(why) => say_line(errors, "sheet: the questions cannot be read", why),
        NotWhole::Unwritten(why) => say_line(errors, "sheet: the sheets cannot be written", why),
        NotWhole::Endless => {}
    }
}

// A line: what failed, and why. Where that cannot be written either, nothing is done about it.
fn say_line<E: Write>(errors: &mut E, what: &str, why: io::Error) {
    let mut fault = Cursor::new([0u8; FAULT_ROOM]);
    let _ = write!(fault, "{why}");
    let why = in_words(fault.get_ref());
    let _ = writeln!(errors, "{what}: {why}");
}

// The system's words for the fault, without the number that std puts behind them, and without the room that is left.
fn in_words(fault: &[u8]) -> &str {
    let text = str::from_utf8(fault).unwrap_or("");
    let said = text.split_once("\0").map_or(text, |(said, _)| said);
    said.split_once(" (os error ")
        .map_or(said, |(words, _)| words)
}
