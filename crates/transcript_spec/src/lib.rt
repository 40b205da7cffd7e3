// The printed texts as definitions and theorems. No function is here: the code that writes them stands above.
#![tactic(auto)]

// Bytes that are room for the text of any question.
pub const LINE_ROOM: usize = 706;
