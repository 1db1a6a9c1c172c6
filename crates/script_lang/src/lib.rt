//! The lines of scripts, and the texts of replies.
#![tactic(auto)]

mod entry;
mod laws;
mod line;
mod next;
mod print;
mod reader;
mod table;
#[cfg(test)]
mod tests;
mod text;
mod words;

pub use entry::print_entry;
pub use laws::{
    a_line_for_lanes_says_one_thing, a_line_says_one_thing, a_printed_call_says_the_call,
};
pub use line::{BadLine, LINE_LIMIT, LaneLine, Line, lane_of, read_lane_line, read_line};
pub use next::next_line;
pub use text::print_reply;
pub use words::{name_of, number_of, split_at_byte};
