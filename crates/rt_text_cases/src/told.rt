//! A text that tests put together, part by part.

use std::alloc::Global;
use std::fmt::Write;

/// A text, and whether a part of it is missing since memory ran out.
#[derive(Drop)]
pub struct Report {
    text: String,
    is_cut: bool,
}

impl Report {
    pub fn new(alloc: Global) -> Report {
        Report {
            text: String::new(alloc),
            is_cut: false,
        }
    }

    /// Puts a part at the end.
    pub fn put(&mut self, part: &str) {
        if self.text.push_str(part).is_err() {
            self.is_cut = true;
        }
    }

    /// Puts a text between quotes.
    pub fn put_quoted(&mut self, text: &str) {
        self.put("'");
        self.put(text);
        self.put("'");
    }

    pub fn put_number(&mut self, number: i128) {
        if write!(self.text, "{number}").is_err() {
            self.is_cut = true;
        }
    }

    /// Whether the whole text is this one.
    pub fn is(&self, wanted: &str) -> bool {
        !self.is_cut && self.text.as_str() == wanted
    }
}
