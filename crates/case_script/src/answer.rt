//! What a call answers.

use std::alloc::{AllocError, Global};
use std::fmt::{Debug, Display};

/// What a call answers. One that lacks anything, such as what there was no memory for, is no wanted answer.
#[derive(Drop)]
pub struct Answer {
    alloc: Global,
    bytes: Vec<u8>,
    is_whole: bool,
}

impl Answer {
    /// One that says nothing yet.
    pub fn new(alloc: Global) -> Answer {
        Answer {
            alloc,
            bytes: Vec::new(alloc),
            is_whole: true,
        }
    }

    /// What allocates the answer.
    pub fn alloc(&self) -> Global {
        self.alloc
    }

    /// What is answered so far.
    pub fn written(&self) -> &[u8] {
        &self.bytes
    }

    /// Whether it lacks nothing.
    pub fn is_whole(&self) -> bool {
        self.is_whole
    }

    /// Ends the answer here, with a line that says why it lacks the rest.
    pub fn break_off(&mut self, why: &str) {
        self.is_whole = false;
        self.text(why);
        self.text("\n");
    }

    /// Answers bytes.
    pub fn bytes(&mut self, bytes: &[u8]) {
        if self.bytes.extend_from_slice(bytes).is_err() {
            self.is_whole = false;
        }
    }

    /// Answers a text.
    pub fn text(&mut self, text: &str) {
        self.bytes(text.as_bytes());
    }

    /// Answers a value behind a text.
    pub fn shown<T: Display + Copy>(&mut self, before: &str, value: T) {
        self.made(format!(in self.alloc; "{before}{value}"));
    }

    /// Answers a value behind a text, as the code of a value is written.
    pub fn debug<T: Debug + Copy>(&mut self, before: &str, value: T) {
        self.made(format!(in self.alloc; "{before}{value:?}"));
    }

    /// Answers a number in binary digits.
    pub fn binary(&mut self, number: u128) {
        self.made(format!(in self.alloc; "{number:b}"));
    }

    /// Answers a number in hexadecimal digits behind a text.
    pub fn hexadecimal(&mut self, before: &str, number: u128) {
        self.made(format!(in self.alloc; "{before}{number:x}"));
    }

    /// Answers a text that was made, if there was memory for it.
    pub fn made(&mut self, text: Result<String, AllocError>) {
        match text {
            Ok(text) => self.text(&text),
            Err(_) => self.is_whole = false,
        }
    }
}
