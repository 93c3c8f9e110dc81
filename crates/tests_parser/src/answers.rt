// How answers are written. A function without `?` is proved in half the time, so only the end says whether memory was
// refused.
use std::alloc::{AllocError, Global};
use std::fmt::{Debug, Display};

/// The answers so far.
#[derive(Drop)]
pub struct Answers {
    text: String,
    is_whole: bool,
}

impl Answers {
    pub fn new(alloc: Global) -> Answers {
        Answers {
            text: String::new(alloc),
            is_whole: true,
        }
    }

    fn check(&mut self, written: Result<(), AllocError>) {
        self.is_whole = self.is_whole && written.is_ok();
    }

    pub fn push_text(&mut self, words: &str) {
        let written = self.text.push_str(words);
        self.check(written);
    }

    pub fn end_line(&mut self) {
        self.push_text("\n");
    }

    /// The value as it is shown to people.
    pub fn show<T: Display>(&mut self, value: &T) {
        let written = write!(self.text, "{value}");
        self.check(written);
    }

    /// The value as it is shown to programmers.
    pub fn debug<T: Debug>(&mut self, value: &T) {
        let written = write!(self.text, "{value:?}");
        self.check(written);
    }

    /// The same as `debug`, and the words after it.
    pub fn write<T: Debug>(&mut self, value: &T, after: &str) {
        self.debug(value);
        self.push_text(after);
    }

    /// The text that was made, and the words after it.
    pub fn made(&mut self, text: Result<String, AllocError>, after: &str) {
        match text {
            Ok(text) => self.write(&text.as_str(), after),
            Err(refused) => self.check(Err(refused)),
        }
    }

    /// The same as `debug` after a space.
    pub fn put<T: Debug>(&mut self, value: &T) {
        self.push_text(" ");
        self.debug(value);
    }

    /// All answers, unless memory was refused to one of them.
    pub fn into_text(self) -> Result<String, AllocError> {
        let Answers { text, is_whole } = self;
        if is_whole { Ok(text) } else { Err(AllocError) }
    }
}
