// Why a program is not called so.
ghost use Rattle.std.specs.Prelude.{◌≡◌, ◌++◌, IfOk, string_bytes};
ghost use Rattle.std.specs.Result.{result_ok};
ghost use Rattle.command_lines.specs.Misuse.{IsAbout, after, before, complaint};
ghost use Rattle.command_lines.specs.declared.misuse.WordsError.TheVariants.{Memory, Usage};

use marked_lines::push_escaped;
use std::alloc::{AllocError, Allocator};

/// What is wrong with a word.
#[derive(Clone, Copy)]
pub enum Mistake {
    /// There is no such option.
    Unknown,
    /// It is no option, and the program takes no files.
    NoOption,
    /// There is no such mode.
    UnknownMode,
    /// There is no word, and a mode has to be the first.
    NoMode,
    /// The option has no value.
    NoValue,
    /// The value is no number, or one that is too large.
    NoNumber,
    /// The value is not one of the three line endings.
    NoLineEnding,
    /// The value is not one of the four formats.
    NoFormat,
    /// There is no such rule.
    UnknownRule,
    /// The option is given twice, or with another one that excludes it.
    Again,
    /// Standard input is given beside files.
    BesideFiles,
}

/// A word that is wrong in its place.
#[derive(Clone, Copy)]
pub struct Misuse<'a> {
    pub word: &'a str,
    pub mistake: Mistake,
}

impl Misuse<'_> {
    // The words around the word that is wrong, in a line about it.
    fn words(&self) -> (&'static str, &'static str)
        ensures before { result.0.now ≡ before self.now.mistake }
        ensures after { result.1.now ≡ after self.now.mistake }
    {
        match self.mistake {
            Mistake::Unknown => ("unknown option ", ""),
            Mistake::NoOption => ("", " is no option"),
            Mistake::UnknownMode => ("unknown mode ", ""),
            Mistake::NoMode => ("no mode is given", ""),
            Mistake::NoValue => ("", " has no value"),
            Mistake::NoNumber => ("", " takes a number"),
            Mistake::NoLineEnding => ("", " takes lf, crlf or keep"),
            Mistake::NoFormat => ("", " takes text, json, github or sarif"),
            Mistake::UnknownRule => ("unknown rule ", ""),
            Mistake::Again => ("", " is given twice, or beside an option that excludes it"),
            Mistake::BesideFiles => ("", " is given beside files"),
        }
    }

    /// What a program with this name says: a line about the word that is wrong, with escapes for characters that would
    /// not be seen, and then how it is called.
    pub fn explanation<A: Allocator>(
        &self,
        alloc: A,
        program: &str,
        usage: &str,
    ) -> Result<String<A>, AllocError>
        ensures { IfOk result (λ text. string_bytes text ≡ complaint program.now self.now.word.now self.now.mistake
            ++ usage.now) }
    {
        let (before, after) = self.words();
        let mut text = String::from_str(alloc, program)?;
        text.push_str(": ")?;
        text.push_str(before)?;
        push_escaped(&mut text, self.word)?;
        text.push_str(after)?;
        text.push('\n')?;
        text.push_str(usage)?;
        Ok(text)
    }
}

/// Why words have no request.
#[derive(Clone, Copy)]
pub enum WordsError<'a> {
    /// The program is not called so.
    Usage(Misuse<'a>),
    /// Memory was refused.
    Memory,
}

impl<'a> From<AllocError> for WordsError<'a> {
    ghost from_gives = { λ _ error. error ≡ Memory };

    fn from(_error: AllocError) -> WordsError<'a> {
        WordsError::Memory
    }
}

impl<'a> WordsError<'a> {
    /// That a word is wrong.
    pub(crate) fn of(word: &'a str, mistake: Mistake) -> WordsError<'a>
        ensures { result ≡ Usage (record { word = word.entry; mistake = mistake }) }
    {
        WordsError::Usage(Misuse { word, mistake })
    }
}

/// What was found, or what is wrong with the word.
pub(crate) fn or_misuse<'a, T>(
    found: Option<T>,
    word: &'a str,
    mistake: Mistake,
) -> Result<T, WordsError<'a>>
    ensures found { result_ok result ≡ found }
    ensures about { IsAbout (λ wrong. wrong ≡ word.now) result }
{
    match found {
        Some(value) => Ok(value),
        None => Err(WordsError::of(word, mistake)),
    }
}
