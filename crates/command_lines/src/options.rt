// The options of a program as a table, and the one reader of command lines.
ghost use Rattle.std.specs.Prelude.{◌≡◌, ◌≤◌, ◌∷◌, IfOk, codes, length, option_map};
ghost use Rattle.std.specs.List.{Contains};
ghost use Rattle.command_lines.specs.FilePrograms.{request_of};
ghost use Rattle.command_lines.specs.Misuse.{IsAbout, IsAmong};
ghost use Rattle.command_lines.specs.Options.{alone, awaiting, given_from, is_option, with_file, with_option};
ghost use Rattle.command_lines.specs.Options.{with_word, is_set, key_of, limits_of, may_repeat, nothing_given, number};
ghost use Rattle.command_lines.specs.Options.{row_called, set_to, setting, text, texts_set, value_of};
ghost use Rattle.command_lines.specs.Reading.{IsTaken, as_given, as_row, as_rows, as_value};
ghost use Rattle.command_lines.specs.Words.{IsRead, request_map, texts};

use crate::information::{Request, information_of};
use crate::misuse::{Mistake, WordsError, or_misuse};
use crate::numbers::number_of;
use crate::own_value::name_and_value;
use apollo_lexer::Limits;
use std::alloc::{AllocError, Allocator};

/// What an option takes.
#[derive(Clone, Copy)]
pub enum Takes {
    /// No value. It changes nothing, however often it is given.
    Ignored,
    /// No value.
    Nothing,
    /// No value. Of the modes one is given.
    Mode,
    /// A number in decimal digits.
    Number,
    /// `lf`, `crlf` or `keep`.
    LineEnding,
    /// `text`, `json`, `github` or `sarif`.
    Format,
    /// No value. It is `--format json` in another word.
    Json,
    /// Any word.
    Text,
    /// Any word, each time that the option is given.
    Texts,
}

/// An option: its name, its short name or nothing, and what it takes. What it sets is set once, unless it takes texts.
pub type Row = (&'static str, &'static str, Takes);

// The limits of the parser, which each program takes.
pub(crate) const RECURSION: Row = ("--recursion", "", Takes::Number);

pub(crate) const TOKENS: Row = ("--tokens", "", Takes::Number);

/// What an option is set to.
#[derive(Clone, Copy)]
pub enum Value<T> {
    /// It is given, and takes no value.
    Flag,
    Number(usize),
    Text(T),
}

/// What the words of a command line have given.
#[derive(Drop)]
pub struct Plan<'a, A: Allocator> {
    settings: Vec<(&'static str, Value<&'a str>), A>,
    // whether standard input is named by a dash
    input: bool,
    pub files: Vec<&'a str, A>,
}

fn is_option(word: &str) -> bool
    ensures { result ≡ is_option word.now }
{
    matches!(word.as_bytes(), [b'-', _, ..])
}

// The option that a word names.
fn row_called(rows: &[Row], name: &str) -> Option<Row>
    ensures { option_map as_row result ≡ row_called name.now (as_rows rows.now) }
{
    for row in rows {
        if name == row.0 || name == row.1 {
            return Some(*row);
        }
    }
    None
}

// What an option sets: itself, the mode, or the format.
fn key_of(row: Row) -> &'static str
    ensures { result.now ≡ key_of (as_row row.entry) }
{
    match row.2 {
        Takes::Mode => "mode",
        Takes::Json => "--format",
        _ => row.0,
    }
}

// What that is set to without a value, if the option takes none.
fn alone<'a>(row: Row) -> Option<Value<&'a str>>
    ensures { option_map as_value result ≡ alone (as_row row.entry) }
{
    match row.2 {
        Takes::Ignored | Takes::Nothing => Some(Value::Flag),
        Takes::Mode => Some(Value::Text(row.0)),
        Takes::Json => Some(Value::Text("json")),
        Takes::Number | Takes::LineEnding | Takes::Format | Takes::Text | Takes::Texts => None,
    }
}

// The option whose value is the word after it.
fn awaiting(rows: &[Row], word: &str) -> Option<Row>
    ensures { option_map as_row result ≡ awaiting (as_rows rows.now) word.now }
{
    if !is_option(word) || name_and_value(word).is_some() {
        return None;
    }
    let row = row_called(rows, word)?;
    match alone(row) {
        Some(_) => None,
        None => Some(row),
    }
}

// What is wrong with a word whose name no option has.
fn not_named(takes_files: bool, name: &str) -> Mistake {
    if takes_files || is_option(name) {
        Mistake::Unknown
    } else {
        Mistake::NoOption
    }
}

impl Takes {
    // What an option is set to with a value.
    fn value_of<'a>(self, word: &'a str) -> Option<Value<&'a str>>
        ensures { option_map as_value result ≡ value_of self word.now }
    {
        match self {
            Takes::Number => match number_of(word) {
                Some(number) => Some(Value::Number(number)),
                None => None,
            },
            Takes::LineEnding => match word {
                "lf" | "crlf" | "keep" => Some(Value::Text(word)),
                _ => None,
            },
            Takes::Format => match word {
                "text" | "json" | "github" | "sarif" => Some(Value::Text(word)),
                _ => None,
            },
            Takes::Text | Takes::Texts => Some(Value::Text(word)),
            Takes::Ignored | Takes::Nothing | Takes::Mode | Takes::Json => None,
        }
    }

    // What is wrong with a value that it does not take.
    fn mistake(self) -> Mistake {
        match self {
            Takes::Number => Mistake::NoNumber,
            Takes::LineEnding => Mistake::NoLineEnding,
            Takes::Format => Mistake::NoFormat,
            Takes::Ignored
            | Takes::Nothing
            | Takes::Mode
            | Takes::Json
            | Takes::Text
            | Takes::Texts => Mistake::Unknown,
        }
    }

    // Whether an option may be set more than once.
    fn may_repeat(self) -> bool
        ensures { result ≡ may_repeat self }
    {
        matches!(self, Takes::Texts)
    }
}

impl<'a, A: Allocator> Plan<'a, A> {
    // What an option, or the mode, is set to.
    pub(crate) fn setting(&self, key: &str) -> Option<Value<&'a str>>
        ensures { option_map as_value result ≡ setting key.now (as_given self.now) }
    {
        for set in &self.settings {
            if set.0 == key {
                return Some(set.1);
            }
        }
        None
    }

    // Sets an option. Without a value the mistake is said of the word.
    fn set(
        &mut self,
        row: Row,
        value: Option<Value<&'a str>>,
        word: &'a str,
        mistake: Mistake,
    ) -> Result<(), WordsError<'a>>
        ensures set { IsRead (λ _. as_given self.new)
            (set_to (as_row row.entry) (option_map as_value value.entry) (as_given self.old)) result }
        ensures about { IsAbout (λ wrong. wrong ≡ word.now) result }
    {
        let value = or_misuse(value, word, mistake)?;
        if matches!(row.2, Takes::Ignored) {
            return Ok(());
        }
        let key = key_of(row);
        if !row.2.may_repeat() && self.setting(key).is_some() {
            return Err(WordsError::of(word, Mistake::Again));
        }
        match self.settings.push((key, value)) {
            Ok(()) => Ok(()),
            Err(_) => Err(WordsError::Memory),
        }
    }

    // Takes an option in a word alone.
    fn take_option(
        &mut self,
        rows: &[Row],
        takes_files: bool,
        word: &'a str,
    ) -> Result<(), WordsError<'a>>
        ensures given { IsRead (λ _. as_given self.new)
            (with_option (as_rows rows.now) word.now (as_given self.old)) result }
        ensures about { IsAbout (λ wrong. wrong ≡ word.now) result }
    {
        if let Some((name, value)) = name_and_value(word) {
            let row = or_misuse(row_called(rows, name), word, not_named(takes_files, name))?;
            return self.set(row, row.2.value_of(value), word, row.2.mistake());
        }
        let row = or_misuse(row_called(rows, word), word, Mistake::Unknown)?;
        self.set(row, alone(row), word, Mistake::NoValue)
    }

    // Takes the dash of standard input, or a file.
    fn take_file(&mut self, word: &'a str) -> Result<(), WordsError<'a>>
        ensures given { IsRead (λ _. as_given self.new) (with_file word.now (as_given self.old)) result }
        ensures about { IsAbout (λ wrong. wrong ≡ word.now) result }
    {
        if word != "-" {
            self.files.extend_from_slice(&[word])?;
            return Ok(());
        }
        if self.input {
            return Err(WordsError::of(word, Mistake::Again));
        }
        self.input = true;
        Ok(())
    }

    // Takes a word that needs no other.
    fn take_word(
        &mut self,
        rows: &[Row],
        takes_files: bool,
        word: &'a str,
    ) -> Result<(), WordsError<'a>>
        ensures given { IsRead (λ _. as_given self.new)
            (with_word (as_rows rows.now) takes_files word.now (as_given self.old)) result }
        ensures about { IsAbout (λ wrong. wrong ≡ word.now) result }
    {
        if is_option(word) {
            return self.take_option(rows, takes_files, word);
        }
        if !takes_files {
            return Err(WordsError::of(word, Mistake::NoOption));
        }
        self.take_file(word)
    }

    // Takes a word, and gives how many of the words after it go with it.
    fn take_first(
        &mut self,
        rows: &[Row],
        takes_files: bool,
        word: &'a str,
        more: &[&'a str],
    ) -> Result<usize, WordsError<'a>>
        ensures taken { IsTaken
            (given_from (as_rows rows.now) takes_files (as_given self.old) (word.now ∷ texts more.now))
            (given_from (as_rows rows.now) takes_files (as_given self.new)) more.now result }
        ensures within { IfOk result (λ count. count ≤ length more.now) }
        ensures about { IsAbout (λ wrong. wrong ≡ word.now) result }
    {
        if takes_files && word == "--" {
            self.files.extend_from_slice(more)?;
            return Ok(more.len());
        }
        let Some(row) = awaiting(rows, word) else {
            self.take_word(rows, takes_files, word)?;
            return Ok(0);
        };
        let Some(value) = more.first() else {
            return Err(WordsError::of(word, Mistake::NoValue));
        };
        self.set(row, row.2.value_of(value), word, row.2.mistake())?;
        Ok(1)
    }

    /// Whether an option is given.
    pub fn is_set(&self, key: &str) -> bool
        ensures { result ≡ is_set key.now (as_given self.now) }
    {
        self.setting(key).is_some()
    }

    /// The number that an option is given.
    pub fn number(&self, key: &str) -> Option<usize>
        ensures { result ≡ number key.now (as_given self.now) }
    {
        match self.setting(key) {
            Some(Value::Number(number)) => Some(number),
            _ => None,
        }
    }

    /// The word that an option is given.
    pub fn text(&self, key: &str) -> Option<&'a str>
        ensures { option_map (λ text. text.now) result ≡ text key.now (as_given self.now) }
    {
        match self.setting(key) {
            Some(Value::Text(text)) => Some(text),
            _ => None,
        }
    }

    /// The words that an option is given, in their order.
    pub fn texts(&self, alloc: A, key: &str) -> Result<Vec<&'a str, A>, AllocError>
        ensures { IfOk result (λ found. texts found.items ≡ texts_set key.now (as_given self.now)) }
    {
        let mut found = Vec::new(alloc);
        for set in &self.settings {
            if let (name, Value::Text(text)) = *set
                && name == key
            {
                found.push(text)?;
            }
        }
        Ok(found)
    }

    /// The limits of the parser. One that no option has set has its default.
    pub fn limits(&self) -> Limits
        ensures { result ≡ limits_of (as_given self.now) }
    {
        Limits {
            recursion: self
                .number("--recursion")
                .unwrap_or(Limits::DEFAULT.recursion),
            tokens: self.number("--tokens").unwrap_or(Limits::DEFAULT.tokens),
        }
    }
}

/// What words give: options of these rows, and files where the program takes some.
pub(crate) fn plan_of<'a, A: Allocator + Copy>(
    alloc: A,
    rows: &[Row],
    takes_files: bool,
    words: &[&'a str],
) -> Result<Plan<'a, A>, WordsError<'a>>
    ensures given { IsRead as_given (given_from (as_rows rows.now) takes_files nothing_given (texts words.now)) result }
    ensures about { IsAbout (Contains (texts words.now)) result }
{
    let mut plan = Plan {
        settings: Vec::new(alloc),
        input: false,
        files: Vec::new(alloc),
    };
    let mut index = 0;
    while index < words.len() {
        let taken = plan.take_first(rows, takes_files, words[index], &words[index + 1..])?;
        index += 1 + taken;
    }
    Ok(plan)
}

/// The request in the words of a program that takes files. `--help` and `--version` come before all else, wherever they
/// are. Options and files come in any order; after `--` all words are files. The value of an option is the next word,
/// or follows an equals sign.
pub(crate) fn request_of<'a, A: Allocator + Copy>(
    alloc: A,
    rows: &[Row],
    words: &[&'a str],
) -> Result<Request<Plan<'a, A>>, WordsError<'a>>
    ensures request { IsRead (request_map as_given) (request_of (as_rows rows.now) (texts words.now)) result }
    ensures about { IsAbout (IsAmong (texts words.now)) result }
{
    if let Some(page) = information_of(words) {
        return Ok(Request::Print(page));
    }
    let plan = plan_of(alloc, rows, true, words)?;
    if plan.input && plan.files.len() > 0 {
        return Err(WordsError::of("-", Mistake::BesideFiles));
    }
    Ok(Request::Process(plan))
}
