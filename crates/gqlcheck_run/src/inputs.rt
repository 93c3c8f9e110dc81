// The texts of a run.
ghost use Rattle.std.specs.Prelude.{◌≡◌, ◌≢◌, ◌∷◌, ◌++◌, [], ℕ, List, IfErr, IfOk, OnOk, map, string_bytes};
ghost use Rattle.std.specs.BTreeSet.{contains_text};
ghost use Rattle.byte_streams.specs.Runs.{Reads};
ghost use Rattle.byte_streams.specs.declared.fault.Fault.TheVariants.{Read};
ghost use Rattle.document_checks.specs.Checking.{texts_of};
ghost use Rattle.gqlcheck_run.specs.Inputs.{Keeps, Marks, as_input, as_texts, bytes_in, no_texts, text_of};
ghost use Rattle.gqlcheck_run.specs.Reading.{ReadsInput};

use crate::outcome::end;
use byte_streams::{Fault, Sink, Source, read_to_end};
use std::alloc::{AllocError, Allocator};
use std::collections::BTreeSet;

/// The name of standard input in messages.
pub const INPUT: &str = "<stdin>";

/// The texts that are kept, and the paths of the files that were read.
#[derive(Drop)]
pub struct Texts<A: Allocator> {
    pub inputs: Vec<Input<A>, A>,
    paths: BTreeSet<String<A>, A>,
}

impl<A: Allocator + Copy> Texts<A> {
    /// No texts.
    pub fn new(alloc: A) -> Texts<A>
        ensures { as_texts result ≡ no_texts }
    {
        Texts {
            inputs: Vec::new(alloc),
            paths: BTreeSet::new(alloc),
        }
    }

    /// Whether the file at a path was read before.
    pub fn was_read(&self, path: &str) -> bool
        ensures { result ≡ contains_text self.now.paths path.now }
    {
        self.paths.contains(path)
    }

    /// Says that the file at a path was read.
    pub fn mark(&mut self, alloc: A, path: &str) -> Result<(), AllocError>
        ensures inputs { self.new.inputs ≡ self.old.inputs }
        ensures ok { OnOk result (Marks path.now (contains_text self.old.paths) (contains_text self.new.paths)) }
        ensures err { IfErr result (λ _. contains_text self.new.paths ≡ contains_text self.old.paths) }
    {
        let path = String::from_str(alloc, path)?;
        self.paths.insert(path)?;
        Ok(())
    }
}

/// A text, and the name that it has in messages.
#[derive(Drop)]
pub struct Input<A: Allocator> {
    pub name: String<A>,
    pub text: String<A>,
}

// Adds a text with its name.
fn add<A: Allocator>(
    alloc: A,
    inputs: &mut Vec<Input<A>, A>,
    name: &str,
    text: String<A>,
) -> Result<(), AllocError>
    ensures ok { OnOk result (map as_input inputs.new.items
        ≡ map as_input inputs.old.items ++ record { name = name.now; text = string_bytes text } ∷ []) }
    ensures err { IfErr result (λ _. inputs.new.items ≡ inputs.old.items) }
{
    let name = String::from_str(alloc, name)?;
    inputs.push(Input { name, text })?;
    Ok(())
}

/// Adds the text that these bytes are, unless they are not UTF-8 or memory is refused.
pub fn keep<A: Allocator>(
    alloc: A,
    inputs: &mut Vec<Input<A>, A>,
    name: &str,
    bytes: Vec<u8, A>,
) -> Result<(), Fault>
    ensures keeps { Keeps name.now result bytes.items (map as_input inputs.old.items) (map as_input inputs.new.items) }
    ensures read { IfErr result (λ fault. fault ≢ Read) }
{
    let Ok(text) = String::from_utf8(bytes) else {
        return Err(Fault::Utf8);
    };
    add(alloc, inputs, name, text)?;
    Ok(())
}

// Reads to the end, and keeps the text.
fn keep_input<A: Allocator + Copy, R: Source>(
    alloc: A,
    reader: &mut R,
    inputs: &mut Vec<Input<A>, A>,
) -> Result<(), Fault>
    ensures { (input : List ℕ) × Reads result input (R.account reader.old) (R.account reader.new)
        × Keeps INPUT.now result input (map as_input inputs.old.items) (map as_input inputs.new.items) }
{
    let bytes = read_to_end(alloc, reader)?;
    keep(alloc, inputs, INPUT, bytes)
}

/// Reads standard input and adds its text, or tells why not. The status is 0 or 2.
pub fn read_input<A: Allocator + Copy, R: Source, E: Sink>(
    alloc: A,
    reader: &mut R,
    complaints: &mut E,
    inputs: &mut Vec<Input<A>, A>,
) -> u8
    ensures { ReadsInput result (map as_input inputs.old.items) (map as_input inputs.new.items)
        (R.account reader.old) (R.account reader.new) (E.account complaints.old) (E.account complaints.new) }
{
    let ended = keep_input(alloc, reader, inputs);
    end(alloc, complaints, INPUT, &ended)
}

/// The texts alone.
pub fn sources<A: Allocator>(alloc: A, inputs: &[Input<A>]) -> Result<Vec<&str, A>, AllocError>
    ensures { IfOk result (λ sources. texts_of sources.items ≡ map text_of (map as_input inputs.now)) }
{
    let mut sources = Vec::new(alloc);
    for input in inputs {
        sources.push(input.text.as_str())?;
    }
    Ok(sources)
}

/// How many bytes texts have, or `usize::MAX` where they have more.
pub fn bytes_in<A: Allocator>(inputs: &[Input<A>]) -> usize
    ensures { result ≡ bytes_in (map as_input inputs.now) }
{
    let mut bytes: usize = 0;
    for input in inputs {
        bytes = bytes.saturating_add(input.text.len());
    }
    bytes
}
