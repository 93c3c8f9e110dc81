// Objects of JSON, a line or a member at a time.
ghost use Rattle.std.specs.Prelude.{◌≡◌, ◌≤◌, ◌∷◌, [], IfOk, length};
ghost use Rattle.json.specs.Token.{begin_array, begin_object, end_array, end_object, key};
ghost use Rattle.gqlcheck_run.specs.JsonLines.{Adds, AddsMembers, IsEnded, flag_tokens, number_tokens, text_tokens};

use crate::places::{Part, column_of, line_of};
use json::Writer;
use line_index::LineIndex;
use std::alloc::{AllocError, Allocator};

/// A line that an object begins, behind the others.
pub fn object_writer<A: Allocator>(lines: Vec<u8, A>) -> Result<Writer<A>, AllocError>
    ensures before { IfOk result (λ out. out.before ≡ lines.items) }
    ensures tokens { IfOk result (λ out. out.tokens ≡ begin_object ∷ []) }
{
    let mut out = Writer::new(lines);
    out.begin_object()?;
    Ok(out)
}

/// All of that, with the end of the line's object and its line feed.
pub fn lines_of<A: Allocator>(mut out: Writer<A>) -> Result<Vec<u8, A>, AllocError>
    ensures { IfOk result (λ lines. IsEnded out lines.items) }
{
    out.end_object()?;
    let mut lines = out.into_inner();
    lines.push(b'\n')?;
    Ok(lines)
}

/// A member of an object: its name, and a number.
pub fn put_number<A: Allocator>(
    out: &mut Writer<A>,
    name: &str,
    number: u64,
) -> Result<(), AllocError>
    ensures adds { IfOk result (λ _. Adds (number_tokens name.now number) out.old out.new) }
    ensures members { IfOk result (λ _. AddsMembers out.old out.new) }
{
    out.key(name)?;
    out.u64(number)?;
    Ok(())
}

/// The same with a text.
pub fn put_text<A: Allocator>(out: &mut Writer<A>, name: &str, text: &str) -> Result<(), AllocError>
    ensures adds { IfOk result (λ _. Adds (text_tokens name.now text.now) out.old out.new) }
    ensures members { IfOk result (λ _. AddsMembers out.old out.new) }
{
    out.key(name)?;
    out.string(text)?;
    Ok(())
}

/// The same with a truth value.
pub fn put_flag<A: Allocator>(out: &mut Writer<A>, name: &str, flag: bool) -> Result<(), AllocError>
    ensures adds { IfOk result (λ _. Adds (flag_tokens name.now flag) out.old out.new) }
    ensures members { IfOk result (λ _. AddsMembers out.old out.new) }
{
    out.key(name)?;
    out.boolean(flag)?;
    Ok(())
}

/// The name of a member that is an object, and the beginning of that.
pub fn open_object<A: Allocator>(out: &mut Writer<A>, name: &str) -> Result<(), AllocError>
    ensures { IfOk result (λ _. Adds (key name.now ∷ begin_object ∷ []) out.old out.new) }
{
    out.key(name)?;
    out.begin_object()?;
    Ok(())
}

/// Its end.
pub fn close_object<A: Allocator>(out: &mut Writer<A>) -> Result<(), AllocError>
    ensures { IfOk result (λ _. Adds (end_object ∷ []) out.old out.new) }
{
    out.end_object()?;
    Ok(())
}

/// The name of a member that is a list of one object, and the beginning of that.
pub fn open_list<A: Allocator>(out: &mut Writer<A>, name: &str) -> Result<(), AllocError>
    ensures { IfOk result (λ _. Adds (key name.now ∷ begin_array ∷ begin_object ∷ []) out.old out.new) }
{
    out.key(name)?;
    out.begin_array()?;
    out.begin_object()?;
    Ok(())
}

/// Its end.
pub fn close_list<A: Allocator>(out: &mut Writer<A>) -> Result<(), AllocError>
    ensures { IfOk result (λ _. Adds (end_object ∷ end_array ∷ []) out.old out.new) }
{
    out.end_object()?;
    out.end_array()?;
    Ok(())
}

/// Where a part of a text ends: its line and its column, from 1 on.
#[tactic(auto, using(crate::proofs::Members::both))]
pub fn put_end<A: Allocator>(
    out: &mut Writer<A>,
    source: &str,
    index: &LineIndex<'_, A>,
    part: Part,
) -> Result<(), AllocError>
    requires index { index.now ≡ source.now }
    requires within { part.end ≤ length source.now }
    ensures { IfOk result (λ _. AddsMembers out.old out.new) }
{
    put_number(out, "endLine", line_of(source, index, part.end) as u64)?;
    put_number(out, "endColumn", column_of(source, index, part.end) as u64)?;
    Ok(())
}
