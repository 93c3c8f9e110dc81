// The gaps before the tokens of a document, one after another.
use crate::elements::Elements;
use crate::gap::Gap;
use crate::slot::{BREAKS, Part, Separator, Slot};
use crate::walk::slots_of;
use std::alloc::{AllocError, Allocator};

// How many columns a line has at most, where it can be broken.
const MAX_WIDTH: usize = 80;

// How a group is written.
#[derive(Clone, Copy)]
enum Form {
    // in one line
    Flat,
    // with a line for each of its parts, indented
    Broken,
    // with a line for each of its parts, not indented
    Flush,
}

/// The gaps before the significant tokens and the comments of a document, in their order.
#[derive(Drop)]
pub struct Gaps<A: Allocator> {
    slots: Vec<Slot, A>,
    next: usize,
    // the groups that are open
    open: Vec<Form, A>,
    // how many of these indent their lines
    broken_count: u16,
}

/// What becomes of the optional sign before a first member.
#[derive(Clone, Copy)]
pub enum SignAdvice {
    /// The token is written, and nothing else.
    Stays,
    /// The token is such a sign, and is left out.
    LeftOut,
    /// The token is the first member, and a sign is put in before it.
    PutIn,
}

impl SignAdvice {
    // What it is after a gap that was made of a separator.
    #[inline(always)]
    fn of(separator: Separator, gap: Gap) -> SignAdvice {
        match separator {
            Separator::NoSign => SignAdvice::LeftOut,
            Separator::FirstSign if gap.lines == 0 => SignAdvice::LeftOut,
            Separator::FirstMember if gap.lines > 0 => SignAdvice::PutIn,
            _ => SignAdvice::Stays,
        }
    }
}

/// The advice for a token: what is between it and the one before it.
#[derive(Clone, Copy)]
pub struct Advice {
    /// What is there.
    pub gap: Gap,
    /// Whether a sign comes or goes.
    pub sign: SignAdvice,
    /// Whether the token stays letter by letter.
    pub is_written: bool,
}

/// The column after a gap that begins in a column.
#[inline(always)]
pub fn column_after(gap: Gap, column: usize) -> usize {
    let spaces = usize::from(gap.spaces);
    if gap.lines > 0 {
        spaces
    } else {
        column
            .saturating_add(spaces)
            .saturating_add(usize::from(gap.comma))
    }
}

// Whether a group that begins in a column fits into the line.
#[inline(always)]
fn fits(slot: Slot, column: usize) -> bool {
    slot.width != BREAKS && column.saturating_add(usize::from(slot.width)) <= MAX_WIDTH
}

impl<A: Allocator + Copy> Gaps<A> {
    /// The gaps of a document whose tree has these elements. It fails only where memory is refused.
    pub fn of<E: Elements>(alloc: A, source: &str, elements: &E) -> Result<Gaps<A>, AllocError> {
        Ok(Gaps {
            slots: slots_of(alloc, source, elements)?,
            next: 0,
            open: Vec::new(alloc),
            broken_count: 0,
        })
    }

    /// Whether the document has no token and no comment.
    pub fn is_empty(&self) -> bool {
        self.slots.is_empty()
    }

    // How many levels deep a line that begins at the slot is indented.
    #[inline(always)]
    fn level(&self, slot: Slot) -> u16 {
        slot.level.saturating_add(self.broken_count)
    }

    // Begins a group.
    fn begin(&mut self, form: Form) -> Result<(), AllocError> {
        if matches!(form, Form::Broken) {
            self.broken_count = self.broken_count.saturating_add(1);
        }
        self.open.push(form)?;
        Ok(())
    }

    // Ends the innermost open group.
    fn end(&mut self) {
        if let Some(Form::Broken) = self.open.pop() {
            self.broken_count = self.broken_count.saturating_sub(1);
        }
    }

    // Whether the innermost open group breaks.
    fn is_broken(&self) -> bool {
        matches!(
            self.open.last().copied(),
            Some(Form::Broken) | Some(Form::Flush)
        )
    }

    // What is in the slot of the first token of a group without brackets, which has this form where it breaks.
    fn first_gap(&mut self, slot: Slot, column: usize, broken: Form) -> Result<Gap, AllocError> {
        let flat = slot.separator.flat(self.level(slot));
        if fits(slot, column_after(flat, column)) {
            self.begin(Form::Flat)?;
            return Ok(flat);
        }
        self.begin(broken)?;
        Ok(slot.separator.broken(self.level(slot)))
    }

    // What is in the slot of a token in a group, or of its opening or closing bracket.
    fn inner_gap(&mut self, slot: Slot, column: usize) -> Result<Gap, AllocError> {
        let is_broken = self.is_broken();
        if matches!(slot.part, Part::Close) {
            self.end();
        }
        let level = self.level(slot);
        let gap = if is_broken {
            slot.separator.broken(level)
        } else {
            slot.separator.flat(level)
        };
        if matches!(slot.part, Part::Open) {
            let form = if fits(slot, column_after(gap, column)) {
                Form::Flat
            } else {
                Form::Broken
            };
            self.begin(form)?;
        }
        Ok(gap)
    }

    // What is in the slot of a token that is in a group, or begins or ends one.
    fn group_gap(&mut self, slot: Slot, column: usize) -> Result<Gap, AllocError> {
        if slot.is_after_group {
            self.end();
        }
        match slot.part {
            Part::First => self.first_gap(slot, column, Form::Broken),
            Part::FirstFlush => self.first_gap(slot, column, Form::Flush),
            _ => self.inner_gap(slot, column),
        }
    }

    /// Whether the white space and the commas before the next token or comment stay as they are in the source.
    #[inline(always)]
    pub fn keeps_blanks(&self) -> bool {
        match self.slots.get(self.next) {
            Some(slot) => matches!(slot.separator, Separator::Written),
            None => false,
        }
    }

    /// The advice for the next token or comment, where the last one ends in a column; a space where there is none left.
    /// It fails only where memory is refused.
    #[inline(always)]
    pub fn next_advice(&mut self, column: usize) -> Result<Advice, AllocError> {
        let Some(slot) = self.slots.get(self.next).copied() else {
            return Ok(Advice {
                gap: Gap::SPACE,
                sign: SignAdvice::Stays,
                is_written: false,
            });
        };
        self.next = self.next.saturating_add(1);
        let is_plain = !slot.separator.is_soft()
            && !slot.is_after_group
            && matches!(slot.part, Part::Neither);
        let gap = if is_plain {
            slot.separator.flat(self.level(slot))
        } else {
            self.group_gap(slot, column)?
        };
        Ok(Advice {
            gap,
            sign: SignAdvice::of(slot.separator, gap),
            is_written: matches!(slot.part, Part::Written),
        })
    }
}
