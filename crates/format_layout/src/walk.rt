// The walk over the tree of a document, which finds the slots before its tokens. What is called for each of them is
// inlined: the whole program takes some 6 % less time. The walk itself is not, since its loop and the writer's would
// have to share the processor's registers.
use crate::comments::CommentState;
use crate::elements::Elements;
use crate::rules::{
    Inside, between, closes, is_between_items, is_in_braces, is_word, leaves_out_sign, opens,
};
use crate::size::{QUOTES, columns, has_lines};
use crate::slot::{BREAKS, Part, Separator, Slot};
use apollo_tree::IndexedElement;
use document_grammar::SyntaxKind;
use std::alloc::{AllocError, Allocator};

// What the walk reads of an element. The rest is never worked out where `Elements::element` is inlined.
#[derive(Clone, Copy)]
struct Met {
    kind: SyntaxKind,
    is_node: bool,
    // the byte offset at which its text begins
    start: usize,
    // the index of the first element after it and all below it
    after: usize,
}

impl Met {
    #[inline(always)]
    fn of(element: IndexedElement) -> Met {
        Met {
            kind: element.kind,
            is_node: element.is_node,
            start: element.start,
            after: element.after_subtree,
        }
    }
}

// The last token, while it is not known where it ends: where the next element begins.
#[derive(Clone, Copy)]
enum Uncounted {
    // its columns are counted, or none are
    Nothing,
    // a token that has a column for each byte
    Word,
    // a string
    String,
}

// A group that has ended, while it is not known where the next line may end.
#[derive(Clone, Copy)]
struct Ended {
    // the number of its first slot
    first: usize,
    // the column in front of its first token
    start: usize,
}

/// A node on the way down.
#[derive(Clone, Copy)]
pub struct Frame {
    // the index of the first element after it and all below it
    after: usize,
    // the number of its first slot
    first: usize,
    // the column in front of its first token
    start: usize,
    /// How many levels deep a line is indented that begins with the node.
    pub level: u16,
    kind: SyntaxKind,
    // whether it is a definition that begins in the line in which the one before it ends
    is_beside: bool,
    /// What its children are to each other.
    pub inside: Inside,
    /// The last child that is no comment.
    pub previous: Option<SyntaxKind>,
}

impl Frame {
    // The frame of a document whose tree has this many elements.
    fn of_document(element_count: usize) -> Frame {
        Frame {
            after: element_count,
            first: 0,
            start: 0,
            level: 0,
            kind: SyntaxKind::DOCUMENT,
            is_beside: false,
            inside: Inside::Document,
            previous: None,
        }
    }
}

// What was met so far.
#[derive(Drop)]
struct Walk<'t, A: Allocator> {
    source: &'t str,
    slots: Vec<Slot, A>,
    // whether the last slot belongs to a token still to come, fixed by a node that begins with it
    is_pending: bool,
    // where the element begins that is met
    here: usize,
    // the last token, while its columns are to be counted
    uncounted: Uncounted,
    comments: CommentState,
    // the index of the first element after an item that stays as it is
    written_until: usize,
    // whether the last token was a closing brace
    after_brace: bool,
    // how many of the open nodes are groups
    group_count: usize,
    // the groups that have ended, while it is not known where the next line may end
    ended: Vec<Ended, A>,
    // whether a group without brackets has ended after the last token
    is_after_group: bool,
    // the number of the last slot in which a line ends, or of the last token in which one does
    last_line: usize,
    // where the last token ends, in columns while nothing breaks; it is counted only while a group is open, or one that
    // has ended waits
    column: usize,
}

// Adds an item, mostly where there is room: then without a call.
#[inline(always)]
fn add<T: Copy, A: Allocator>(items: &mut Vec<T, A>, item: T) -> Result<(), AllocError> {
    if items.len() < items.capacity() {
        items.push_reserved(item);
        return Ok(());
    }
    items.push(item)?;
    Ok(())
}

impl<'t, A: Allocator + Copy> Walk<'t, A> {
    // Nothing was met yet.
    fn new(alloc: A, source: &'t str, element_count: usize) -> Result<Walk<'t, A>, AllocError> {
        Ok(Walk {
            source,
            // no more than a part of this is used, and the rest is never touched
            slots: Vec::with_capacity(alloc, element_count)?,
            is_pending: false,
            here: 0,
            uncounted: Uncounted::Nothing,
            comments: CommentState::NONE,
            written_until: 0,
            after_brace: false,
            group_count: 0,
            ended: Vec::new(alloc),
            is_after_group: false,
            last_line: 0,
            column: 0,
        })
    }

    // Whether columns are counted.
    #[inline(always)]
    fn is_counting(&self) -> bool {
        self.group_count > 0 || !self.ended.is_empty()
    }

    // A line may end after the last token: so the widths of the groups that wait for that are known.
    #[inline(always)]
    fn may_end_line(&mut self) {
        for _ in 0..self.ended.len() {
            self.note_width();
        }
    }

    // Notes the width of the group that ended last.
    fn note_width(&mut self) {
        let Some(group) = self.ended.pop() else {
            return;
        };
        let width = self.column.saturating_sub(group.start);
        if let Some(slot) = self.slots.get_mut(group.first) {
            slot.width = u8::try_from(width).unwrap_or(BREAKS);
        }
    }

    // Counts the columns of a string that ends here.
    fn count_string(&mut self, end: usize) {
        let text = self.source.get(self.here..end).unwrap_or("");
        if !has_lines(text) {
            self.column = self.column.saturating_add(columns(text));
            return;
        }
        self.column = self.column.saturating_add(QUOTES);
        // a line ends in it
        self.last_line = self.slots.len().saturating_sub(1);
        self.may_end_line();
    }

    // Counts the columns of the last token, which ends where the next element begins.
    #[inline(always)]
    fn count_token(&mut self, end: usize) {
        match self.uncounted {
            Uncounted::Nothing => return,
            Uncounted::Word => self.column = self
                .column
                .saturating_add(end.saturating_sub(self.here)),
            Uncounted::String => self.count_string(end),
        }
        self.uncounted = Uncounted::Nothing;
    }

    // How many line ends were met since the last token or comment.
    fn line_ends(&self) -> u8 {
        self.comments.line_ends(self.source, self.here)
    }

    // What separates a child, which is no comment, from the text before it.
    #[inline(always)]
    fn separator(&self, parent: &Frame, child: SyntaxKind) -> Separator {
        let separator = match parent.previous {
            Some(left) => between(parent.inside, parent.kind, left, child),
            None if self.slots.is_empty() => Separator::Nothing,
            None => Separator::Line,
        };
        match separator {
            Separator::Line | Separator::Comma => {
                self.comments
                    .with_blank(parent, child, separator, self.line_ends())
            }
            other => other,
        }
    }

    // How many levels deep a line is indented that begins with this child.
    #[inline(always)]
    fn level(&self, parent: &Frame, child: SyntaxKind) -> u16 {
        match parent.previous {
            Some(left) if is_in_braces(parent.inside, left) && !closes(child) => {
                parent.level.saturating_add(1)
            }
            _ => parent.level,
        }
    }

    // The slot before a child that is no comment, where a new line would have this level.
    #[inline(always)]
    fn slot(&mut self, parent: &Frame, child: SyntaxKind, level: u16) -> Result<(), AllocError> {
        let mut slot = Slot {
            separator: self.separator(parent, child),
            part: Part::Neither,
            is_after_group: self.is_after_group,
            width: BREAKS,
            level,
        };
        self.is_after_group = false;
        let mut ends_line = slot.separator.is_line();
        if self.comments.last_was_comment() {
            slot = CommentState::slot_after_comment(parent, child, slot);
            ends_line = true;
        }
        if ends_line {
            self.last_line = self.slots.len();
        }
        if self.is_counting() {
            if ends_line || slot.separator.is_soft() {
                self.may_end_line();
            }
            self.column = self.column.saturating_add(slot.separator.width());
        }
        add(&mut self.slots, slot)?;
        Ok(())
    }

    // A comment: in the line of the token before it, or in a line of its own.
    fn comment(&mut self, parent: &Frame) -> Result<(), AllocError> {
        let line_ends = self.line_ends();
        let is_first = self.slots.is_empty();
        let slot = self
            .comments
            .slot_of_comment(parent, is_first, self.is_after_group, line_ends);
        self.is_after_group = false;
        self.last_line = self.slots.len();
        self.may_end_line();
        add(&mut self.slots, slot)?;
        let is_between = match parent.previous {
            Some(left) => is_between_items(parent.inside, left),
            None => true,
        };
        let rest = self.source.get(self.here..).unwrap_or("");
        self.comments
            .meet_comment(rest, is_first || line_ends > 0, is_between);
        Ok(())
    }

    // A token, which is a leaf, or a node of this kind that holds nothing else.
    #[inline(always)]
    fn token(&mut self, kind: SyntaxKind, parent: &mut Frame) -> Result<(), AllocError> {
        if !self.is_pending {
            let level = self.level(parent, kind);
            self.slot(parent, kind, level)?;
        }
        if parent.inside.has_brackets() {
            self.bracket(kind);
        }
        if self.is_left_out(kind, parent) {
            // a comment before it is before the next token
            self.is_pending = false;
            parent.previous = Some(kind);
            return Ok(());
        }
        if self.is_counting() {
            self.uncounted = match kind {
                SyntaxKind::STRING_VALUE | SyntaxKind::DESCRIPTION => Uncounted::String,
                _ => Uncounted::Word,
            };
        }
        self.is_pending = false;
        self.after_brace = kind == SyntaxKind::R_CURLY;
        self.comments.meet_token();
        parent.previous = Some(kind);
        Ok(())
    }

    // Whether the token, which has the last slot, is left out: a sign before the first member, interface or location.
    #[inline(always)]
    fn is_left_out(&mut self, kind: SyntaxKind, parent: &Frame) -> bool {
        if kind != SyntaxKind::PIPE && kind != SyntaxKind::AMP {
            return false;
        }
        let Some(slot) = self.slots.last_mut() else {
            return false;
        };
        if leaves_out_sign(parent.kind, parent.previous) {
            slot.separator = Separator::NoSign;
        }
        matches!(slot.separator, Separator::NoSign)
    }

    // A token of a group between brackets: notes a bracket.
    #[inline(always)]
    fn bracket(&mut self, kind: SyntaxKind) {
        if let Some(slot) = self.slots.last_mut() {
            if opens(kind) {
                slot.part = Part::Open;
            } else if closes(kind) {
                slot.part = Part::Close;
            }
        }
    }

    // Whether an element is a comma or white space, of which nothing but its line ends is kept.
    #[inline(always)]
    fn passes_over(&mut self, element: Met, index: usize) -> bool {
        let is_white = element.kind == SyntaxKind::WHITESPACE;
        if !is_white && element.kind != SyntaxKind::COMMA {
            return false;
        }
        if is_white && index >= self.written_until {
            self.comments.meet_white_space(self.source, element.start);
        }
        true
    }

    // A leaf.
    #[inline(always)]
    fn leaf(
        &mut self,
        kind: SyntaxKind,
        index: usize,
        open: &mut Vec<Frame, A>,
    ) -> Result<(), AllocError> {
        self.leave_before(index, open)?;
        let Some(parent) = open.last_mut() else {
            return Ok(());
        };
        if kind == SyntaxKind::COMMENT {
            return self.comment(parent);
        }
        self.token(kind, parent)
    }

    // A node.
    #[inline(always)]
    fn node(
        &mut self,
        element: Met,
        index: usize,
        open: &mut Vec<Frame, A>,
    ) -> Result<usize, AllocError> {
        self.leave_before(index, open)?;
        let Some(parent) = open.last_mut() else {
            return Ok(element.after);
        };
        let kind = element.kind;
        if self.comments.ignores_next() {
            self.ignored(element, parent)?;
            return Ok(index.saturating_add(1));
        }
        if is_word(kind) {
            self.token(kind, parent)?;
            return Ok(element.after);
        }
        let frame = self.enter(element, parent)?;
        add(open, frame)?;
        Ok(index.saturating_add(1))
    }

    // A node that stays as it is, after a comment that says so.
    fn ignored(&mut self, element: Met, parent: &mut Frame) -> Result<(), AllocError> {
        let level = self.level(parent, element.kind);
        self.slot(parent, element.kind, level)?;
        if let Some(slot) = self.slots.last_mut() {
            slot.part = Part::Written;
        }
        parent.previous = Some(element.kind);
        self.is_pending = true;
        self.written_until = element.after;
        Ok(())
    }

    // An element of an item that stays as it is.
    fn written(&mut self, element: Met) -> Result<(), AllocError> {
        if element.is_node {
            return Ok(());
        }
        if !self.is_pending {
            self.slots.push(Slot::WRITTEN)?;
        }
        self.is_pending = false;
        self.after_brace = element.kind == SyntaxKind::R_CURLY;
        self.comments.meet_token();
        Ok(())
    }

    // A node of this kind, from its parent down.
    #[inline(always)]
    fn enter(&mut self, element: Met, parent: &mut Frame) -> Result<Frame, AllocError> {
        let kind = element.kind;
        let level = self.level(parent, kind);
        let inside = Inside::of(kind);
        if !self.is_pending {
            self.slot(parent, kind, level)?;
            self.is_pending = true;
        }
        let is_beside = matches!(parent.inside, Inside::Document) && self.is_beside(parent);
        let first = self.slots.len().saturating_sub(1);
        if is_beside {
            self.part_definition(first);
        }
        if inside.is_group() {
            self.group_count = self.group_count.saturating_add(1);
            if inside.is_open_ended() {
                self.begin_open_ended(kind, parent.kind);
            }
        }
        self.comments.meet_node();
        parent.previous = Some(kind);
        Ok(Frame {
            after: element.after,
            first,
            start: self.column,
            level,
            kind,
            is_beside,
            inside,
            previous: None,
        })
    }

    // Notes the first token of a group without brackets, which is in a node of this kind.
    fn begin_open_ended(&mut self, kind: SyntaxKind, parent: SyntaxKind) {
        let is_flush = kind == SyntaxKind::DIRECTIVES
            && matches!(
                parent,
                SyntaxKind::OPERATION_DEFINITION | SyntaxKind::FRAGMENT_DEFINITION
            );
        if let Some(slot) = self.slots.last_mut() {
            slot.part = if is_flush {
                Part::FirstFlush
            } else {
                Part::First
            };
        }
    }

    // Whether a definition begins in the line in which the one before it ends.
    fn is_beside(&self, document: &Frame) -> bool {
        document.previous.is_some() && !self.comments.last_was_comment() && self.line_ends() == 0
    }

    // An empty line before a definition in the line of the one before it, where the last token is the closing brace of
    // one of the two.
    fn part_definition(&mut self, first: usize) {
        if !self.after_brace {
            return;
        }
        if let Some(slot) = self.slots.get_mut(first) {
            slot.separator = Separator::BlankLine;
        }
    }

    // Whether a line ends in a group that ends here, or before its first token where that is a part of it.
    fn has_line(&self, group: Frame) -> bool {
        if self.last_line != group.first {
            return self.last_line > group.first;
        }
        match self.slots.get(group.first) {
            Some(slot) => group.inside.is_open_ended() && slot.separator.is_soft(),
            None => false,
        }
    }

    // The end of a group. It breaks at any column where a line ends in it.
    fn leave_group(&mut self, group: Frame) -> Result<(), AllocError> {
        self.group_count = self.group_count.saturating_sub(1);
        self.is_after_group = group.inside.is_open_ended();
        if self.has_line(group) {
            return Ok(());
        }
        self.ended.push(Ended {
            first: group.first,
            start: group.start,
        })?;
        Ok(())
    }

    // The end of the innermost open node.
    #[inline(always)]
    fn leave(&mut self, open: &mut Vec<Frame, A>) -> Result<(), AllocError> {
        self.comments.meet_node();
        if let Some(frame) = open.pop() {
            if frame.inside.is_group() {
                self.leave_group(frame)?;
            } else if frame.is_beside {
                self.part_definition(frame.first);
            }
        }
        Ok(())
    }

    // Leaves the nodes that have ended before the element with an index.
    #[inline(always)]
    fn leave_before(&mut self, index: usize, open: &mut Vec<Frame, A>) -> Result<(), AllocError> {
        for _ in 0..open.len() {
            match open.last() {
                Some(frame) if frame.after <= index => self.leave(open)?,
                _ => break,
            }
        }
        Ok(())
    }

    // An element. Answers the index of the next one.
    #[inline(always)]
    fn element(
        &mut self,
        element: Met,
        index: usize,
        open: &mut Vec<Frame, A>,
    ) -> Result<usize, AllocError> {
        self.here = element.start;
        if index < self.written_until {
            self.written(element)?;
            return Ok(index.saturating_add(1));
        }
        if element.is_node {
            return self.node(element, index, open);
        }
        self.leaf(element.kind, index, open)?;
        Ok(index.saturating_add(1))
    }
}

/// The slots before the significant tokens and the comments of a document, in their order. It fails only where memory
/// is refused.
#[inline(never)]
pub fn slots_of<E: Elements, A: Allocator + Copy>(
    alloc: A,
    source: &str,
    elements: &E,
) -> Result<Vec<Slot, A>, AllocError> {
    let element_count = elements.element_count();
    let mut walk = Walk::new(alloc, source, element_count)?;
    let mut open = Vec::new(alloc);
    open.push(Frame::of_document(element_count))?;
    // no node holds the root, so it is not met
    let mut index = 1;
    for _ in 0..element_count {
        let Some(element) = elements.element(index) else {
            break;
        };
        let element = Met::of(element);
        walk.count_token(element.start);
        index = if walk.passes_over(element, index) {
            index.saturating_add(1)
        } else {
            walk.element(element, index, &mut open)?
        };
    }
    walk.count_token(source.len());
    walk.leave_before(element_count, &mut open)?;
    walk.may_end_line();
    Ok(walk.slots)
}
