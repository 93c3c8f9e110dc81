// Comments, and the line ends before them and before tokens, on the walk over the tree of a document.
use crate::rules::{goes_on, is_inside_construct, keeps_blank, keeps_blank_before_comment};
use crate::slot::{BREAKS, Part, Separator, Slot};
use crate::walk::Frame;
use document_grammar::SyntaxKind;

/// What was met since the last token: white space, and comments.
#[derive(Clone, Copy)]
pub struct CommentState {
    // where the last white space since the last token or comment begins, and how many line ends were in the white space
    // before it, two at most
    blank: Option<usize>,
    seen_line_ends: u8,
    // whether the last token or comment was a comment
    last_was_comment: bool,
    // whether the last child of the innermost open node was a comment in a line of its own
    last_child_was_comment: bool,
    // whether such a comment says that the item that comes next stays as it is
    ignores_next: bool,
}

// Whether a comment, with which this text begins, says that the item after it stays as it is.
fn is_ignore_comment(text: &str) -> bool {
    let comment = text.split(['\n', '\r']).next().unwrap_or("");
    matches!(
        comment.trim_start_matches('#').trim(),
        "gqlfmt-ignore" | "prettier-ignore"
    )
}

// How many line ends a text has, LF, CR and CR LF, two at most.
fn count_line_ends(text: &[u8]) -> u8 {
    let mut count = 0;
    let mut after_return = false;
    for byte in text {
        let is_return = *byte == b'\r';
        if (is_return || (*byte == b'\n' && !after_return)) && count < 2 {
            count += 1;
        }
        after_return = is_return;
    }
    count
}

impl CommentState {
    /// Nothing was met.
    pub const NONE: CommentState = CommentState {
        blank: None,
        seen_line_ends: 0,
        last_was_comment: false,
        last_child_was_comment: false,
        ignores_next: false,
    };

    /// How many line ends were met up to a place of the text since the last token or comment, two at most: the most
    /// that are not parted by commas.
    pub fn line_ends(&self, source: &str, here: usize) -> u8 {
        let Some(start) = self.blank else {
            return 0;
        };
        match source.as_bytes().get(start..here) {
            Some(blanks) => self.seen_line_ends.max(count_line_ends(blanks)),
            None => self.seen_line_ends,
        }
    }

    /// White space begins here.
    #[inline(always)]
    pub fn meet_white_space(&mut self, source: &str, here: usize) {
        if self.blank.is_some() {
            self.seen_line_ends = self.line_ends(source, here);
        }
        self.blank = Some(here);
    }

    /// A token was met.
    #[inline(always)]
    pub fn meet_token(&mut self) {
        *self = CommentState::NONE;
    }

    /// A node begins or ends.
    #[inline(always)]
    pub fn meet_node(&mut self) {
        self.last_child_was_comment = false;
    }

    /// A comment was met, with which this text begins. It is in a line of its own or not, and between items or not.
    pub fn meet_comment(&mut self, text: &str, in_own_line: bool, is_between_items: bool) {
        self.blank = None;
        self.seen_line_ends = 0;
        self.last_was_comment = true;
        self.last_child_was_comment = in_own_line;
        let ignores_next = in_own_line && is_between_items && is_ignore_comment(text);
        self.ignores_next = self.ignores_next || ignores_next;
    }

    /// Whether the last token or comment was a comment.
    #[inline(always)]
    pub fn last_was_comment(&self) -> bool {
        self.last_was_comment
    }

    /// Whether the item that comes next stays as it is.
    #[inline(always)]
    pub fn ignores_next(&self) -> bool {
        self.ignores_next
    }

    /// The separator before a child that is no comment, with an empty line where the source has some and one of them
    /// stays.
    #[inline(always)]
    pub fn with_blank(
        &self,
        parent: &Frame,
        child: SyntaxKind,
        separator: Separator,
        line_ends: u8,
    ) -> Separator {
        let is_after_comment = self.last_child_was_comment;
        if line_ends > 1 && keeps_blank(parent.inside, parent.previous, child, is_after_comment) {
            separator.with_blank()
        } else {
            separator
        }
    }

    /// The slot before a child of a node that is no comment, after a comment: a line ends there, and a construct goes
    /// on in a line of its own.
    pub fn slot_after_comment(parent: &Frame, child: SyntaxKind, slot: Slot) -> Slot {
        if slot.separator.is_line()
            || slot.separator.is_soft()
            || matches!(slot.separator, Separator::NoSign)
        {
            return slot;
        }
        if parent.inside.has_brackets() {
            // brackets with nothing but comments between them
            return Slot {
                separator: Separator::SoftNothing,
                ..slot
            };
        }
        let deeper = u16::from(goes_on(parent.inside, child));
        Slot {
            separator: Separator::Line,
            level: slot.level.saturating_add(deeper),
            ..slot
        }
    }

    // What separates a comment from the text before it: it stays in the line of the token before it, or has a line of
    // its own.
    fn separator_of_comment(&self, parent: &Frame, is_first: bool, line_ends: u8) -> Separator {
        if is_first {
            return Separator::Nothing;
        }
        let is_after_comment = self.last_child_was_comment;
        match line_ends {
            0 => Separator::Space,
            1 => Separator::Line,
            _ if keeps_blank_before_comment(parent.inside, parent.previous, is_after_comment) => {
                Separator::BlankLine
            }
            _ => Separator::Line,
        }
    }

    /// The slot before a comment that is a child of a node: in the line of the token before it, or in a line of its
    /// own.
    pub fn slot_of_comment(
        &self,
        parent: &Frame,
        is_first: bool,
        is_after_group: bool,
        line_ends: u8,
    ) -> Slot {
        let deeper = u16::from(is_inside_construct(parent.inside, parent.previous));
        Slot {
            separator: self.separator_of_comment(parent, is_first, line_ends),
            part: Part::Neither,
            is_after_group,
            width: BREAKS,
            level: parent.level.saturating_add(deeper),
        }
    }
}
