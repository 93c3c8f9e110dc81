// Building: leaves and nodes of the tree.
#![tactic(auto, using(parser_rules::specs::Runs::does), unfolding(parser_rules::proofs::runs::Running::steps))]

ghost use Rattle.std.specs.Prelude.{◌≡◌, ◌+◌, ◌<◌, ◌≤◌, ◌^◌, true, false, map, [], length, None, OnOk, IfOk};
ghost use Rattle.lexical_grammar.specs.declared.TokenKind.TheVariants as token;
ghost use Rattle.document_grammar.specs.declared.kind.SyntaxKind.TheVariants as kind;
ghost use Rattle.document_grammar.specs.Forests.{none, leaf as leaf_of};
ghost use Rattle.document_grammar.specs.Builds.{built_count, built_text};
ghost use Rattle.apollo_tree.specs.Sound.{Fits};
ghost use Rattle.parser_rules.specs.State as state;
ghost use Rattle.parser_rules.specs.Nodes.{Name, IntValue, StringValue, BooleanValue};
ghost use Rattle.parser_rules.specs.RuleLanguage.{Here, At, holds, Bump, Do, Child};
ghost use Rattle.parser_rules.specs.Runs.{Runs};
ghost use Rattle.parser_rules.specs.Open.{is_free, IsOpen, IsCheckpoint};
ghost use Rattle.parser_rules.specs.Rules as rules;
ghost use Rattle.parser_rules.specs.Fragments as fragments;
ghost use Rattle.parser_state.specs.Lengths.{pending_length, text_length};
ghost use Rattle.parser_state.specs.Reading as reading;
ghost use Rattle.parser_state.specs.View.{pending_of};
ghost use Rattle.parser_state.specs.Parses.{Parses};

use super::{ParserState, PendingToken};
use apollo_tree::{Checkpoint, SpanBuilder};
use document_grammar::SyntaxKind;
use lexical_grammar::TokenKind;
use std::alloc::{AllocError, Allocator};

pub(super) fn push_all<A: Allocator + Copy>(
    builder: &mut SpanBuilder<A>,
    pending: &[PendingToken<'_>],
) -> Result<(), AllocError>
    requires { length (built_text builder.old) + pending_length (map pending_of pending.now) < 2 ^ 64 }
    ensures ok { OnOk result (builder.new ≡ state.add_all (map pending_of pending.now) builder.old) }
    ensures len { length (built_text builder.new)
        ≤ length (built_text builder.old) + pending_length (map pending_of pending.now) }
{
    for token in pending {
        builder.token(token.kind, token.text)?;
    }
    Ok(())
}

impl<'i, A: Allocator + Copy> ParserState<'i, A> {
    /// What waits goes into the tree.
    #[inline(always)]
    pub fn push_pending(&mut self) -> Result<(), AllocError>
        ensures step { OnOk result (self.new ≡ state.flush self.old) }
        ensures budget { self.new.budget ≡ self.old.budget }
    {
        if self.pending.is_empty() {
            return Ok(());
        }
        self.push_waiting()
    }

    // Mostly one token waits: a blank.
    #[inline(never)]
    fn push_waiting(&mut self) -> Result<(), AllocError>
        ensures step { OnOk result (self.new ≡ state.flush self.old) }
        ensures budget { self.new.budget ≡ self.old.budget }
    {
        if let [token] = self.pending.as_slice() {
            let token = *token;
            self.pending.clear();
            self.builder.token(token.kind, token.text)?;
            return Ok(());
        }
        self.push_several()
    }

    #[inline(never)]
    fn push_several(&mut self) -> Result<(), AllocError>
        ensures step { OnOk result (self.new ≡ state.flush self.old) }
        ensures budget { self.new.budget ≡ self.old.budget }
    {
        // Also where memory is refused, nothing waits any more: else what was taken in would count twice.
        let pushed = push_all(&mut self.builder, &self.pending);
        self.pending.clear();
        pushed
    }

    /// What waits is left out.
    pub fn drop_pending(&mut self)
        ensures step { self.new ≡ fragments.left_out self.old }
        ensures budget { self.new.budget ≡ self.old.budget }
    {
        self.pending.clear();
    }

    /// Opens a node, after the pending tokens.
    pub fn start_node(&mut self, kind: SyntaxKind) -> Result<(), AllocError>
        ensures step { OnOk result (self.new ≡ state.opened kind self.old) }
        ensures budget { self.new.budget ≡ self.old.budget }
    {
        self.push_pending()?;
        self.builder.start_node(kind)?;
        Ok(())
    }

    /// Closes the innermost node.
    pub fn finish_node(&mut self)
        requires { IsOpen self.old.tree }
        ensures step { self.new ≡ state.closed self.old }
        ensures budget { self.new.budget ≡ self.old.budget }
    {
        self.builder.finish_node();
    }

    // The text of the current token becomes a leaf, and no token is current any more.
    fn push_token(&mut self, kind: SyntaxKind, text: &'i str) -> Result<(), AllocError>
        requires { length text.now + text_length self.old.tree self.old.pending None self.old.items < 2 ^ 64 }
        ensures step { OnOk result (self.new ≡ reading.added kind text.now self.old) }
        ensures budget { self.new.budget ≡ self.old.budget }
    {
        self.builder.token(kind, text)?;
        self.current_token = None;
        Ok(())
    }

    /// The current token becomes a leaf of the kind.
    pub fn bump(&mut self, kind: SyntaxKind) -> Result<(), AllocError>
        ensures { Parses (Do (Bump kind)) result self.old self.new }
    {
        let Some(current) = self.current_token else {
            return Ok(());
        };
        self.push_pending()?;
        self.push_token(kind, current.data())?;
        self.read_on()
    }

    /// Opens a node, after the pending tokens, and the current token becomes its first leaf.
    pub fn start_node_with(&mut self, kind: SyntaxKind, leaf: SyntaxKind) -> Result<(), AllocError>
        ensures runs { OnOk result (Runs (Do (Bump leaf)) (state.opened kind self.old) self.new) }
        ensures budget { self.new.budget ≡ self.old.budget }
    {
        self.start_node(kind)?;
        self.bump(leaf)
    }

    // The text of the current token becomes a node of one leaf, and no token is current any more.
    fn push_leaf_node(
        &mut self,
        node: SyntaxKind,
        leaf: SyntaxKind,
        text: &'i str,
    ) -> Result<(), AllocError>
        requires leaf { Fits node (leaf_of leaf text.now none) }
        requires len { length text.now + text_length self.old.tree self.old.pending None self.old.items < 2 ^ 64 }
        ensures step { OnOk result (self.new ≡ reading.leaf_node node leaf text.now self.old) }
        ensures budget { self.new.budget ≡ self.old.budget }
    {
        self.builder.leaf_node(node, leaf, text)?;
        self.current_token = None;
        Ok(())
    }

    // The current token becomes a node of one leaf.
    fn leaf_node(&mut self, node: SyntaxKind, leaf: SyntaxKind) -> Result<(), AllocError>
        requires { true ≡ reading.is_leaf_of node leaf self.old.current }
        ensures step { OnOk result (self.new ≡ state.closed (state.bump leaf (state.opened node self.old))) }
        ensures budget { self.new.budget ≡ self.old.budget }
    {
        let Some(token) = self.current_token else {
            return Ok(());
        };
        self.push_pending()?;
        self.push_leaf_node(node, leaf, token.data())?;
        self.read_on()
    }

    /// The current token, which is a name, becomes a node.
    #[tactic(auto, using(parser_rules::proofs::runs::Forms::leaf_run), unfolding(parser_rules::specs::Rules::inside, parser_rules::specs::RuleLanguage::holds))]
    pub fn name(&mut self) -> Result<(), AllocError>
        requires { true ≡ holds (At token.Name) self.old }
        ensures { Parses (Child Name) result self.old self.new }
    {
        self.leaf_node(SyntaxKind::NAME, SyntaxKind::IDENT)?;
        Ok(())
    }

    /// The current token, which is an integer, becomes a node.
    #[tactic(auto, using(parser_rules::proofs::runs::Forms::leaf_run), unfolding(parser_rules::specs::Rules::inside, parser_rules::specs::RuleLanguage::holds))]
    pub fn int_value(&mut self) -> Result<(), AllocError>
        requires { true ≡ holds (At token.Int) self.old }
        ensures { Parses (Child IntValue) result self.old self.new }
    {
        self.leaf_node(SyntaxKind::INT_VALUE, SyntaxKind::INT)?;
        Ok(())
    }

    /// The current token, which is a string, becomes a node.
    #[tactic(auto, using(parser_rules::proofs::runs::Forms::leaf_run), unfolding(parser_rules::specs::Rules::inside, parser_rules::specs::RuleLanguage::holds))]
    pub fn string_value(&mut self) -> Result<(), AllocError>
        requires { true ≡ holds (At token.StringValue) self.old }
        ensures { Parses (Child StringValue) result self.old self.new }
    {
        self.leaf_node(SyntaxKind::STRING_VALUE, SyntaxKind::STRING)?;
        Ok(())
    }

    /// The current token, which is `true` or `false`, becomes a node.
    pub fn boolean_value(&mut self) -> Result<(), AllocError>
        requires { true ≡ holds (Here rules.boolean) self.old }
        ensures { Parses (Child BooleanValue) result self.old self.new }
    {
        if self.at_word(SyntaxKind::true_KW) {
            self.leaf_node(SyntaxKind::BOOLEAN_VALUE, SyntaxKind::true_KW)?;
        } else {
            self.leaf_node(SyntaxKind::BOOLEAN_VALUE, SyntaxKind::false_KW)?;
        }
        Ok(())
    }

    /// A checkpoint in the open node, after the pending tokens, for a later `wrap`.
    pub fn checkpoint(&mut self) -> Result<Checkpoint, AllocError>
        ensures flushed { OnOk result (self.new ≡ state.flush self.old) }
        ensures index { IfOk result (λ c. c.index ≡ built_count self.new.tree) }
        ensures budget { self.new.budget ≡ self.old.budget }
    {
        self.push_pending()?;
        Ok(self.builder.checkpoint())
    }

    /// Opens a node around what was added to the open one since the checkpoint.
    pub fn wrap(&mut self, checkpoint: Checkpoint, kind: SyntaxKind) -> Result<(), AllocError>
        requires { IsCheckpoint checkpoint.index self.old.tree }
        ensures step { OnOk result (self.new ≡ state.wrapped_from checkpoint.index kind self.old) }
        ensures budget { self.new.budget ≡ self.old.budget }
    {
        self.builder.wrap(checkpoint, kind)?;
        Ok(())
    }

    /// Opens the root around all that is built: a type of the kind, or where `!` comes next a NON_NULL_TYPE around the
    /// type, which begins at the checkpoint, and the `!`.
    #[tactic(auto, using(parser_rules::specs::Fragments::nullable, parser_rules::specs::Fragments::non_null))]
    pub fn close_type(
        &mut self,
        first: Checkpoint,
        checkpoint: Checkpoint,
        kind: SyntaxKind,
    ) -> Result<(), AllocError>
        requires first { first.index ≡ 0 }
        requires not_open { self.old.tree.above ≡ [] }
        requires checkpoint { IsCheckpoint checkpoint.index self.old.tree }
        requires free { is_free kind ≡ true }
        ensures step { OnOk result (fragments.ClosesType checkpoint.index kind self.old self.new) }
        ensures budget { self.new.budget ≡ self.old.budget }
    {
        if !self.at(TokenKind::Bang) {
            return self.wrap(first, kind);
        }
        self.wrap(checkpoint, kind)?;
        self.finish_node();
        self.bump(SyntaxKind::BANG)?;
        self.wrap(first, SyntaxKind::NON_NULL_TYPE)
    }
}
