// Nesting: the recursion limit.
#![tactic(auto, using(parser_rules::specs::Runs::does), unfolding(parser_rules::proofs::runs::Running::steps))]

ghost use Rattle.std.specs.Prelude.{◌≡◌, ◌<◌, false, OnOk};
ghost use Rattle.parser_rules.specs.State as state;
ghost use Rattle.parser_rules.specs.Open.{IsInside};

use super::ParserState;
use crate::borrowed_error::BorrowedError;
use std::alloc::{AllocError, Allocator};

impl<'i, A: Allocator + Copy> ParserState<'i, A> {
    /// Whether one level more is above the recursion limit.
    pub fn is_too_deep(&self) -> bool
        ensures { result ≡ state.is_deep self.now }
    {
        self.recursion_limit.limit <= self.recursion_limit.current()
    }

    /// Enters a level of nesting.
    pub fn enter(&mut self)
        requires { false ≡ state.is_deep self.old }
        ensures step { self.new ≡ state.enter self.old }
        ensures budget { self.new.budget ≡ self.old.budget }
    {
        let tracker = &mut self.recursion_limit;
        if tracker.current() < tracker.limit {
            tracker.check_and_increment();
        }
    }

    /// Leaves a level of nesting.
    pub fn leave(&mut self)
        requires { IsInside self.old }
        ensures step { self.new ≡ state.leave self.old }
        ensures budget { self.new.budget ≡ self.old.budget }
    {
        self.recursion_limit.decrement();
    }

    fn limit_err(&mut self) -> Result<(), AllocError>
        ensures step { OnOk result (self.new ≡ state.limited_at self.old self.old.current) }
        ensures budget { self.new.budget ≡ self.old.budget }
    {
        if let Some(token) = self.current_token {
            self.push_error(BorrowedError::RecursionLimit(token))?;
            self.accept_errors = false;
        }
        Ok(())
    }

    /// Reports that one level more is above the recursion limit.
    pub fn too_deep(&mut self) -> Result<(), AllocError>
        ensures step { OnOk result (self.new ≡ state.too_deep self.old) }
        ensures budget { self.new.budget ≡ self.old.budget }
    {
        let asked = self.recursion_limit.current().saturating_add(1);
        self.recursion_limit.high = self.recursion_limit.high.max(asked);
        self.limit_err()
    }
}
