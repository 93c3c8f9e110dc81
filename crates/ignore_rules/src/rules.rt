// What the rules of ignore files leave out.
ghost use Rattle.std.specs.Prelude.{◌≡◌, ◌<◌, ◌++◌, [], IfOk, OnOk, false, length};
ghost use Rattle.ignore_rules.specs.Lines.{as_rule, rules_in};
ghost use Rattle.ignore_rules.specs.Ignored.{as_rules, decided, ignores, is_about, is_below};
ghost use Rattle.ignore_rules.specs.Tables.{IsClear};

use crate::fit_table::fit;
use crate::lines::{Rule, rule_of};
use crate::parts::{SLASH, cut};
use crate::paths::{before_names, inner_path};
use std::alloc::{AllocError, Allocator};

/// The rules of ignore files, in order. A rule decides before those above it.
#[derive(Drop)]
pub struct Rules<A: Allocator> {
    alloc: A,
    rules: Vec<Rule<A>, A>,
}

// Whether a rule is about this path, of a folder or not.
fn is_about<A: Allocator>(table: &mut [bool], rule: &Rule<A>, path: &[u8], is_folder: bool) -> bool
    requires room { length path.now < length table.old }
    requires clear { IsClear table.old }
    ensures value { result ≡ is_about is_folder path.now (as_rule rule.now) }
    ensures clear { IsClear table.new }
{
    if rule.folders_only && !is_folder {
        return false;
    }
    fit(table, rule.signs.as_slice(), path)
}

impl<A: Allocator + Copy> Rules<A> {
    /// No rules.
    pub fn new(alloc: A) -> Rules<A>
        ensures { as_rules result ≡ [] }
    {
        Rules {
            alloc,
            rules: Vec::new(alloc),
        }
    }

    /// Adds the rules of an ignore file in a folder, by the path of the folder from the root on and the text of the
    /// file. Lines end with a line feed, and maybe a carriage return before it.
    pub fn add(&mut self, folder: &str, text: &[u8]) -> Result<(), AllocError>
        ensures { OnOk result (as_rules self.new ≡ as_rules self.old ++ rules_in folder.now text.now) }
    {
        let before = before_names(self.alloc, folder.as_bytes())?;
        let mut rest = Some(text);
        while let Some(left) = rest {
            let (line, more) = cut(left, b'\n');
            if let Some(rule) = rule_of(self.alloc, before.as_slice(), line)? {
                self.rules.push(rule)?;
            }
            rest = more;
        }
        Ok(())
    }

    // The last rule about a path decides. The table is a clear one with more places than the path.
    fn decide(&self, table: &mut [bool], path: &[u8], is_folder: bool) -> bool
        requires room { length path.now < length table.old }
        requires clear { IsClear table.old }
        ensures value { result ≡ decided is_folder path.now false (as_rules self.now) }
        ensures clear { IsClear table.new }
    {
        let mut ignored = false;
        for rule in &self.rules {
            if is_about(table, rule, path, is_folder) {
                ignored = !rule.keeps;
            }
        }
        ignored
    }

    // Whether one of the folders above a path is left out.
    fn is_below(&self, table: &mut [bool], path: &[u8]) -> bool
        requires room { length path.now < length table.old }
        requires clear { IsClear table.old }
        ensures value { result ≡ is_below (as_rules self.now) [] path.now }
        ensures clear { IsClear table.new }
    {
        for (index, byte) in path.iter().enumerate() {
            if *byte == SLASH && self.decide(table, &path[..index], true) {
                return true;
            }
        }
        false
    }

    /// Whether the rules leave out the file or the folder at a path from the root on, or a folder above it. One with a
    /// name `..`, or the root, is not left out.
    pub fn ignore(&self, path: &str, is_folder: bool) -> Result<bool, AllocError>
        ensures { IfOk result (λ it. it ≡ ignores (as_rules self.now) path.now is_folder) }
    {
        let Some(inner) = inner_path(self.alloc, path.as_bytes())? else {
            return Ok(false);
        };
        let mut table = vec![in self.alloc; false; inner.len()]?;
        table.push(false)?;
        let is_left_out = self.is_below(table.as_mut_slice(), inner.as_slice())
            || self.decide(table.as_mut_slice(), inner.as_slice(), is_folder);
        Ok(is_left_out)
    }
}
