// Which lines of a text differ from those of another.
ghost use Rattle.std.specs.Prelude.{◌≤◌, ◌<◌, ◌+◌, ◌-◌, length, IfSome};

use std::alloc::{AllocError, Allocator};

/// Lines of the old text and the lines of the new one in their place, each as a range of indices.
#[derive(Clone, Copy)]
pub struct Edit {
    pub old_start: usize,
    pub old_end: usize,
    pub new_start: usize,
    pub new_end: usize,
}

// How many lines ahead a line of one text is looked for in the other.
const WINDOW: usize = 64;

// How many lines both begin with.
fn common_front(old: &[&str], new: &[&str]) -> usize
    ensures old { result ≤ length old.now }
    ensures new { result ≤ length new.now }
{
    let end = old.len().min(new.len());
    for i in 0..end {
        if old[i] != new[i] {
            return i;
        }
    }
    end
}

// A line by which two texts are matched: one that says more than a bracket.
fn is_anchor(line: &str) -> bool {
    line.trim().len() > 2
}

// The index of a line of the old text that is the one of the new text this many lines further in all.
fn match_at(old: &[&str], new: &[&str], distance: usize) -> Option<usize>
    ensures { IfSome result
        (λ removed. (removed < length old.now) × (distance - removed < length new.now) × (removed ≤ distance)) }
{
    for removed in 0..=distance {
        if let (Some(a), Some(b)) = (old.get(removed), new.get(distance - removed))
            && a == b
            && is_anchor(a)
        {
            return Some(removed);
        }
    }
    None
}

// How many lines of each text come before the first that they have in common: all within the window where there is
// none.
fn gap(old: &[&str], new: &[&str]) -> (usize, usize)
    requires { 0 < length old.now + length new.now }
    ensures old { result.0 ≤ length old.now }
    ensures new { result.1 ≤ length new.now }
    ensures some { 0 < result.0 + result.1 }
{
    for distance in 1..WINDOW {
        if let Some(removed) = match_at(old, new, distance) {
            return (removed, distance - removed);
        }
    }
    (old.len().min(WINDOW), new.len().min(WINDOW))
}

// Without the lines that both end with.
fn without_common_end(old: &[&str], new: &[&str]) -> (usize, usize)
    requires { 0 < length old.now + length new.now }
    ensures old { result.0 ≤ length old.now }
    ensures new { result.1 ≤ length new.now }
    ensures some { 0 < result.0 + result.1 }
{
    let (mut removed, mut added) = (old.len(), new.len());
    while removed > 0 && added > 0 && removed + added > 2 && old[removed - 1] == new[added - 1] {
        removed -= 1;
        added -= 1;
    }
    (removed, added)
}

// What comes next in both texts: how many lines that they have in common, and how many lines of each in the edit after
// them.
#[derive(Clone, Copy)]
struct Step {
    same: usize,
    removed: usize,
    added: usize,
}

fn next_step(old: &[&str], new: &[&str]) -> Step
    requires { 0 < length old.now + length new.now }
    ensures old { result.same + result.removed ≤ length old.now }
    ensures new { result.same + result.added ≤ length new.now }
    ensures some { 0 < result.same + result.removed + result.added }
{
    let same = common_front(old, new);
    let (old, new) = (&old[same..], &new[same..]);
    if old.is_empty() && new.is_empty() {
        return Step {
            same,
            removed: 0,
            added: 0,
        };
    }
    let (far_old, far_new) = gap(old, new);
    let (removed, added) = without_common_end(&old[..far_old], &new[..far_new]);
    Step {
        same,
        removed,
        added,
    }
}

/// The edits that make the old lines the new ones, in order. Each line is compared a bounded number of times.
pub fn edits<A: Allocator>(
    alloc: A,
    old: &[&str],
    new: &[&str],
) -> Result<Vec<Edit, A>, AllocError> {
    let mut edits = Vec::new(alloc);
    let (mut i, mut j) = (0, 0);
    while i < old.len() || j < new.len() {
        let Step {
            same,
            removed,
            added,
        } = next_step(&old[i..], &new[j..]);
        let edit = Edit {
            old_start: i + same,
            old_end: i + same + removed,
            new_start: j + same,
            new_end: j + same + added,
        };
        i = edit.old_end;
        j = edit.new_end;
        if removed > 0 || added > 0 {
            edits.push(edit)?;
        }
    }
    Ok(edits)
}
