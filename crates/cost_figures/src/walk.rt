// The walk over the definitions: each is gone through once, and a fragment is gone through when the first spread of it
// is met.
ghost use Rattle.std.specs.Prelude.{◌≡◌, ◌<◌, ◌+◌, ◌^◌, [], ◌∷◌, ◌++◌, All, map, length, vec_len, slice_set, OnOk};
ghost use Rattle.std.specs.Prelude.{IfOk, IfErr, MatchBool, MatchOption, OnSome};
ghost use Rattle.cost_figures.specs.Expansion.{definition, is_spread};
ghost use Rattle.cost_figures.specs.Outcome.{Explains, ExplainsAny, AreMeasured};
ghost use Rattle.cost_figures.specs.Walks.{IsAt, IsPast, Measured, Sound, Idle, Goes, root};

use crate::figures::Figures;
use crate::items::{Item, Span};
use std::alloc::Allocator;

/// Why there are no figures.
#[derive(Clone, Copy)]
pub enum Fault {
    /// The spread that is here is part of a cycle of fragments.
    Cycle(Span),
    /// The spread that is here names no definition.
    Undefined(Span),
    /// Memory was refused.
    Memory,
}

// How far a definition has been gone through.
#[derive(Clone, Copy)]
enum Mark {
    Untouched,
    Open,
    Done(Figures),
}

// A definition that is being gone through: the number of its next item, and the figures of those before it.
#[derive(Clone, Copy)]
struct Frame {
    definition: usize,
    next: usize,
    figures: Figures,
}

// The definitions that are open: the current one, and those of which each waits at a spread for the next.
#[derive(Drop)]
struct OpenDefinitions<A: Allocator> {
    marks: Vec<Mark, A>,
    waiting: Vec<Frame, A>,
    current: Frame,
}

impl<A: Allocator> OpenDefinitions<A> {
    // Past one item, into a fragment or out of a definition. Whether there is more to do.
    fn step(&mut self, definitions: &[Vec<Item, A>]) -> Result<bool, Fault>
        requires { Sound (map (λ v. v.items) definitions.now) self.old }
        ensures goes { IfOk result (Goes (map (λ v. v.items) definitions.now) self.old self.new) }
        ensures fault { IfErr result (Explains (map (λ v. v.items) definitions.now) (root self.old)) }
    {
        let Some(item) = self.next_item(definitions) else {
            return Ok(self.leave());
        };
        match item {
            Item::Spread(enclosing, fragment, span) => {
                self.spread(definitions, enclosing, fragment, span)
            }
            _ => {
                self.advance(Figures::of(item));
                Ok(true)
            }
        }
    }

    // The next item of the current definition; none at its end.
    fn next_item(&self, definitions: &[Vec<Item, A>]) -> Option<Item>
        requires { Sound (map (λ v. v.items) definitions.now) self.now }
        ensures item { MatchOption result
            (self.now.current.next ≡ length
            (definition (map (λ v. v.items) definitions.now) self.now.current.definition))
            (IsAt (definition (map (λ v. v.items) definitions.now) self.now.current.definition) self.now.current.next) }
        ensures small { OnSome result (self.now.current.next + 1 < 2 ^ 64) }
    {
        let items = &definitions[self.current.definition];
        items.get(self.current.next).copied()
    }

    // Past a spread, or into its fragment.
    fn spread(
        &mut self,
        definitions: &[Vec<Item, A>],
        enclosing: usize,
        fragment: usize,
        span: Span,
    ) -> Result<bool, Fault>
        requires sound { Sound (map (λ v. v.items) definitions.now) self.old }
        requires is_there { IsAt
            (definition (map (λ v. v.items) definitions.now) self.old.current.definition)
            self.old.current.next
            (Item.Spread enclosing fragment span) }
        requires small { self.old.current.next + 1 < 2 ^ 64 }
        ensures goes { IfOk result (Goes (map (λ v. v.items) definitions.now) self.old self.new) }
        ensures fault { IfErr result (Explains (map (λ v. v.items) definitions.now) (root self.old)) }
    {
        if fragment >= definitions.len() {
            return Err(Fault::Undefined(span));
        }
        match self.marks[fragment] {
            Mark::Done(figures) => {
                self.advance(figures.within(enclosing));
                Ok(true)
            }
            Mark::Open => Err(Fault::Cycle(span)),
            Mark::Untouched => {
                self.enter(fragment)?;
                Ok(true)
            }
        }
    }

    // Past one item, which expands to a list with these figures.
    fn advance(&mut self, figures: Figures)
        requires { self.old.current.next + 1 < 2 ^ 64 }
        ensures marks { self.new.marks.items ≡ self.old.marks.items }
        ensures waiting { self.new.waiting.items ≡ self.old.waiting.items }
        ensures current { IsPast self.old.current self.new.current figures }
    {
        self.current = Frame {
            next: self.current.next + 1,
            figures: self.current.figures.plus(figures),
            ..self.current
        };
    }

    // Out of a definition. Whether one waits for it.
    fn leave(&mut self) -> bool
        requires { self.old.current.definition < vec_len self.old.marks }
        ensures marks { self.new.marks.items
            ≡ slice_set self.old.marks.items self.old.current.definition (Mark.Done self.old.current.figures) }
        ensures waiting { MatchBool result
            (self.old.waiting.items ≡ self.new.waiting.items ++ self.new.current ∷ [])
            ((self.old.waiting.items ≡ []) × (self.new.waiting.items ≡ []) × (self.new.current ≡ self.old.current)) }
    {
        self.marks[self.current.definition] = Mark::Done(self.current.figures);
        match self.waiting.pop() {
            Some(frame) => {
                self.current = frame;
                true
            }
            None => false,
        }
    }

    fn enter(&mut self, fragment: usize) -> Result<(), Fault>
        requires { fragment < vec_len self.old.marks }
        ensures marks { OnOk result (self.new.marks.items ≡ slice_set self.old.marks.items fragment Mark.Open) }
        ensures waiting { OnOk result (self.new.waiting.items ≡ self.old.waiting.items ++ self.old.current ∷ []) }
        ensures current { OnOk result
            (self.new.current ≡ record { definition = fragment; next = 0; figures = Figures.NONE }) }
        ensures fault { IfErr result (λ e. e ≡ Fault.Memory) }
    {
        if self.waiting.push(self.current).is_err() {
            return Err(Fault::Memory);
        }
        self.begin(fragment);
        Ok(())
    }

    fn begin(&mut self, definition: usize)
        requires { definition < vec_len self.old.marks }
        ensures marks { self.new.marks.items ≡ slice_set self.old.marks.items definition Mark.Open }
        ensures waiting { self.new.waiting.items ≡ self.old.waiting.items }
        ensures current { self.new.current ≡ record { definition = definition; next = 0; figures = Figures.NONE } }
    {
        self.marks[definition] = Mark::Open;
        self.current = Frame {
            definition,
            next: 0,
            figures: Figures::NONE,
        };
    }

    // The figures of one definition.
    fn measure(&mut self, definitions: &[Vec<Item, A>], root: usize) -> Result<Figures, Fault>
        requires idle { Idle (map (λ v. v.items) definitions.now) self.old }
        requires is_one { root < length definitions.now }
        ensures idle { OnOk result (Idle (map (λ v. v.items) definitions.now) self.new) }
        ensures figures { IfOk result (Measured
            (map (λ v. v.items) definitions.now)
            (definition (map (λ v. v.items) definitions.now) root)) }
        ensures fault { IfErr result (Explains (map (λ v. v.items) definitions.now) root) }
    {
        if let Mark::Done(figures) = self.marks[root] {
            return Ok(figures);
        }
        self.begin(root);
        while self.step(definitions)? {}
        Ok(self.current.figures)
    }
}

/// The figures of the definitions with these numbers, in their order, or why one of them has none.
pub fn measure<A: Allocator + Copy>(
    alloc: A,
    definitions: &[Vec<Item, A>],
    roots: &[usize],
) -> Result<Vec<Figures, A>, Fault>
    requires { All (λ r. r < length definitions.now) roots.now }
    ensures figures { IfOk result (λ v. AreMeasured (map (λ d. d.items) definitions.now) roots.now v.items) }
    ensures fault { IfErr result (ExplainsAny (map (λ d. d.items) definitions.now) roots.now) }
{
    let Ok(marks) = Vec::from_elem(alloc, Mark::Untouched, definitions.len()) else {
        return Err(Fault::Memory);
    };
    let mut walk = OpenDefinitions {
        marks,
        waiting: Vec::new(alloc),
        current: Frame {
            definition: 0,
            next: 0,
            figures: Figures::NONE,
        },
    };
    let mut figures = Vec::new(alloc);
    for root in roots {
        match walk.measure(definitions, *root) {
            Ok(measured) => {
                if figures.push(measured).is_err() {
                    return Err(Fault::Memory);
                }
            }
            Err(fault) => return Err(fault),
        }
    }
    Ok(figures)
}
