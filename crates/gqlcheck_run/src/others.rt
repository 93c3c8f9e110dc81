// Places in other texts.
use crate::inputs::Input;
use document_checks::OtherPlace;
use std::alloc::Allocator;

/// All texts of a run, with the number of the one that a report is about, and the memory in which reports are made.
#[derive(Drop)]
pub struct Others<'i, A: Allocator> {
    pub alloc: A,
    pub inputs: &'i [Input<A>],
    /// The number of the one that the report is about, from 0.
    pub here: usize,
}

impl<'i, A: Allocator> Others<'i, A> {
    /// The text that a place is in, if that is another one.
    pub fn elsewhere(&self, place: OtherPlace) -> Option<&'i Input<A>> {
        if place.text == self.here {
            return None;
        }
        self.inputs.get(place.text)
    }
}
