//! Places in the order in which they were asked for.
use std::alloc::Global;

// The most places that are kept, 32 MB of them.
const MAX_PLACES: usize = 1 << 23;

/// Where the names stood that a walk asked for, one after another. The next walk over the same lines asks for the same names
/// in the same order, so each is looked for there first. No contract rests on it.
#[derive(Drop)]
pub struct Order {
    places: Vec<u32>,
    next: usize,
}

// A place as it is kept. There are far fewer names than 2^32.
fn kept(place: usize) -> u32 {
    match u32::try_from(place) {
        Ok(place) => place,
        Err(_) => 0,
    }
}

impl Order {
    /// Nothing was asked for. It takes no memory.
    pub fn new(alloc: Global) -> Order {
        Order {
            places: Vec::new(alloc),
            next: 0,
        }
    }

    /// Before the next walk.
    pub fn rewind(&mut self) {
        self.next = 0;
    }

    /// Where the next name stood, or past all places.
    pub fn hint(&self) -> usize {
        match self.places.get(self.next) {
            Some(place) => *place as usize,
            None => usize::MAX,
        }
    }

    /// The next name stands where it stood.
    pub fn pass(&mut self) {
        self.next = self.next.wrapping_add(1);
    }

    /// The next name stands at this place, which is forgotten where there is no memory or enough is kept.
    pub fn put(&mut self, place: usize) {
        if self.next < self.places.len() {
            self.places[self.next] = kept(place);
        } else if self.places.len() < MAX_PLACES {
            let _is_kept = self.places.push(kept(place)).is_ok();
        }
        self.pass();
    }
}
