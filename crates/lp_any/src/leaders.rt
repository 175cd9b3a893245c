//! A list of the variables with the greatest coefficients.
use crate::size::Size;

/// The greatest number of variables in such a list.
pub(crate) const MOST: usize = 128;

/// A variable, and the size of its coefficient.
#[derive(Clone, Copy)]
pub(crate) struct Leader {
    pub(crate) variable: u32,
    pub(crate) gain: Size,
}

/// The variables with the greatest coefficients of those that were added, and of equal ones those
/// with the smaller number. The greatest of all is at position 0.
#[derive(Drop)]
pub(crate) struct Leaders {
    list: [Leader; MOST],
    /// How many variables the list has.
    count: usize,
    /// How many variables the list may have.
    within_bound: usize,
    /// When the list is full, the position of the variable with the least coefficient, and of equal
    /// ones of that with the greatest number.
    last: usize,
}

impl Leaders {
    /// An empty list that holds at most `within_bound` variables.
    pub(crate) fn new(within_bound: usize) -> Leaders {
        let none = Leader {
            variable: 0,
            gain: Size::of(0),
        };
        Leaders {
            list: [none; MOST],
            count: 0,
            within_bound: within_bound.min(MOST),
            last: 0,
        }
    }

    /// The variable at this position of the list; `None` past the end.
    pub(crate) fn at(&self, place: usize) -> Option<Leader> {
        if place < self.count && place < MOST {
            Some(self.list[place])
        } else {
            None
        }
    }

    /// Whether the first comes after the second: its coefficient is less, or equal and its variable
    /// greater.
    fn is_after(first: Leader, second: Leader) -> bool {
        let order = first.gain.compare(second.gain);
        order.is_lt() || (order.is_eq() && first.variable > second.variable)
    }

    /// Finds the place of the last one.
    fn find_last(&mut self) {
        let mut last = 0;
        for place in 1..self.count.min(MOST) {
            if Leaders::is_after(self.list[place], self.list[last]) {
                last = place;
            }
        }
        self.last = last;
    }

    /// Puts a variable at place 0 if its coefficient is the greatest so far. It returns the
    /// variable that still has to be added: the one that was there, or the same.
    fn exchanged(&mut self, other: Leader) -> Leader {
        let first = self.list[0];
        if self.count == 0 || !Leaders::is_after(first, other) {
            return other;
        }
        self.list[0] = other;
        first
    }

    /// Adds a variable whose number is greater than those added before. If the list is full, the
    /// variable replaces the last one, provided that its coefficient is greater.
    pub(crate) fn add(&mut self, other: Leader) {
        let other = self.exchanged(other);
        if self.count < self.within_bound && self.count < MOST {
            self.list[self.count] = other;
            self.count += 1;
            if self.count == self.within_bound {
                self.find_last();
            }
            return;
        }
        if self.last < MOST && Leaders::is_after(self.list[self.last], other) {
            self.list[self.last] = other;
            self.find_last();
        }
    }
}
