//! How far a run has come.
use gms_event::Event;
use gms_store::Store;
use gq_frac::Frac;
use lp_core::Answer;

/// How far the run of a program has come: its state, answers and events so far.
pub struct Progress {
    /// The state that the run has reached: the data of all names and the settings.
    pub store: Store<Frac>,
    /// The answers of the solves that the run has executed, in the order of the solves.
    pub answers: Vec<Answer<Frac>>,
    /// The events that the run has shown so far, in order.
    pub events: Vec<Event<Frac>>,
}

// Written out, so that it is proved once, and not wherever a run is dropped.
impl Drop for Progress {
    fn drop(self) {
        let Self {
            store: _,
            answers: _,
            events: _,
        } = self;
    }
}
