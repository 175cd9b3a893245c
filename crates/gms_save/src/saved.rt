//! What is restored from a save.
use gms_ast::Program;
use gms_store::Store;
use gq_frac::Frac;

/// What is restored from a save: a source, its program, and a state of the program.
///
/// The settings of the state have the index of the save's solver in the list of solvers of the run
/// that resumes from the save.
pub struct Saved {
    /// The source in the save, byte for byte.
    pub source: Vec<u8>,
    /// The program of the saved source.
    pub program: Program<Frac>,
    /// The saved state. Its settings have the index of the save's solver in the list of solvers of
    /// the run that resumes from the save.
    pub store: Store<Frac>,
}

// Written out, so that it is proved once, and not wherever a restored state is dropped.
impl Drop for Saved {
    fn drop(self) {
        let Self {
            source: _,
            program: _,
            store: _,
        } = self;
    }
}
