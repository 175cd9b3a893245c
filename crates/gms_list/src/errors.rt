//! Errors of a source.
ghost use Rattle.gms_fmt.specs.Columns.{Appends};
ghost use Rattle.gms_list.specs.ListingText.{save_error_text, source_error_text, compile_error_text, compile_errors_text};

use crate::listing::Listing;
use gms_check::CompileError;
use gms_labels::Place;
use gms_parse::SourceFault;
use std::alloc::{AllocError, Global};

impl Listing {
    /// Appends one line: the fault `f` for which a source is no program, by its number, its name
    /// and its place.
    pub fn source_fault(&mut self, alloc: Global, f: &SourceFault) -> Result<(), AllocError>
        ensures { Appends result self.old self.new (source_error_text f.now) }
    {
        let code = f.error.code();
        let name = f.error.name();
        let row = f.at.line;
        let column = f.at.column;
        let line = format!(in alloc;
            "*** Source error {code} {name} at line {row} column {column}\n"
        )?;
        self.push(line.as_str())
    }

    /// Appends one line: the fault for which a save cannot be restored. The fault has the number
    /// `code`, the name `name` and the place `at`.
    pub fn save_fault(
        &mut self,
        alloc: Global,
        code: u8,
        name: &str,
        at: Place,
    ) -> Result<(), AllocError>
        ensures { Appends result self.old self.new (save_error_text code name.now at) }
    {
        let row = at.line;
        let column = at.column;
        let line = format!(in alloc;
            "*** Source error {code} {name} at line {row} column {column}\n"
        )?;
        self.push(line.as_str())
    }

    /// Appends a line for each of these compile errors of a program, in order.
    pub fn errors(&mut self, alloc: Global, e: &[CompileError]) -> Result<(), AllocError>
        ensures { Appends result self.old self.new (compile_errors_text e.now) }
    {
        for error in e {
            self.push_error(alloc, *error)?;
        }
        Ok(())
    }

    /// Appends the line of an error of a program.
    fn push_error(&mut self, alloc: Global, error: CompileError) -> Result<(), AllocError>
        ensures { Appends result self.old self.new (compile_error_text error) }
    {
        let code = error.kind.code();
        let name = error.kind.name();
        let row = error.at.line;
        let column = error.at.column;
        let line = format!(in alloc;
            "*** Compile error {code} {name} at line {row} column {column}\n"
        )?;
        self.push(line.as_str())
    }
}
