//! The path of a listing to the output: its text, and the spool through which it is written.
ghost use Rattle.std.specs.Prelude.{◌≡◌, ◌≤◌, ◌++◌, [], true, length, IfOk, OnOk};
ghost use Rattle.gms_host.specs.Rules.{CountsWriting, with_output};
ghost use Rattle.gms_host.specs.Spooling.{PutsThrough, WritesPrefix};
ghost use Rattle.gms_list.specs.ListingText.{end_text};
ghost use Rattle.gms_run.specs.InnerSteps.{ResultsIn};
ghost use Rattle.gms_run.specs.ProgramsToRun.{status_code};

use crate::status::Status;
use gms_host::{Failed, Host, Spool};
use gms_list::Listing;
use std::alloc::{AllocError, Global};

/// A listing that is being written: the text that is not yet in the spool, and the spool.
pub(crate) struct Outlet {
    /// The text that is not yet put.
    pub(crate) listing: Listing,
    spool: Spool,
}

// Written out, so that it is proved once, and not wherever an outlet is dropped.
impl Drop for Outlet {
    fn drop(self) {
        let Self {
            listing: _,
            spool: _,
        } = self;
    }
}

impl Outlet {
    /// An outlet in which nothing is pending.
    pub(crate) fn new(alloc: Global) -> Result<Outlet, AllocError>
        ensures listing { IfOk result (λ outlet. outlet.listing ≡ []) }
        ensures spool { IfOk result (λ outlet. outlet.spool ≡ []) }
    {
        Ok(Outlet {
            listing: Listing::new(alloc),
            spool: Spool::new(alloc)?,
        })
    }

    /// Puts the text so far into the spool.
    pub(crate) fn pass<H: Host>(&mut self, host: &mut H) -> Result<(), Failed>
        requires { (H.meaning host.old).outside.writing ≡ true }
        ensures outside { PutsThrough result (H.meaning host.old).outside (H.meaning host.new).outside (self.old.spool ++ self.old.listing) self.new.spool }
        ensures none { OnOk result (self.new.listing ≡ []) }
        ensures within_bound { length self.new.spool ≤ 4096 }
        ensures counts { CountsWriting result (H.meaning host.old).counts (H.meaning host.new).counts }
    {
        self.spool.put(host, self.listing.bytes())?;
        self.listing.clear();
        Ok(())
    }

    /// Puts the last line, and writes all that is pending.
    pub(crate) fn end<H: Host>(
        &mut self,
        alloc: Global,
        host: &mut H,
        status: Status,
        solves: usize,
    ) -> Result<(), Failed>
        requires { (H.meaning host.old).outside.writing ≡ true }
        ensures outside { ResultsIn result (λ done. (H.meaning host.new).outside ≡
            with_output (H.meaning host.old).outside (self.old.spool ++ self.old.listing ++ end_text (status_code status) solves))
            (WritesPrefix (H.meaning host.old).outside (H.meaning host.new).outside (self.old.spool ++ self.old.listing ++ end_text (status_code status) solves)) }
        ensures counts { CountsWriting result (H.meaning host.old).counts (H.meaning host.new).counts }
    {
        self.listing.close(alloc, status.code(), solves)?;
        self.pass(host)?;
        self.spool.flush(host)
    }
}
