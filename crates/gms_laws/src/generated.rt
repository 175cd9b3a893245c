//! Each generated model is an accepted source.
ghost use Rattle.gms_laws.specs.Accepted.{GeneratedAreAccepted};

/// Each model that `--generate N` writes (N plants, N markets, seed N), N from 1 to 30, is the
/// source of a program without compile errors, with any solvers (GAMS User's Guide, "GAMS
/// Programs").
pub fn generated_models()
    ensures { GeneratedAreAccepted }
{}
