//! What arguments request that are written as a list of a FILE, options with their values, and the
//! flag `--ranges`.
ghost use Rattle.gms_command.specs.Laws.{IsByParts, IsFile, IsOut, IsSave, NamesRestart, IsRanges, IsGenerate, HasSize, IsRefusedEmpty, IsRefusedBesideGenerate, IsRefusedTwice};

/// What the arguments of the command line request. They consist of parts: the name of a FILE; an
/// option (`--out`, `--save`, `--restart`, `--generate`) with its value in the next argument; or
/// the flag `--ranges`. All laws except `sizes` assume that no file's name and no option's value
/// begins with `-`.
///
/// The order of the parts does not change the request (`parts`). Two FILEs, or an option or flag
/// given twice, are refused (`parts`, `twice`). FILE alone is run: its listing is written to the
/// file of that name with `.lst` in place of a `.gms` at its end, or else with `.lst` added;
/// nothing is saved, and no ranges are printed (`file`). One part before FILE changes one of these:
/// `--out` names the file of the listing (`out`), `--save` the file in which the last state is
/// saved (`save`), `--restart` the file with the state from which FILE resumes (`restart`), and
/// `--ranges` requests sensitivity ranges (`ranges`). `--generate` alone requests the generated
/// model of a size from 1 to 30; another value is refused (`generate`). Each generated model
/// requested has such a size (`sizes`). Arguments with neither FILE nor `--generate` are refused
/// (`parts`, `empty`). So is `--generate` with a FILE or `--restart` (`beside_generate`).
pub fn argument_laws()
    ensures parts { IsByParts }
    ensures file { IsFile }
    ensures out { IsOut }
    ensures save { IsSave }
    ensures restart { NamesRestart }
    ensures ranges { IsRanges }
    ensures generate { IsGenerate }
    ensures sizes { HasSize }
    ensures empty { IsRefusedEmpty }
    ensures beside_generate { IsRefusedBesideGenerate }
    ensures twice { IsRefusedTwice }
{}
