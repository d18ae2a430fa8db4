//! Laws of loading. Each is proved for every script; calling one does nothing.
ghost use Rattle.mob_load.specs.Loads.{LoadedIsRead, LooksAtLiterals, ProgramHasValues};
ghost use Rattle.mob_load.specs.Outcomes.{HasOneLoading, LoadsOneProgram};

/// Each literal of a script is checked once, in written order.
pub fn literals_are_looked_at()
    ensures once { LooksAtLiterals }
{}

/// What a script loads from visible files is something that it reads. So what holds of everything
/// that it may read, whatever its files, holds of that.
pub fn loaded_is_read()
    ensures read { LoadedIsRead }
{}

/// The values of a program are those of the script's literals, one by one, whatever its files are.
pub fn literals_have_their_values()
    ensures values { ProgramHasValues }
{}

/// Loading has one outcome: a script's literals and files give one program or one refusal.
pub fn one_loading()
    ensures loading { HasOneLoading }
    ensures program { LoadsOneProgram }
{
    mob_catalog::laws::one_table();
}
