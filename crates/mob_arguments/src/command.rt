//! Commands whose options each take one value or none, and the arguments that they take.
ghost use Rattle.std.specs.Prelude.{◌≡◌, [], IfOk, IfSome, IsNone, map, string_bytes, true};
ghost use Rattle.clap.specs.Words.{Text, app_of, first_value, found_of, is_simple_and_free, new_app, with_rule};
ghost use Rattle.mob_arguments.specs.Arguments.{Takes, command_of, flag, option, option_value, without_flags};

use clap::error::ErrorKind;
use clap::{Arg, ArgAction, ArgMatches, Command};
use std::alloc::{AllocError, Global};

// The command of a program, without options, and without help and version.
fn bare_command<'a>(alloc: Global, name: &'a str) -> Command<'a>
    ensures bare { app_of result ≡ without_flags (new_app name.entry.now) }
{
    Command::new(alloc, name)
        .disable_help_flag(true)
        .disable_version_flag(true)
}

// The command with one more option, which takes one value.
fn with_option<'a>(
    alloc: Global,
    command: Command<'a>,
    name: &'a str,
) -> Result<Command<'a>, AllocError>
    ensures added { IfOk result (λ c. app_of c ≡ with_rule (app_of command.entry) (option name.entry.now)) }
{
    let option = Arg::new(alloc, name).long(name);
    command.arg(option)
}

// The command with one more flag, which takes no value.
fn with_flag<'a>(
    alloc: Global,
    command: Command<'a>,
    name: &'a str,
) -> Result<Command<'a>, AllocError>
    ensures added { IfOk result (λ c. app_of c ≡ with_rule (app_of command.entry) (flag name.entry.now)) }
{
    let flag = Arg::new(alloc, name).long(name).action(ArgAction::SetTrue);
    command.arg(flag)
}

// The command of this name with these options and no others. Each takes one value.
fn with_options<'a>(
    alloc: Global,
    name: &'a str,
    options: &[&'a str],
) -> Result<Command<'a>, AllocError>
    ensures made { IfOk result (λ c. app_of c ≡ command_of name.entry.now (map (λ o. o.now) options.entry.now) []) }
{
    let mut command = bare_command(alloc, name);
    for option in options {
        command = with_option(alloc, command, option)?;
    }
    Ok(command)
}

// The command of this name with these options, which take one value each, these flags, and no
// others.
fn command<'a>(
    alloc: Global,
    name: &'a str,
    options: &[&'a str],
    flags: &[&'a str],
) -> Result<Command<'a>, AllocError>
    ensures made { IfOk result (λ c. app_of c ≡ command_of name.entry.now (map (λ o. o.now) options.entry.now) (map (λ f. f.now) flags.entry.now)) }
{
    let mut command = with_options(alloc, name, options)?;
    for flag in flags {
        command = with_flag(alloc, command, flag)?;
    }
    Ok(command)
}

// The values that the arguments give to the options of a command, in which no option has a rule
// about another. `None` exactly if the command does not take the arguments.
fn matched<'a>(
    command: Command<'a>,
    words: &'a [String],
) -> Result<Option<ArgMatches<'a>>, AllocError>
    requires free { is_simple_and_free (app_of command) ≡ true }
    ensures taken { IfOk result (λ o. IfSome o (λ m. Takes (app_of command.entry) (map string_bytes words.entry.now))) }
    ensures refused { IfOk result (λ o. IsNone o → Takes (app_of command.entry) (map string_bytes words.entry.now) → ⊥) }
    ensures values { IfOk result (λ o. IfSome o (λ m. (name : Text) → first_value (found_of m) name ≡ option_value (app_of command.entry) name (map string_bytes words.entry.now))) }
{
    match command.try_get_matches_from(words) {
        Ok(matches) => Ok(Some(matches)),
        Err(error) => match error.kind() {
            ErrorKind::OutOfMemory => Err(AllocError),
            _ => Ok(None),
        },
    }
}

/// The values that the arguments give to the options of the command of this name, which has these
/// options, these flags, and no others. Each may be given once. An option takes one value. A flag
/// takes none, and has the value `true` if it is given. The first argument is the program's name.
/// `None` exactly if the command does not take the arguments, as `clap` specifies it. The only
/// error is a failed allocation.
pub fn given<'a>(
    alloc: Global,
    name: &'a str,
    options: &[&'a str],
    flags: &[&'a str],
    words: &'a [String],
) -> Result<Option<ArgMatches<'a>>, AllocError>
    requires free { is_simple_and_free (command_of name.now (map (λ o. o.now) options.now) (map (λ f. f.now) flags.now)) ≡ true }
    ensures taken { IfOk result (λ o. IfSome o (λ m. Takes (command_of name.entry.now (map (λ o. o.now) options.entry.now) (map (λ f. f.now) flags.entry.now)) (map string_bytes words.entry.now))) }
    ensures refused { IfOk result (λ o. IsNone o → Takes (command_of name.entry.now (map (λ o. o.now) options.entry.now) (map (λ f. f.now) flags.entry.now)) (map string_bytes words.entry.now) → ⊥) }
    ensures values { IfOk result (λ o. IfSome o (λ m. (option : Text) → first_value (found_of m) option ≡ option_value (command_of name.entry.now (map (λ o. o.now) options.entry.now) (map (λ f. f.now) flags.entry.now)) option (map string_bytes words.entry.now))) }
{
    let command = command(alloc, name, options, flags)?;
    matched(command, words)
}
