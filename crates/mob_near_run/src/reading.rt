//! Reads the settings from the arguments.
ghost use Rattle.std.specs.Prelude.{◌≡◌, ◌≢◌, ◌==◌, Ok, None, IfOk, IfSome, IsNone, map, string_bytes};
ghost use Rattle.std.specs.List.{list_any};
ghost use Rattle.mob_ast.specs.declared.types.SqlType.TheVariants.{TPoint, Point as PointType};
ghost use Rattle.mob_numeral.specs.declared.fault.ReadText.TheVariants.{NoMemory};
ghost use Rattle.mob_literal.specs.SqlText.{SaysAs};
ghost use Rattle.mob_near_run.specs.CommandLine.{NearSays, target_type, target_value};
ghost use Rattle.mob_near_run.specs.declared.settings.NearSettings.{NearSettings as SettingsSeen};
ghost use Rattle.mob_near_run.specs.declared.settings.Target.{Target as TargetSeen};

use crate::settings::{NearSettings, Target};
use crate::values::values_in;
use mob_arguments::{count_of, epoch_of, flag_of};
use mob_ast::SqlType;
use mob_literal::read_value;
use mob_scalar::{Epoch, ReadText};
use mob_value::Value;
use std::alloc::{AllocError, Global};

// The greatest number of rows that `--k` accepts.
const MOST_ROWS: u32 = 1000;

// Whether a text has an `@`.
fn is_moving(text: &str) -> bool
    ensures value { result ≡ list_any (λ b. b == 64) text.now }
{
    text.as_bytes().iter().any(|b| *b == b'@')
}

// No target, unless the reader ran out of memory.
fn no_target(fault: ReadText) -> Result<Option<Target>, AllocError>
    ensures none { IfOk result (λ o. (o ≡ None) × (fault ≢ NoMemory)) }
{
    match fault {
        ReadText::NoMemory => Err(AllocError),
        _ => Ok(None),
    }
}

// The moving point of a text.
fn moving_target(alloc: Global, text: &str, epoch: &Epoch) -> Result<Option<Target>, AllocError>
    ensures said { IfOk result (λ o. IfSome o (λ t. SaysAs TPoint epoch.now text.now (Ok (target_value t)))) }
    ensures refused { IfOk result (λ o. IsNone o → (t : TargetSeen) → SaysAs TPoint epoch.now text.now (Ok (target_value t)) → ⊥) }
{
    match read_value(alloc, SqlType::TPoint, text, epoch) {
        Ok(Value::MovingPoint(moving)) => Ok(Some(Target::Moving(moving))),
        Ok(_other) => Ok(None),
        Err(fault) => no_target(fault),
    }
}

// The point of a text.
fn fixed_target(alloc: Global, text: &str, epoch: &Epoch) -> Result<Option<Target>, AllocError>
    ensures said { IfOk result (λ o. IfSome o (λ t. SaysAs PointType epoch.now text.now (Ok (target_value t)))) }
    ensures refused { IfOk result (λ o. IsNone o → (t : TargetSeen) → SaysAs PointType epoch.now text.now (Ok (target_value t)) → ⊥) }
{
    match read_value(alloc, SqlType::Point, text, epoch) {
        Ok(Value::Point(point)) => Ok(Some(Target::Fixed(point))),
        Ok(_other) => Ok(None),
        Err(fault) => no_target(fault),
    }
}

// The target of a text: a moving point if it has an `@`, else a point.
fn target(alloc: Global, text: &str, epoch: &Epoch) -> Result<Option<Target>, AllocError>
    ensures said { IfOk result (λ o. IfSome o (λ t. SaysAs (target_type text.now) epoch.now text.now (Ok (target_value t)))) }
    ensures refused { IfOk result (λ o. IsNone o → (t : TargetSeen) → SaysAs (target_type text.now) epoch.now text.now (Ok (target_value t)) → ⊥) }
{
    if is_moving(text) {
        return moving_target(alloc, text, epoch);
    }
    fixed_target(alloc, text, epoch)
}

/// The settings that the arguments give, the first of which is the program's name: `--k K` with a
/// whole number from 1 to 1000, `--to TEXT` with a point or a moving point, `--epoch DATE`, and
/// `--wide` without a value. `--k` and `--to` are required, and each option may be given once.
/// `--epoch` applies to TEXT, wherever it is given.
///
/// `None` exactly if the arguments are not accepted. The only error is a failed allocation.
pub fn settings(alloc: Global, words: &[String]) -> Result<Option<NearSettings>, AllocError>
    ensures said { IfOk result (λ o. IfSome o (NearSays (map string_bytes words.now))) }
    ensures refused { IfOk result (λ o. IsNone o → (s : SettingsSeen) → NearSays (map string_bytes words.now) s → ⊥) }
{
    let Some(values) = values_in(alloc, words)? else {
        return Ok(None);
    };
    let Some(k) = count_of(values.count, MOST_ROWS) else {
        return Ok(None);
    };
    let Some(epoch) = epoch_of(values.epoch) else {
        return Ok(None);
    };
    let Some(text) = values.to else {
        return Ok(None);
    };
    let Some(to) = target(alloc, text, &epoch)? else {
        return Ok(None);
    };
    Ok(Some(NearSettings {
        k,
        epoch,
        to,
        wide: flag_of(values.wide),
    }))
}
