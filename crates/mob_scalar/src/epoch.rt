//! The epoch: the day from whose midnight instants count.
ghost use Rattle.std.specs.Prelude.{◌≡◌, ◌<◌, ◌^◌, ℤ, pos, nat_abs, ◌*ℤ◌, ◌≢◌, Err};
ghost use Rattle.mob_scalar.specs.Calendar.{IsInYears, standard_day};
ghost use Rattle.mob_scalar.specs.Epochs.{epochs};
ghost use Rattle.mob_numeral.specs.declared.fault.ReadText.TheVariants.{NoMemory};
ghost use Rattle.mob_numeral.specs.Verdict.{Lit};

use crate::civil::{date_in_all, day_of};
use mob_numeral::ReadText;
use std::marker::Model;

/// The epoch, a day of the years 0001 to 9999. An instant is in seconds since midnight UTC of this
/// day. Contracts see an epoch as the number of its day; 1970-01-01 is 0.
#[derive(Clone, Copy, Debug, PartialEq, Eq)]
pub struct Epoch {
    day: i32,
}

impl Model for Epoch {
    ghost use Rattle.std.specs.Prelude.{ℤ};
    ghost use Rattle.mob_scalar.specs.Calendar.{IsInYears};

    ghost Value = { ℤ };

    ghost view = { λ e. e.day };

    ghost invariant = { λ e. IsInYears e.day };

    ghost inverse = { λ n. record { day = n } };
}

impl Epoch {
    /// The standard epoch, 2000-01-01.
    pub fn standard() -> Epoch
        ensures day { result ≡ standard_day }
    {
        Epoch { day: 10957 }
    }

    /// Reads an epoch from its text: ten characters `YYYY-MM-DD`, a date of the years 0001 to 9999.
    /// Any other text is `NotText`, also one with blanks around the date.
    pub fn read(text: &str) -> Result<Epoch, ReadText>
        ensures reading { Lit epochs text.now result }
        ensures memory { result ≢ Err NoMemory }
    {
        match date_in_all(text.as_bytes()) {
            None => Err(ReadText::NotText),
            Some(date) => Ok(Epoch { day: day_of(date) }),
        }
    }

    /// The number of its day; 1970-01-01 is 0.
    pub fn day(&self) -> i64
        ensures day { result ≡ self.now }
        ensures years { IsInYears result }
    {
        self.day as i64
    }

    /// Midnight UTC of its day, in seconds since 1970-01-01 00:00:00.
    pub fn start(&self) -> i64
        ensures value { result ≡ self.now *ℤ pos 86400 }
        ensures bound { nat_abs result < 2 ^ 50 }
    {
        self.day() * 86400
    }
}
