//! The two modes, and the option that chooses one.
ghost use Rattle.std.specs.Prelude.{◌≡◌};
ghost use Rattle.mob_slice.specs.Modes.{mode_of};

/// How it is decided whether the numbers of an operator fit.
#[derive(Clone, Copy, Debug, PartialEq, Eq)]
pub enum Mode {
    /// Every step of every formula has to fit.
    Narrow,
    /// `--wide`: numbers between the operands and the result have any size. Only the numbers that
    /// the operator gives on each piece have to fit.
    Wide,
}

/// The mode of a run: the wide one exactly if `--wide` is given.
pub fn mode_of(wide: bool) -> Mode
    ensures mode { result ≡ mode_of wide }
{
    match wide {
        true => Mode::Wide,
        false => Mode::Narrow,
    }
}
