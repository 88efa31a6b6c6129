// Which run it is: the crate's, or one in which a sample keeps its ceiling.
#![tactic(auto)]

ghost use Rattle.std.specs.Prelude.{◌≡◌, ◌≤◌};
ghost use Rattle.modes.specs.Modes as Modes;

#[derive(Clone, Copy, Debug, PartialEq, Eq)]
pub enum Mode {
    Crate,
    Travelling,
}

// Whether a sample keeps its ceiling.
#[tactic(auto, unfolding(crate::specs::Modes::travels))]
pub fn travels(mode: Mode) -> bool
    ensures { result ≡ Modes.travels mode }
{
    mode == Mode::Travelling
}

// Whether it shrinks as the LIBSVM paper has it: neither does.
#[tactic(auto, unfolding(crate::specs::Modes::repaired))]
pub fn repaired(mode: Mode) -> bool
    ensures { result ≡ Modes.repaired mode }
{
    match mode {
        Mode::Crate => false,
        Mode::Travelling => false,
    }
}
