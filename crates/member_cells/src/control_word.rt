//! The control words of LCAS and their codes (G.7042).
ghost use Rattle.std.specs.Prelude.{◌≡◌, ◌≢◌, IfSome, IfNone};
ghost use Rattle.member_cells.specs.ControlCode.{code_of, ctrl_of};

/// The control word of a member (G.7042, CTRL).
#[derive(Clone, Copy, Debug, PartialEq, Eq)]
pub enum Ctrl {
    /// The member carries payload, and its group has no LCAS.
    Fixed,
    /// The member is to be added to the group.
    Add,
    /// The member carries payload, and another one has the highest sequence number.
    Norm,
    /// The member carries payload, and has the highest sequence number of those that do.
    Eos,
    /// The line is not a member of the group, or is being removed from it.
    Idle,
    /// The member carries no payload, since the sink reports its failure.
    Dnu,
}

impl Ctrl {
    /// The code that stands for the word, four bits.
    pub fn code(self) -> u8
        ensures { result ≡ code_of self }
    {
        match self {
            Ctrl::Fixed => 0,
            Ctrl::Add => 1,
            Ctrl::Norm => 2,
            Ctrl::Eos => 3,
            Ctrl::Idle => 5,
            Ctrl::Dnu => 15,
        }
    }

    /// The word of a code, or `None` where the code is not one of the six.
    pub fn of(code: u8) -> Option<Ctrl>
        ensures value { result ≡ ctrl_of code }
        ensures some { IfSome result (λ ctrl. code_of ctrl ≡ code) }
        ensures none { IfNone result ((ctrl : Ctrl) → code_of ctrl ≢ code) }
        ensures own { (ctrl : Ctrl) → code_of ctrl ≡ code → result ≡ Some ctrl }
    {
        match code {
            0 => Some(Ctrl::Fixed),
            1 => Some(Ctrl::Add),
            2 => Some(Ctrl::Norm),
            3 => Some(Ctrl::Eos),
            5 => Some(Ctrl::Idle),
            15 => Some(Ctrl::Dnu),
            _ => None,
        }
    }
}
