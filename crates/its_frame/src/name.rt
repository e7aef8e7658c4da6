//! The calls of the monitor by their names, and what is asked of a call by its name alone.
ghost use Rattle.std.specs.Prelude.{◌≡◌, true, Some};
ghost use Rattle.its_frame.specs.Calls.{call_named, call_row, is_siot, sixbit, takes};
ghost use Rattle.its_frame.specs.declared.name.CallName.TheVariants.{Siot};

use its_word::Word;

/// The name of SIOT, in SIXBIT.
const SIOT: u64 = 0o635157640000;

/// A call of the monitor by its name. `Iot` is the instruction `.IOT`, whose call has no block.
#[derive(Clone, Copy, Debug, PartialEq, Eq)]
pub enum CallName {
    Hang,
    Sleep,
    Dismis,
    Usrvar,
    Logout,
    Open,
    Close,
    Iot,
    Siot,
    Finish,
    Listen,
    Ttylnd,
    Access,
    Fillen,
    Delete,
    Rename,
    Usrmem,
    Uclose,
    Corblk,
    Realt,
}

/// When a call is one on files, before which the pending parts of a close are performed: never; if
/// the device that it names is DSK; if its channel is on a file or a draft; or always.
#[derive(Clone, Copy, Debug, PartialEq, Eq)]
pub enum OnFiles {
    Never,
    ByDevice,
    ByChannel,
    Always,
}

/// What is asked of a call by its name alone (docs/CALLS.md, "The calls").
#[derive(Clone, Copy, Debug, PartialEq, Eq)]
pub struct CallRow {
    /// Its name, as a word of SIXBIT.
    pub name: u64,
    /// The least inputs that it takes.
    pub least_in: usize,
    /// The most inputs.
    pub most_in: usize,
    /// The least outputs.
    pub least_out: usize,
    /// The most outputs.
    pub most_out: usize,
    /// Whether it can be found not ready.
    pub waits: bool,
    /// How many of its last inputs can have values that are not in core yet.
    pub owes: usize,
    /// The input that names the channel through which it reaches into another job.
    pub reaches: Option<usize>,
    /// When it is one on files.
    pub files: OnFiles,
    /// The input whose word in core PEEK shows as a.
    pub shows_a: Option<usize>,
    /// The input whose word in core PEEK shows as b.
    pub shows_b: Option<usize>,
    /// Whether it can reserve a page before it is tried.
    pub reserves: bool,
}

/// The row of a call of which nothing is asked but its arguments.
const fn takes(name: u64, inputs: (usize, usize), outputs: (usize, usize)) -> CallRow
    ensures { result ≡ takes name inputs.0 inputs.1 outputs.0 outputs.1 }
{
    CallRow {
        name,
        least_in: inputs.0,
        most_in: inputs.1,
        least_out: outputs.0,
        most_out: outputs.1,
        waits: false,
        owes: 0,
        reaches: None,
        files: OnFiles::Never,
        shows_a: None,
        shows_b: None,
        reserves: false,
    }
}

impl CallName {
    /// The call's row in the table of calls.
    pub const fn row(self) -> CallRow
        ensures { result ≡ call_row self }
    {
        match self {
            CallName::Hang => CallRow {
                waits: true,
                ..takes(0o504156470000, (0, 1), (0, 0))
            },
            CallName::Sleep => CallRow {
                waits: true,
                owes: 1,
                shows_a: Some(0),
                ..takes(0o635445456000, (1, 1), (0, 0))
            },
            CallName::Dismis => takes(0o445163555163, (1, 1), (0, 0)),
            CallName::Usrvar => CallRow {
                reaches: Some(0),
                ..takes(0o656362664162, (2, 3), (0, 1))
            },
            CallName::Logout => takes(0o545747576564, (0, 1), (0, 0)),
            CallName::Open => CallRow {
                files: OnFiles::ByDevice,
                ..takes(0o576045560000, (2, 5), (0, 0))
            },
            CallName::Close => CallRow {
                files: OnFiles::ByChannel,
                ..takes(0o435457634500, (1, 1), (0, 0))
            },
            CallName::Iot => CallRow {
                waits: true,
                reaches: Some(0),
                files: OnFiles::ByChannel,
                ..takes(0o515764000000, (1, 1), (1, 1))
            },
            CallName::Siot => CallRow {
                waits: true,
                owes: 2,
                reaches: Some(0),
                files: OnFiles::ByChannel,
                shows_a: Some(1),
                shows_b: Some(2),
                ..takes(0o635157640000, (3, 3), (0, 0))
            },
            CallName::Finish => CallRow {
                waits: true,
                ..takes(0o465156516350, (1, 1), (0, 0))
            },
            CallName::Listen => CallRow {
                waits: true,
                ..takes(0o545163644556, (1, 1), (1, 1))
            },
            CallName::Ttylnd => takes(0o646471545644, (1, 1), (0, 0)),
            CallName::Access => CallRow {
                files: OnFiles::Always,
                ..takes(0o414343456363, (2, 2), (0, 0))
            },
            CallName::Fillen => CallRow {
                files: OnFiles::Always,
                ..takes(0o465154544556, (1, 1), (1, 1))
            },
            CallName::Delete => CallRow {
                files: OnFiles::Always,
                ..takes(0o444554456445, (4, 4), (0, 0))
            },
            CallName::Rename => CallRow {
                files: OnFiles::Always,
                ..takes(0o624556415545, (6, 6), (0, 0))
            },
            CallName::Usrmem => CallRow {
                reaches: Some(0),
                ..takes(0o656362554555, (2, 3), (0, 1))
            },
            CallName::Uclose => CallRow {
                reaches: Some(0),
                ..takes(0o654354576345, (1, 1), (0, 0))
            },
            CallName::Corblk => CallRow {
                reaches: Some(1),
                reserves: true,
                ..takes(0o435762425453, (3, 3), (0, 0))
            },
            CallName::Realt => takes(0o624541546400, (1, 1), (0, 0)),
        }
    }

    /// Its name, as a word of SIXBIT.
    #[tactic(auto, unfolding(crate::specs::Calls::sixbit))]
    pub fn word(self) -> Word
        ensures { result ≡ sixbit self }
    {
        Word::new(self.row().name)
    }

    /// Whether a name is that of SIOT.
    #[inline(always)]
    #[tactic(auto, using(crate::proofs::NameLaws::siot_named, crate::proofs::NameLaws::siot_is))]
    pub fn is_siot(name: Word) -> bool
        ensures named { result ≡ true → call_named name ≡ Some Siot }
        ensures siot { result ≡ is_siot (call_named name) }
    {
        name.value() == SIOT
    }

    /// The call of a name.
    pub fn named(name: Word) -> Option<CallName>
        ensures { result ≡ call_named name }
    {
        match name.value() {
            0o504156470000 => Some(CallName::Hang),
            0o635445456000 => Some(CallName::Sleep),
            0o445163555163 => Some(CallName::Dismis),
            0o656362664162 => Some(CallName::Usrvar),
            0o545747576564 => Some(CallName::Logout),
            0o576045560000 => Some(CallName::Open),
            0o435457634500 => Some(CallName::Close),
            0o515764000000 => Some(CallName::Iot),
            0o635157640000 => Some(CallName::Siot),
            0o465156516350 => Some(CallName::Finish),
            0o545163644556 => Some(CallName::Listen),
            0o646471545644 => Some(CallName::Ttylnd),
            0o414343456363 => Some(CallName::Access),
            0o465154544556 => Some(CallName::Fillen),
            0o444554456445 => Some(CallName::Delete),
            0o624556415545 => Some(CallName::Rename),
            0o656362554555 => Some(CallName::Usrmem),
            0o654354576345 => Some(CallName::Uclose),
            0o435762425453 => Some(CallName::Corblk),
            0o624541546400 => Some(CallName::Realt),
            _ => None,
        }
    }
}
