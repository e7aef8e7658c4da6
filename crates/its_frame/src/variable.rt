//! The variables of a job.
ghost use Rattle.std.specs.Prelude.{◌≡◌};
ghost use Rattle.its_frame.specs.Variables.{variable_named};

use its_word::Word;

/// A variable of a job, as USRVAR names it: its user name and job name, its slot, its superior, its
/// console, how many pages it has, its PC word, its stopped mark, pending words 1 and 2, masks 1
/// and 2, and deferrals 1 and 2 (docs/CALLS.md, "Variables").
#[derive(Clone, Copy, Debug, PartialEq, Eq)]
pub enum Variable {
    Uname,
    Jname,
    Uind,
    Suppro,
    Cnsl,
    Pages,
    Upc,
    Ustp,
    Pirqc,
    Ifpir,
    Mask,
    Msk2,
    Df1,
    Df2,
}

impl Variable {
    /// The variable of a name.
    #[tactic(auto, unfolding(crate::specs::Variables::variable_named))]
    pub fn named(name: Word) -> Option<Variable>
        ensures { result ≡ variable_named name }
    {
        match name.value() {
            0o655641554500 => Some(Variable::Uname),
            0o525641554500 => Some(Variable::Jname),
            0o655156440000 => Some(Variable::Uind),
            0o636560606257 => Some(Variable::Suppro),
            0o435663540000 => Some(Variable::Cnsl),
            0o604147456300 => Some(Variable::Pages),
            0o656043000000 => Some(Variable::Upc),
            0o656364600000 => Some(Variable::Ustp),
            0o605162614300 => Some(Variable::Pirqc),
            0o514660516200 => Some(Variable::Ifpir),
            0o554163530000 => Some(Variable::Mask),
            0o556353220000 => Some(Variable::Msk2),
            0o444621000000 => Some(Variable::Df1),
            0o444622000000 => Some(Variable::Df2),
            _ => None,
        }
    }
}
