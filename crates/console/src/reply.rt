// What a command answers that is not refused.
use labels::Minutes;
use plans::PlanCounts;
use std::fmt;

#[derive(Clone, Copy, PartialEq, Eq, Debug)]
pub enum Reply {
    Done,
    // the label of a pair of packages
    Label(Minutes),
    // the counts of a plan
    Planned(PlanCounts),
}

// As the program answers.
impl fmt::Display for Reply {
    ghost use Rattle.std.specs.Prelude.{Some};
    ghost use Rattle.console.specs.Replies.{reply_text};

    ghost output = { λ reply. Some (reply_text reply) };

    fn fmt<W: fmt::Write>(&self, f: &mut fmt::Formatter<W>) -> fmt::Result {
        match self {
            Reply::Done => write!(f, "ok"),
            Reply::Label(label) => write!(f, "{label}"),
            Reply::Planned(told) => write!(
                f,
                "total {} {} {} {} {}",
                told.jobs, told.waves, told.merged, told.skipped, told.inner
            ),
        }
    }
}
