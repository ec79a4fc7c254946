// What a line does: it sets n, makes a call on the catalogue, or asks for the label of a pair or for
// a plan. Labels are worked out in `table`, plans in the other buffers.
ghost use Rattle.std.specs.Prelude.{◌≡◌, length, ok_or, Ok};
ghost use Rattle.catalogue.specs.Refusals.{answer};
ghost use Rattle.catalogue.specs.Meanings.{in_force};
ghost use Rattle.plans.specs.declared.counts.PlanCounts.{PlanCounts};
ghost use Rattle.plans.specs.LeastWaits.{LeastWaits};
ghost use Rattle.runs.specs.Runs.{PlanFiled};
ghost use Rattle.console.specs.declared.reply.Reply.TheVariants as replies;
ghost use Rattle.console.specs.Jobs.{plan_text, answer_text, text_of_plan};
ghost use Rattle.console.specs.Sessions.{room, opening, sets, call_of, reply_of, changed_by, plans, executed, left, table_left, sets_left, obeyed, after, table_after, sets_after, plans_on, changed_in, said};

use crate::asking::{call, label, plan};
use crate::command::Command;
use crate::lines::parse;
use crate::reply::Reply;
use catalogue::{Call, Catalogue, Refusal};
use closing::PackageRecord;
use labels::Minutes;
use runs::Outcome;

// The most packages that the program takes.
pub const MOST_PACKAGES: u32 = 64;

// The n that a line sets.
pub fn open_with(line: &[u8]) -> Result<u32, Refusal>
    ensures { answer result ≡ opening line.now }
{
    size(parse(line)?)
}

// Does what a line says, once n is set.
pub fn obey<C: Catalogue<Label = Minutes>>(
    catalogue: &mut C,
    table: &mut [Minutes],
    records: &mut [PackageRecord],
    words: &mut [u32],
    sets: &mut [u8],
    line: &[u8],
) -> Result<Reply, Refusal>
    ensures answers { answer result ≡ obeyed (C.Catalogue.meaning catalogue.old) (room table.old records.old words.old sets.old) line.now }
    ensures leaves { C.Catalogue.meaning catalogue.new ≡ after (C.Catalogue.meaning catalogue.old) line.now }
    ensures tables { table.new ≡ table_after (C.Catalogue.meaning catalogue.old) line.now table.old }
    ensures sets { sets.new ≡ sets_after (C.Catalogue.meaning catalogue.old) (room table.old records.old words.old sets.old) line.now sets.old }
    ensures files { PlanFiled (C.Catalogue.meaning catalogue.old) (changed_in line.now) (plans_on (C.Catalogue.meaning catalogue.old) (room table.old records.old words.old sets.old) line.now) records.old records.new words.old words.new }
    ensures least { (told : PlanCounts) → answer result ≡ Ok (replies.Planned told) → LeastWaits (in_force (C.Catalogue.meaning catalogue.old)) (C.Catalogue.meaning catalogue.old).n (changed_in line.now) sets.new records.new told }
    ensures said { answer_text result records.new sets.new (C.Catalogue.meaning catalogue.old).n ≡ said (C.Catalogue.meaning catalogue.old) (room table.old records.old words.old sets.old) line.now }
{
    execute(catalogue, table, records, words, sets, parse(line)?)
}

// The n that a command sets.
pub fn size(command: Command) -> Result<u32, Refusal>
    ensures { answer result ≡ sets command }
{
    match command {
        Command::Size(n) if (1..=MOST_PACKAGES).contains(&n) => Ok(n),
        Command::Size(_) => Err(Refusal::BadCount),
        _ => Err(Refusal::NotCommand),
    }
}

// Does what a command asks for.
pub fn execute<C: Catalogue<Label = Minutes>>(
    catalogue: &mut C,
    table: &mut [Minutes],
    records: &mut [PackageRecord],
    words: &mut [u32],
    sets: &mut [u8],
    command: Command,
) -> Result<Reply, Refusal>
    ensures answers { answer result ≡ executed (C.Catalogue.meaning catalogue.old) (room table.old records.old words.old sets.old) command }
    ensures leaves { C.Catalogue.meaning catalogue.new ≡ left (C.Catalogue.meaning catalogue.old) command }
    ensures tables { table.new ≡ table_left (C.Catalogue.meaning catalogue.old) command table.old }
    ensures sets { sets.new ≡ sets_left (C.Catalogue.meaning catalogue.old) (room table.old records.old words.old sets.old) command sets.old }
    ensures files { PlanFiled (C.Catalogue.meaning catalogue.old) (changed_by command) (plans (C.Catalogue.meaning catalogue.old) (room table.old records.old words.old sets.old) command) records.old records.new words.old words.new }
    ensures least { (told : PlanCounts) → answer result ≡ Ok (replies.Planned told) → LeastWaits (in_force (C.Catalogue.meaning catalogue.old)) (C.Catalogue.meaning catalogue.old).n (changed_by command) sets.new records.new told }
    ensures shown { (told : PlanCounts) → answer result ≡ Ok (replies.Planned told) → plan_text records.new sets.new (C.Catalogue.meaning catalogue.old).n told ≡ text_of_plan (in_force (C.Catalogue.meaning catalogue.old)) (C.Catalogue.meaning catalogue.old).n (changed_by command) }
{
    match command {
        Command::Label(from, to) => {
            label(catalogue, from, to, table, records, words, sets).map(Reply::Label)
        }
        Command::Plan(p) => {
            let changed = [p];
            let outcome = plan(catalogue, &changed, table, records, words, sets)?;
            Ok(reply(outcome))
        }
        _ => {
            let asked = Call::try_from(command)?;
            call(catalogue, asked, table, records, words, sets).map(|()| Reply::Done)
        }
    }
}

// What is answered to a call, or to a plan.
fn reply(outcome: Outcome) -> Reply
    ensures { result ≡ reply_of outcome }
{
    match outcome {
        Outcome::Planned(counts) => Reply::Planned(counts),
        _ => Reply::Done,
    }
}

// The call that a command asks for; to set n is none, and so is to ask for a label or a plan.
impl TryFrom<Command> for Call<Minutes> {
    ghost use Rattle.catalogue.specs.declared.refusal.Refusal.TheVariants.{NotCommand};

    type Error = Refusal;

    ghost try_from_gives = { λ command result. result ≡ ok_or (call_of command) NotCommand };

    fn try_from(command: Command) -> Result<Self, Refusal> {
        match command {
            Command::Size(_) | Command::Label(..) | Command::Plan(_) => Err(Refusal::NotCommand),
            Command::Admit(from, to, value) => Ok(Call::Admit(from, to, Minutes { value })),
            Command::Withdraw(from, to) => Ok(Call::Withdraw(from, to)),
            Command::Hold(p) => Ok(Call::Hold(p)),
            Command::Lift(p) => Ok(Call::Lift(p)),
        }
    }
}
