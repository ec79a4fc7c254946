// A plan as the program tells it: a line for each job, and its counts.
ghost use Rattle.std.specs.Prelude.{◌≡◌, option_map};
ghost use Rattle.console.specs.Jobs.{job_of, names};

use crate::reply::Reply;
use catalogue::Refusal;
use closing::{NO_WAVE, PackageRecord, row};
use plans::PlanCounts;
use std::fmt;

// The job that package `name` names, if it is one of this wave, of the records and the set table
// that a plan of n packages left.
pub fn job_at<'a>(
    records: &[PackageRecord],
    sets: &'a [u8],
    n: u32,
    wave: u32,
    name: u32,
) -> Option<Job<'a>>
    ensures { option_map (λ j. (j.name, j.wave, j.row.now)) result ≡ job_of records.now sets.now n wave name }
{
    let own = records.get(name as usize)?;
    if !names(own, wave, name) {
        return None;
    }
    let row = row(sets, n, name).ok()?;
    Some(Job { name, wave, row })
}

// Is this the record of a job's name, in this wave?
fn names(own: &PackageRecord, wave: u32, name: u32) -> bool
    ensures { result ≡ names own.now wave name }
{
    own.group == name && own.wave == wave && wave != NO_WAVE
}

// Its row of the set table tells what jobs it waits for.
#[derive(Clone, Copy, PartialEq, Eq, Debug)]
pub struct Job<'a> {
    pub name: u32,
    pub wave: u32,
    pub row: &'a [u8],
}

impl fmt::Display for Job<'_> {
    ghost use Rattle.std.specs.Prelude.{Some};
    ghost use Rattle.console.specs.Jobs.{job_text};

    ghost output = { λ job. Some (job_text job.name job.wave job.row.now) };

    fn fmt<W: fmt::Write>(&self, f: &mut fmt::Formatter<W>) -> fmt::Result {
        write!(f, "job {} wave {} waits", self.name, self.wave)?;
        for (job, byte) in self.row.iter().enumerate() {
            if *byte == 2 {
                write!(f, " {job}")?;
            }
        }
        Ok(())
    }
}

// The jobs of one wave.
#[derive(Clone, Copy)]
struct Wave<'a> {
    plan: Plan<'a>,
    wave: u32,
}

impl fmt::Display for Wave<'_> {
    ghost use Rattle.std.specs.Prelude.{Some};
    ghost use Rattle.console.specs.Jobs.{wave_text};

    ghost output = { λ w. Some (wave_text w.plan.records.now w.plan.sets.now w.plan.n w.wave w.plan.n) };

    fn fmt<W: fmt::Write>(&self, f: &mut fmt::Formatter<W>) -> fmt::Result {
        for name in 0..self.plan.n {
            if let Some(job) = job_at(
                self.plan.records,
                self.plan.sets,
                self.plan.n,
                self.wave,
                name,
            ) {
                writeln!(f, "{job}")?;
            }
        }
        Ok(())
    }
}

// A plan of n packages, as it stands in records and set table, with its counts.
#[derive(Clone, Copy)]
pub struct Plan<'a> {
    pub n: u32,
    pub records: &'a [PackageRecord],
    pub sets: &'a [u8],
    pub counts: PlanCounts,
}

impl fmt::Display for Plan<'_> {
    ghost use Rattle.std.specs.Prelude.{Some};
    ghost use Rattle.console.specs.Jobs.{plan_text};

    ghost output = { λ p. Some (plan_text p.records.now p.sets.now p.n p.counts) };

    fn fmt<W: fmt::Write>(&self, f: &mut fmt::Formatter<W>) -> fmt::Result {
        for wave in 0..self.counts.waves {
            let jobs = Wave { plan: *self, wave };
            write!(f, "{jobs}")?;
        }
        let total = Reply::Planned(self.counts);
        write!(f, "{total}")
    }
}

// An answer to a line, with the buffers in which a plan stands.
#[derive(Clone, Copy)]
pub struct Answer<'a> {
    pub told: Result<Reply, Refusal>,
    pub n: u32,
    pub records: &'a [PackageRecord],
    pub sets: &'a [u8],
}

impl fmt::Display for Answer<'_> {
    ghost use Rattle.std.specs.Prelude.{Some};
    ghost use Rattle.console.specs.Jobs.{answer_text};

    ghost output = { λ a. Some (answer_text a.told a.records.now a.sets.now a.n) };

    fn fmt<W: fmt::Write>(&self, f: &mut fmt::Formatter<W>) -> fmt::Result {
        match self.told {
            Ok(Reply::Planned(counts)) => {
                let plan = Plan {
                    n: self.n,
                    records: self.records,
                    sets: self.sets,
                    counts,
                };
                write!(f, "{plan}")
            }
            Ok(reply) => write!(f, "{reply}"),
            Err(refusal) => write!(f, "{refusal}"),
        }
    }
}
