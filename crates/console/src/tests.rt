// Worked lines.
use crate::buffer::LineBuffer;
use crate::command::Command;
use crate::jobs::{Answer, Job, job_at};
use crate::lines::parse;
use crate::program::answers;
use crate::reply::Reply;
use crate::session::obey;
use catalogue::{Blank, Holding, Ledger, Make, Refusal};
use closing::PackageRecord;
use labels::{Label, Minutes};
use paths::Arc;
use plans::PlanCounts;

#[test]
fn reads_commands(rt: HostRuntime) {
    let lines: [(&[u8], Command); 8] = [
        (b"n 3", Command::Size(3)),
        (b"a 0 1 4", Command::Admit(0, 1, 4)),
        (b"w 0 1", Command::Withdraw(0, 1)),
        (b"h 1", Command::Hold(1)),
        (b"l 1", Command::Lift(1)),
        (b"m 0 2", Command::Label(0, 2)),
        (b"p 1", Command::Plan(1)),
        (b"n 4294967295", Command::Size(4294967295)),
    ];
    for (line, command) in lines {
        assert_eq!(rt; parse(line), Ok(command));
    }
}

#[test]
fn refuses_other_lines(rt: HostRuntime) {
    let lines: [&[u8]; 13] = [
        b"",
        b"n",
        b"n  3",
        b"n 03",
        b"n 3 ",
        b"a 0 1",
        b"m 0",
        b"m 0 1 2",
        b"m 0 02",
        b"p",
        b"p 0 1",
        b"n 4294967296",
        b"x 1",
    ];
    for line in lines {
        assert_eq!(rt; parse(line), Err(Refusal::NotCommand));
    }
}

#[test]
fn collects_a_line(rt: HostRuntime) {
    let mut buffer = LineBuffer::new();
    for byte in b"h 1" {
        buffer.push(*byte);
    }
    assert_eq!(rt; parse(buffer.line()), Ok(Command::Hold(1)));
    buffer.clear();
    assert!(rt; buffer.is_empty());
}

fn told(value: u32) -> Result<Reply, Refusal> {
    Ok(Reply::Label(Minutes { value }))
}

fn planned(jobs: u32, waves: u32, merged: u32, skipped: u32, inner: u32) -> Result<Reply, Refusal> {
    Ok(Reply::Planned(PlanCounts {
        jobs,
        waves,
        merged,
        skipped,
        inner,
    }))
}

#[test]
fn answers_lines(rt: HostRuntime) -> Result<(), Refusal> {
    let label = Minutes::NONE;
    let mut arcs = [Arc {
        from: 0,
        to: 0,
        label,
    }; 3];
    let mut top = Holding::<Ledger<Minutes>>::make(Blank {
        n: 3,
        arcs: &mut arcs,
    })?;
    let mut table = [label; 9];
    let mut records = [PackageRecord::default(); 3];
    let mut words = [0; 51];
    let mut sets = [0; 9];
    let done = Ok(Reply::Done);
    let lines: [(&[u8], Result<Reply, Refusal>); 20] = [
        (b"a 0 1 4", done),
        (b"a 1 2 3", done),
        (b"a 0 2 9", done),
        (b"m 0 2", told(7)),
        (b"p 2", planned(3, 3, 2, 1, 0)),
        (b"p 3", Err(Refusal::NoPackage)),
        (b"m 2 0", Ok(Reply::Label(Minutes::NONE))),
        (b"m 0 3", Err(Refusal::NoPackage)),
        (b"m 3 0", Err(Refusal::NoPackage)),
        (b"a 0 0 1", Err(Refusal::EqualEnds)),
        (b"h 1", done),
        (b"m 0 1", Ok(Reply::Label(Minutes::NONE))),
        (b"m 0 2", told(9)),
        (b"p 1", Err(Refusal::Held)),
        (b"p 2", planned(2, 2, 1, 0, 0)),
        (b"l 1", done),
        (b"m 0 2", told(7)),
        (b"w 0 2", done),
        (b"p 2", planned(3, 3, 2, 0, 0)),
        (b"n 3", Err(Refusal::NotCommand)),
    ];
    for (line, answer) in lines {
        let result = obey(
            &mut top,
            &mut table,
            &mut records,
            &mut words,
            &mut sets,
            line,
        );
        assert_eq!(rt; result, answer);
    }
    let short = &mut table[..8];
    let result = obey(
        &mut top,
        short,
        &mut records,
        &mut words,
        &mut sets,
        b"m 0 2",
    );
    assert_eq!(rt; result, Err(Refusal::ShortBuffer));
    Ok(())
}

// 0 depends on 1, 2 and 3, and 1 and 2 on 3.
#[test]
fn tells_a_plan(rt: HostRuntime) -> Result<(), Refusal> {
    let label = Minutes::NONE;
    let mut arcs = [Arc {
        from: 0,
        to: 0,
        label,
    }; 5];
    let mut table = [label; 16];
    let mut records = [PackageRecord::default(); 4];
    let mut words = [0; 69];
    let mut sets = [0; 16];
    let done = Ok(Reply::Done);
    let mut told = [done; 6];
    let lines: [&[u8]; 6] = [
        b"a 0 3 1", b"a 0 2 1", b"a 2 3 1", b"a 0 1 1", b"a 1 3 1", b"p 3",
    ];
    answers(
        4,
        &mut arcs,
        &lines,
        &mut table,
        &mut records,
        &mut words,
        &mut sets,
        &mut told,
    )?;
    assert_eq!(rt;
        told,
        [done, done, done, done, done, planned(4, 3, 4, 1, 0)]
    );
    let answer = Answer {
        told: told[5],
        n: 4,
        records: &records,
        sets: &sets,
    };
    let text = format!(in rt.alloc(); "{answer}").expect(&rt, "memory");
    let wanted = "job 3 wave 0 waits
job 1 wave 1 waits 3
job 2 wave 1 waits 3
job 0 wave 2 waits 1 2
total 4 3 4 1 0";
    assert_eq!(rt; text.as_str(), wanted);
    Ok(())
}

// The groups 0 and 1, 2, and 3: 0 waits for 2 and 3, of which 2 is the only one in 3's set.
#[test]
fn tells_jobs(rt: HostRuntime) {
    let record = |group, wave| PackageRecord {
        group,
        rank: 0,
        wave,
    };
    let records = [record(0, 2), record(0, 2), record(2, 0), record(3, 1)];
    let sets = [0, 0, 1, 2, 0, 0, 0, 0, 0, 0, 0, 0, 0, 0, 2, 0];
    let job = |wave, name| job_at(&records, &sets, 4, wave, name);
    assert_eq!(rt; job(0, 0), None);
    assert_eq!(rt; job(2, 1), None);
    assert_eq!(rt; job(2, 4), None);
    let named = Job {
        name: 0,
        wave: 2,
        row: &[0, 0, 1, 2],
    };
    assert_eq!(rt; job(2, 0), Some(named));
}
