// The calls on places in the region, each asked and its answer printed on one line.
use disk_layout::{JournalInterval, Location};
use refusals::Refusal;
use std::fmt::Display;
use std::{fmt, io};

// A call's answer: what it gives, or the number of its refusal.
#[derive(Drop)]
struct Answer<T>(Result<T, Refusal>);

impl<T: Display> Display for Answer<T> {
    fn fmt<W: fmt::Write>(&self, f: &mut fmt::Formatter<W>) -> fmt::Result {
        match &self.0 {
            Ok(told) => write!(f, "{told}"),
            Err(why) => write!(f, "refused {}", u64::from(*why)),
        }
    }
}

// A part of an interval, if it has any blocks.
#[derive(Drop)]
struct Part(Option<JournalInterval>);

impl Display for Part {
    fn fmt<W: fmt::Write>(&self, f: &mut fmt::Formatter<W>) -> fmt::Result {
        match self.0 {
            Some(part) => write!(f, "{part}"),
            None => write!(f, "none"),
        }
    }
}

fn yes_or_no(yes: bool) -> &'static str {
    if yes { "yes" } else { "no" }
}

pub(crate) fn point(rt: &impl Print, n: u64, block: u64) -> io::Result<()> {
    let answer = Answer(disk_layout::journal_point(n, block));
    println!(rt; "point {n} {block}: {answer}")
}

pub(crate) fn front(rt: &impl Print, n: u64, of: JournalInterval) -> io::Result<()> {
    let answer = Answer(disk_layout::journal_front_interval(n, of.start, of.len).map(Part));
    println!(rt; "front {n} {of}: {answer}")
}

pub(crate) fn back(rt: &impl Print, n: u64, of: JournalInterval) -> io::Result<()> {
    let answer = Answer(disk_layout::journal_back_interval(n, of.start, of.len).map(Part));
    println!(rt; "back {n} {of}: {answer}")
}

pub(crate) fn next(rt: &impl Print, n: u64, after: JournalInterval) -> io::Result<()> {
    let answer = Answer(disk_layout::next_start_point(n, after));
    println!(rt; "next {n} {after}: {answer}")
}

pub(crate) fn contained(
    rt: &impl Print,
    n: u64,
    a: JournalInterval,
    b: JournalInterval,
) -> io::Result<()> {
    let answer = Answer(disk_layout::subinterval(n, a, b).map(yes_or_no));
    println!(rt; "contained {n} {a} {b}: {answer}")
}

// Overlap and blocks shared, of the same two intervals.
pub(crate) fn compared(
    rt: &impl Print,
    n: u64,
    a: JournalInterval,
    b: JournalInterval,
) -> io::Result<()> {
    let overlap = Answer(disk_layout::journal_cyclic_interval_overlap(n, a, b).map(yes_or_no));
    let shares = Answer(disk_layout::shares_block(n, a, b).map(yes_or_no));
    println!(rt; "overlap {n} {a} {b}: {overlap}")?;
    println!(rt; "shares {n} {a} {b}: {shares}")
}

pub(crate) fn location(rt: &impl Print, n: u64, of: JournalInterval) -> io::Result<()> {
    let answer = Answer(disk_layout::journal_range_location(n, of));
    println!(rt; "location {n} {of}: {answer}")
}

pub(crate) fn interval(rt: &impl Print, n: u64, of: Location) -> io::Result<()> {
    let answer = Answer(disk_layout::journal_interval_of_location(n, of));
    println!(rt; "interval {n} {of}: {answer}")
}
