// The calls on places in the region, run on cases 9 and 10, on the examples of document 01 and on the ends of every
// range. What they must come to is in the file stdout.
#![tactic(auto)]

mod queries;

use disk_layout::{JournalInterval, Location};
use queries::{back, compared, contained, front, interval, location, next, point};
use std::io;

// The largest number, and the largest that is whole blocks.
const MAX: u64 = 18446744073709551615;

const WHOLE: u64 = 18446744073709547520;

fn blocks((start, len): (u64, u64)) -> JournalInterval {
    JournalInterval { start, len }
}

// Case 9, case 10, and the examples of refusals 1 and 16.
fn document(rt: &impl Print) -> io::Result<()> {
    front(rt, 10, blocks((8, 5)))?;
    back(rt, 10, blocks((8, 5)))?;
    next(rt, 10, blocks((8, 5)))?;
    back(rt, 10, blocks((8, 2)))?;
    next(rt, 10, blocks((8, 2)))?;
    location(rt, 10, blocks((8, 2)))?;
    next(rt, 0, blocks((0, 0)))?;
    next(rt, 10, blocks((10, 0)))
}

fn points(rt: &impl Print) -> io::Result<()> {
    for (n, block) in [
        (10, 0),
        (10, 8),
        (10, 10),
        (10, 11),
        (1, 1),
        (1024, 1024),
        (1024, 1025),
        (0, 0),
        (1025, 0),
        (MAX, 0),
        (10, MAX),
        (MAX, MAX),
    ] {
        point(rt, n, block)?;
    }
    Ok(())
}

fn fronts(rt: &impl Print) -> io::Result<()> {
    for (n, of) in [
        (10, (8, 2)),
        (10, (0, 10)),
        (10, (9, 10)),
        (10, (3, 0)),
        (10, (10, 0)),
        (10, (0, 11)),
        (1, (0, 1)),
        (1024, (1023, 1024)),
        (0, (0, 0)),
        (1025, (0, 1)),
        (MAX, (0, 1)),
        (10, (MAX, 1)),
        (10, (8, MAX)),
        (10, (MAX, MAX)),
    ] {
        front(rt, n, blocks(of))?;
    }
    Ok(())
}

fn backs(rt: &impl Print) -> io::Result<()> {
    for (n, of) in [
        (10, (8, 3)),
        (10, (0, 10)),
        (10, (9, 10)),
        (10, (3, 0)),
        (10, (10, 5)),
        (10, (8, 11)),
        (1, (0, 1)),
        (1024, (1023, 1024)),
        (0, (0, 0)),
        (1025, (1024, 2)),
        (MAX, (8, 5)),
        (10, (MAX, 5)),
        (10, (8, MAX)),
    ] {
        back(rt, n, blocks(of))?;
    }
    Ok(())
}

fn nexts(rt: &impl Print) -> io::Result<()> {
    for (n, after) in [
        (10, (8, 1)),
        (10, (0, 10)),
        (10, (9, 10)),
        (10, (4, 0)),
        (10, (0, 11)),
        (1, (0, 1)),
        (1024, (1023, 1024)),
        (1025, (0, 0)),
        (MAX, (0, 0)),
        (10, (MAX, 1)),
        (10, (1, MAX)),
    ] {
        next(rt, n, blocks(after))?;
    }
    Ok(())
}

// An interval that wraps is not contained in one that does not, not even in the whole region.
fn containments(rt: &impl Print) -> io::Result<()> {
    for (n, a, b) in [
        (10, (3, 2), (2, 4)),
        (10, (2, 4), (3, 2)),
        (10, (2, 4), (2, 4)),
        (10, (9, 3), (8, 5)),
        (10, (0, 3), (8, 5)),
        (10, (0, 4), (8, 5)),
        (10, (8, 5), (0, 10)),
        (10, (6, 0), (2, 4)),
        (10, (7, 0), (2, 4)),
        (1024, (0, 1023), (1023, 1024)),
        (10, (10, 0), (2, 4)),
        (10, (0, 11), (2, 4)),
        (10, (2, 4), (10, 0)),
        (10, (2, 4), (0, 11)),
        (0, (0, 0), (0, 0)),
        (1025, (0, 1), (0, 1)),
        (MAX, (2, 4), (2, 4)),
        (10, (MAX, 1), (2, 4)),
        (10, (2, MAX), (2, 4)),
        (10, (2, 4), (MAX, 1)),
        (10, (2, 4), (2, MAX)),
    ] {
        contained(rt, n, blocks(a), blocks(b))?;
    }
    Ok(())
}

fn comparisons(rt: &impl Print) -> io::Result<()> {
    for (n, a, b) in [
        (10, (2, 4), (5, 4)),
        (10, (2, 4), (6, 2)),
        (10, (6, 2), (2, 4)),
        (10, (8, 5), (9, 2)),
        (10, (8, 5), (2, 2)),
        (10, (8, 5), (3, 5)),
        (10, (2, 2), (8, 5)),
        (10, (3, 5), (8, 5)),
        (10, (7, 2), (8, 5)),
        (1, (0, 1), (0, 1)),
        (1024, (1023, 1024), (0, 1)),
        (10, (10, 0), (2, 4)),
        (10, (0, 11), (2, 4)),
        (10, (2, 4), (10, 0)),
        (10, (2, 4), (0, 11)),
        (0, (0, 0), (0, 0)),
        (1025, (0, 1), (0, 1)),
        (MAX, (2, 4), (2, 4)),
        (10, (MAX, 1), (2, 4)),
        (10, (2, MAX), (2, 4)),
        (10, (2, 4), (MAX, 1)),
        (10, (2, 4), (2, MAX)),
    ] {
        compared(rt, n, blocks(a), blocks(b))?;
    }
    Ok(())
}

// An empty interval: inside another, at its ends, and at block 0.
fn empties(rt: &impl Print) -> io::Result<()> {
    for (n, a, b) in [
        (10, (4, 0), (2, 4)),
        (10, (2, 4), (4, 0)),
        (10, (2, 0), (2, 4)),
        (10, (6, 0), (2, 4)),
        (10, (4, 0), (4, 0)),
        (10, (9, 0), (8, 5)),
        (10, (1, 0), (8, 5)),
        (10, (8, 0), (8, 5)),
        (10, (3, 0), (8, 5)),
        (10, (0, 0), (8, 5)),
        (10, (8, 5), (0, 0)),
        (10, (0, 0), (0, 10)),
    ] {
        compared(rt, n, blocks(a), blocks(b))?;
    }
    Ok(())
}

fn locations(rt: &impl Print) -> io::Result<()> {
    for (n, of) in [
        (10, (0, 10)),
        (10, (9, 0)),
        (10, (8, 3)),
        (10, (10, 0)),
        (10, (0, 11)),
        (1, (0, 1)),
        (1024, (0, 1024)),
        (1024, (1023, 1)),
        (1024, (1023, 2)),
        (0, (0, 0)),
        (1025, (0, 1)),
        (MAX, (0, 1)),
        (10, (MAX, 1)),
        (10, (1, MAX)),
    ] {
        location(rt, n, blocks(of))?;
    }
    Ok(())
}

// The last two are whole blocks whose end is past the largest number.
fn intervals(rt: &impl Print) -> io::Result<()> {
    for (n, (addr, len)) in [
        (10, (40960, 8192)),
        (10, (8192, 40960)),
        (10, (45056, 0)),
        (10, (40961, 8192)),
        (10, (40959, 8192)),
        (10, (40960, 8193)),
        (10, (40960, 8191)),
        (10, (40960, 12288)),
        (10, (49152, 0)),
        (10, (4096, 4096)),
        (10, (0, 0)),
        (1, (8192, 4096)),
        (1024, (8192, 4194304)),
        (1024, (4198400, 4096)),
        (1024, (4202496, 0)),
        (0, (8192, 0)),
        (1025, (8192, 4096)),
        (MAX, (8192, 4096)),
        (10, (MAX, 4096)),
        (10, (8192, MAX)),
        (10, (WHOLE, 8192)),
        (10, (8192, WHOLE)),
    ] {
        interval(rt, n, Location { addr, len })?;
    }
    Ok(())
}

fn main(rt: HostRuntime) -> io::Result<()> {
    document(&rt)?;
    points(&rt)?;
    fronts(&rt)?;
    backs(&rt)?;
    nexts(&rt)?;
    containments(&rt)?;
    comparisons(&rt)?;
    empties(&rt)?;
    locations(&rt)?;
    intervals(&rt)
}
