// Prints the bench table of the paper, cases A to G: case, refusal number (0 if none), counts in edge order (- if there are none).
#![tactic(auto)]

use base::refusal::Refusal;
use base::verdict::Verdict;
use regions::region::{RECORD_SIZE, SIDE_SIZE};
use std::{fmt, io};

type Record = [u16; RECORD_SIZE];

// The record of a region with these edges on its sides: bottom, right, top, left.
fn record(sides: [&[u16]; 4]) -> Record {
    let mut record = [0; RECORD_SIZE];
    for (side, edges) in record.chunks_exact_mut(SIDE_SIZE).zip(sides) {
        put_side(side, edges);
    }
    record
}

// How many edges there are, then these.
fn put_side(side: &mut [u16], edges: &[u16]) {
    let Some((number, places)) = side.split_first_mut() else {
        return;
    };
    for (place, edge) in places.iter_mut().zip(edges) {
        *place = *edge;
        *number = number.saturating_add(1);
    }
}

// A row of the table.
#[derive(Clone, Copy)]
struct Row<'a> {
    name: &'a str,
    answer: Result<u32, Refusal>,
    counts: &'a [u32],
}

impl<'a> fmt::Display for Row<'a> {
    fn fmt<W: fmt::Write>(&self, f: &mut fmt::Formatter<W>) -> fmt::Result {
        match self.answer {
            Ok(_) => {
                write!(f, "{} 0 ", self.name)?;
                write_counts(f, self.counts)
            }
            Err(refusal) => write!(f, "{} {} -", self.name, Verdict::from(refusal).number),
        }
    }
}

fn write_counts<W: fmt::Write>(f: &mut fmt::Formatter<W>, counts: &[u32]) -> fmt::Result {
    let Some((first, others)) = counts.split_first() else {
        return write!(f, "-");
    };
    write!(f, "{first}")?;
    for count in others {
        write!(f, ",{count}")?;
    }
    Ok(())
}

// The paper made its table with the limit 100,000, which every solve had then: so it is stated.
fn print_case(
    rt: &impl Print,
    name: &str,
    records: &[Record],
    ideals: &[f64],
    counts: &mut [u32],
) -> io::Result<()> {
    let regions = records.as_flattened();
    let answer = counts::solve_counts(regions, ideals, counts, Some(100_000));
    let row = Row {
        name,
        answer,
        counts,
    };
    println!(rt; "{row}")
}

fn main(rt: HostRuntime) -> io::Result<()> {
    let rt = &rt;
    // two regions that share edge 1
    let shared = [
        record([&[0], &[1], &[2], &[3]]),
        record([&[4], &[5], &[6], &[1]]),
    ];
    print_case(
        rt,
        "A",
        &shared,
        &[4.0, 2.0, 4.0, 2.0, 2.0, 2.0, 2.0],
        &mut [0; 7],
    )?;
    // opposite ideals that differ
    let one = [record([&[0], &[1], &[2], &[3]])];
    print_case(rt, "B", &one, &[5.0, 3.0, 1.0, 3.0], &mut [0; 4])?;
    // a side of two edges
    let two_edges = [record([&[0], &[1], &[2, 3], &[4]])];
    print_case(rt, "C", &two_edges, &[4.0, 1.0, 2.0, 2.0, 1.0], &mut [0; 5])?;
    // nothing
    print_case(rt, "D", &[], &[], &mut [])?;
    // a side that no other balances
    let alone = [record([&[0], &[], &[], &[]])];
    print_case(rt, "E", &alone, &[3.0], &mut [0])?;
    // a loop of two regions
    let twice = record([&[0], &[], &[1], &[]]);
    print_case(rt, "F", &[twice, twice], &[1.0, 1.0], &mut [0; 2])?;
    // an edge on both sides of a constraint
    let both_sides = [record([&[0], &[1], &[0], &[2]])];
    print_case(rt, "G", &both_sides, &[1.0, 1.0, 1.0], &mut [0; 3])
}
