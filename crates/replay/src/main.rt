// Runs the proved functions on the stored cases of data/ and compares: every answer, and every buffer whole, also what a call was not to
// write. compare/README.md says how the cases were made and how they are laid out.
#![tactic(auto)]

mod geometry;
mod operation;
mod reading;
mod solver;

ghost use Rattle.std.specs.Prelude.{IfOk};
ghost use Rattle.replay.specs.Counting.{Counts};

use crate::operation::Operation;
use crate::reading::Case;
use std::fs::File;
use std::io;
use std::io::Read;
use std::rt::Files;

// A file's first eight bytes.
const MARK: [u8; 8] = *b"replay 2";

// How many cases of an operation were run, and how many of them differ.
#[derive(Clone, Copy)]
struct Tally {
    run: u32,
    differ: u32,
}

impl Tally {
    fn count(&mut self, agrees: bool) {
        self.run = self.run.saturating_add(1);
        if !agrees {
            self.differ = self.differ.saturating_add(1);
        }
    }
}

// A tally for each operation, by its number.
type Tallies = [Tally; Operation::COUNT];

// Reads until the buffer is full or the file ends, and answers how many bytes it put at the start.
fn read_full(file: &mut impl Read, buf: &mut [u8]) -> io::Result<usize>
    ensures { IfOk result (λ n. Counts n buf.new) }
{
    let mut done = 0;
    // stays: `read_exact` doesn't say how many bytes there were before the file ended, which a cut-off header is told by
    while done < buf.len() {
        let n = file.read(&mut buf[done..])?;
        if n == 0 {
            break;
        }
        done += n;
    }
    Ok(done)
}

// The next case of the file, put to the start of the buffer; none if there is none, it is cut off or longer than the buffer.
fn read_case<'b>(file: &mut impl Read, buf: &'b mut [u8]) -> io::Result<Option<&'b [u8]>> {
    let mut head = [0u8; 4];
    read_full(file, &mut head)?;
    let n = u32::from_le_bytes(head) as usize;
    if n == 0 || n > buf.len() {
        return Ok(None);
    }
    let case = &mut buf[..n];
    let read = read_full(file, case)?;
    Ok(if read == n { Some(case) } else { None })
}

// Runs a case, and tells if it differs.
fn run_case(rt: &impl Print, number: u32, bytes: &[u8], tallies: &mut Tallies) -> io::Result<()> {
    let mut case = Case::new(bytes);
    let operation = Operation::from(case.next::<u32>());
    let agrees = operation.agrees(&mut case);
    tallies[operation as usize].count(agrees);
    if !agrees {
        println!(rt; "case {number} differs")?;
    }
    Ok(())
}

// Runs the cases in turn, and answers how many there were.
fn run_cases(
    rt: &impl Print,
    file: &mut impl Read,
    cases: u32,
    tallies: &mut Tallies,
) -> io::Result<u32> {
    // longer than the longest case
    let mut buf = [0; 98304];
    for number in 0..cases {
        let Some(case) = read_case(file, &mut buf)? else {
            return Ok(number);
        };
        run_case(rt, number, case, tallies)?;
    }
    Ok(cases)
}

// The number of cases that the file says it has; 0 if it is no file of cases.
fn read_header(file: &mut impl Read) -> io::Result<u32> {
    let mut head = [0u8; 12];
    read_full(file, &mut head)?;
    let mut head = Case::new(&head);
    if head.take() != MARK {
        return Ok(0);
    }
    Ok(head.next())
}

// A file that can't be opened is told of, and the others are still replayed.
fn replay(rt: &(impl Files + Print + Eprint), name: &str, tallies: &mut Tallies) -> io::Result<()> {
    match File::open(rt, name) {
        Ok(mut file) => {
            let cases = read_header(&mut file)?;
            let found = run_cases(rt, &mut file, cases, tallies)?;
            println!(rt; "{name}: {found} of {cases} cases run")
        }
        Err(error) => eprintln!(rt; "{name}: {error}"),
    }
}

fn main(rt: HostRuntime) -> io::Result<()> {
    let none = Tally { run: 0, differ: 0 };
    let mut tallies = [none; Operation::COUNT];
    for name in ["solver.cases", "geometry.cases", "ranges.cases"] {
        replay(&rt, name, &mut tallies)?;
    }
    for operation in Operation::ALL {
        let tally = tallies[operation as usize];
        println!(&rt; "{operation} {} cases, {} differ", tally.run, tally.differ)?;
    }
    Ok(())
}
