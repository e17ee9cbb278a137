//! Runs framed cases of the three calls: reads them from standard input and writes one line for each.
#![tactic(auto)]

mod frame;
mod lines;

ghost use Rattle.std.specs.Prelude.{◌≡◌, ◌+◌, ◌≤◌, length, IfOk};
ghost use Rattle.vectors.specs.declared.Fault.TheVariants.{Io};
ghost use Rattle.vectors.specs.Cases.{CaseRun};
ghost use Rattle.vectors.specs.Parts.{FitsIn};

use frame::{Call, Case};
use input::read_full;
use lines::Answered;
use report::Page;
use std::io;
use std::io::{Read, Write};

// The longest table area that a case may ask for.
const TABLE_LIMIT: usize = 16512;

// The longest work area that a case may ask for.
const WORK_LIMIT: usize = 98432;

// The longest parts that a case may have.
const RULES_LIMIT: usize = 4224;

const ROWS_LIMIT: usize = 16512;

const ORDER_LIMIT: usize = 256;

// Makes the call that a case names, and writes its line.
fn answer(case: &Case, table: &mut [u8], work: &mut [u8], page: &mut Page<'_>)
    requires { page.old.at + 256 ≤ length page.old.out.now }
    ensures { CaseRun case.now table.old work.old page.old table.new work.new page.new }
{
    let head = case.head;
    let answered = match case.call {
        Call::Close => Answered::Closed(table::close(
            case.rules,
            head.kinds,
            head.capacity,
            head.rounds,
            table,
            work,
        )),
        Call::Round => Answered::Rounded(table::round(
            case.rules,
            case.rows,
            head.kinds,
            head.capacity,
            table,
            work,
        )),
        Call::Ask => Answered::Asked(table::ask(case.rows, head.kinds, case.order)),
    };
    lines::put_line(answered, table, work, page);
}

// Lends the areas that the head names, filled with its byte, and writes the case's line.
fn run<W: Write>(output: &mut W, case: &Case) -> io::Result<()>
    requires { (case.now.head.table ≤ TABLE_LIMIT) × (case.now.head.work ≤ WORK_LIMIT) }
{
    let head = case.head;
    let mut table = [head.fill; TABLE_LIMIT];
    let mut work = [head.fill; WORK_LIMIT];
    let mut line = [0u8; 256];
    let mut page = Page::new(&mut line);
    answer(
        case,
        &mut table[..head.table],
        &mut work[..head.work],
        &mut page,
    );
    let end = page.at;
    output.write_all(&line[..end])
}

// Why the program stops at a case: its frame is bad, or reading or writing failed.
#[derive(Drop)]
enum Fault {
    BadFrame,
    Io(io::Error),
}

impl From<io::Error> for Fault {
    ghost from_gives = { λ error fault. fault ≡ Io error };

    fn from(error: io::Error) -> Fault {
        Fault::Io(error)
    }
}

// Reads a part's length and its bytes into the front of `buffer`, which is as long as the part may be.
fn read_part<'a, R: Read>(reader: &mut R, buffer: &'a mut [u8]) -> Result<&'a [u8], Fault>
    ensures { IfOk result (λ part. FitsIn part.now (length buffer.old)) }
{
    let mut bytes = [0u8; 4];
    if read_full(reader, &mut bytes)? < bytes.len() {
        return Err(Fault::BadFrame);
    }
    let length = frame::number(&bytes);
    let part = buffer.get_mut(..length).ok_or(Fault::BadFrame)?;
    if read_full(reader, part)? < length {
        return Err(Fault::BadFrame);
    }
    Ok(part)
}

// Reads a frame and runs its case, and says whether there was one before the input's end: yes or no, with nothing beside it.
fn one_case<R: Read, W: Write>(reader: &mut R, output: &mut W) -> Result<bool, Fault> {
    let mut bytes = [0u8; 34];
    let n = read_full(reader, &mut bytes)?;
    if n == 0 {
        return Ok(false);
    }
    if n < bytes.len() {
        return Err(Fault::BadFrame);
    }
    let head = frame::head_of(&bytes);
    let call = head.call.ok_or(Fault::BadFrame)?;
    if head.table > TABLE_LIMIT || head.work > WORK_LIMIT {
        return Err(Fault::BadFrame);
    }
    let mut rules = [0u8; RULES_LIMIT];
    let mut rows = [0u8; ROWS_LIMIT];
    let mut order = [0u8; ORDER_LIMIT];
    let case = Case {
        call,
        head,
        rules: read_part(reader, &mut rules)?,
        rows: read_part(reader, &mut rows)?,
        order: read_part(reader, &mut order)?,
    };
    run(output, &case)?;
    Ok(true)
}

// Runs case after case, until the input ends or a frame is bad. The loop has to end, so it counts to a number that no input uses up.
fn main(rt: HostRuntime) -> io::Result<()> {
    let mut reader = rt.reader();
    let mut output = io::writer(&rt);
    for _ in 0..u64::MAX {
        match one_case(&mut reader, &mut output) {
            Ok(true) => {}
            Ok(false) => break,
            Err(Fault::BadFrame) => return output.write_all(b"bad frame\n"),
            Err(Fault::Io(error)) => return Err(error),
        }
    }
    Ok(())
}
