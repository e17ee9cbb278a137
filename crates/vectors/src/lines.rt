// The lines of answers.
ghost use Rattle.std.specs.Prelude.{◌+◌, ◌≤◌, length};
ghost use Rattle.report.specs.Pages.{Room, Puts};
ghost use Rattle.vectors.specs.Lines.{growth_words, answer_words, sums_of, line_of};

use crate::frame::checksum;
use report::Page;
use table::{Closing, Growth, Refusal};

// What a case's call answered.
#[derive(Clone, Copy)]
pub enum Answered {
    Closed(Result<Closing, Refusal>),
    Rounded(Result<Growth, Refusal>),
    Asked(Result<bool, Refusal>),
}

// Writes a round's rows and whether it grew.
fn put_growth(growth: Growth, page: &mut Page<'_>)
    requires { Room (growth_words growth) page.old }
    ensures { Puts (growth_words growth) page.old page.new }
{
    page.text(b"round ");
    page.decimal(growth.rows);
    page.text(if growth.grew { b" grew" } else { b" still" });
}

// Writes what a call answered, or its refusal.
fn put_answer(answered: Answered, page: &mut Page<'_>)
    requires { Room (answer_words answered) page.old }
    ensures { Puts (answer_words answered) page.old page.new }
{
    match answered {
        Answered::Closed(Ok(closing)) => page.closed(closing),
        Answered::Rounded(Ok(growth)) => put_growth(growth, page),
        Answered::Asked(Ok(true)) => page.text(b"yes"),
        Answered::Asked(Ok(false)) => page.text(b"no"),
        Answered::Closed(Err(why)) | Answered::Rounded(Err(why)) | Answered::Asked(Err(why)) => {
            page.refused(why)
        }
    }
}

// Writes the checksums of the areas that the call was lent; an asking is lent none.
#[tactic(auto, using(report::proofs::Puts::puts_none))]
fn put_sums(answered: Answered, table: &[u8], work: &[u8], page: &mut Page<'_>)
    requires { Room (sums_of answered table.now work.now) page.old }
    ensures { Puts (sums_of answered table.now work.now) page.old page.new }
{
    match answered {
        Answered::Closed(_) | Answered::Rounded(_) => {
            page.numbers(b" ", checksum(table), b' ', checksum(work))
        }
        Answered::Asked(_) => {}
    }
}

// Writes the line of an answer, which has at most 256 bytes.
#[tactic(auto, using(crate::proofs::Lengths::answer_few, crate::proofs::Lengths::sums_few))]
pub fn put_line(answered: Answered, table: &[u8], work: &[u8], page: &mut Page<'_>)
    requires { page.old.at + 256 ≤ length page.old.out.now }
    ensures { Puts (line_of answered table.now work.now) page.old page.new }
{
    put_answer(answered, page);
    put_sums(answered, table, work, page);
    page.byte(b'\n');
}
