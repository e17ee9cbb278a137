//! The three calls for C and Rust: a slice arrives as a pointer and a length, an answer leaves by numbers.
#![tactic(auto)]

ghost use Rattle.ludwavyn.specs.Codes.{Told, CloseTold, RoundTold, AskTold};

use table::Refusal;

// Hands out an answer's two numbers, or a refusal's number and what 01 returns beside it, since C knows no `Result`.
fn tell(answer: Result<(usize, usize), Refusal>, first: &mut usize, second: &mut usize) -> u32
    ensures { Told answer result first.new second.new }
{
    match answer {
        Ok((one, two)) => {
            *first = one;
            *second = two;
            0
        }
        Err(why) => {
            *first = why.returned();
            *second = 0;
            why.number()
        }
    }
}

// Closes a rule set: `table::close`.
#[tactic(auto, unfolding(crate::specs::Codes::ToldClosing))]
#[unsafe(no_mangle)]
pub extern "C" fn lw_close(
    rules: &[u8],
    kinds: usize,
    capacity: usize,
    rounds: usize,
    table: &mut [u8],
    work: &mut [u8],
    first: &mut usize,
    second: &mut usize,
) -> u32
    ensures { CloseTold rules.now kinds capacity rounds table.old work.old result first.new second.new table.new work.new }
{
    let answer = table::close(rules, kinds, capacity, rounds, table, work);
    tell(
        answer.map(|closing| (closing.rows, closing.rounds)),
        first,
        second,
    )
}

// Runs one round on given rows: `table::round`.
#[tactic(auto, unfolding(crate::specs::Codes::ToldRounded, crate::specs::Codes::flag))]
#[unsafe(no_mangle)]
pub extern "C" fn lw_round(
    rules: &[u8],
    rows: &[u8],
    kinds: usize,
    capacity: usize,
    table: &mut [u8],
    work: &mut [u8],
    first: &mut usize,
    second: &mut usize,
) -> u32
    ensures { RoundTold rules.now rows.now kinds capacity table.old work.old result first.new second.new table.new work.new }
{
    let answer = table::round(rules, rows, kinds, capacity, table, work);
    tell(
        answer.map(|growth| (growth.rows, usize::from(growth.grew))),
        first,
        second,
    )
}

// Asks a table about an order: `table::ask`. Its answer has no second number.
#[tactic(auto, unfolding(crate::specs::Codes::ToldAnswer, crate::specs::Codes::flag))]
#[unsafe(no_mangle)]
pub extern "C" fn lw_ask(rows: &[u8], kinds: usize, order: &[u8], first: &mut usize) -> u32
    ensures { AskTold rows.now kinds order.now result first.new }
{
    let answer = table::ask(rows, kinds, order);
    tell(answer.map(|yes| (usize::from(yes), 0)), first, &mut 0)
}
