//! Reads rule records, closes them and writes the listing of the table.
#![tactic(auto)]

ghost use Rattle.std.specs.Prelude.{◌≡◌, ◌≤◌, length, take};
ghost use Rattle.listing.specs.Prints.{Lists};

use std::io;
use std::io::Write;

// Closes the rules with 32 kinds, capacity 256 and 10,000 rounds, and gives the length of the listing in `out`, of all of which something is promised.
fn list(rules: &[u8], out: &mut [u8]) -> usize
    requires { 65536 ≤ length out.old }
    ensures prefix_len { (result ≤ length out.new) × (result ≡ length (take result out.new)) }
    ensures lists { Lists rules.now out.old out.new result }
{
    let mut table = [0u8; 8192];
    let mut work = [0u8; 24576];
    let answer = table::close(rules, 32, 256, 10000, &mut table, &mut work);
    report::listing(answer, &table, out)
}

// One byte more than a rule set can have is read, so that a longer input is refused by its length.
fn main(rt: HostRuntime) -> io::Result<()> {
    let mut input = [0u8; 4097];
    let n = input::read_full(&mut rt.reader(), &mut input)?;
    let mut out = [0u8; 65536];
    let r = list(&input[..n], &mut out);
    io::writer(&rt).write_all(&out[..r])
}
