//! The listing program's text, written into a buffer that the caller lends.
#![tactic(auto)]

mod page;

ghost use Rattle.std.specs.Prelude.{◌*◌, ◌/◌, ◌≤◌, ◌≡◌, true, length};
ghost use Rattle.report.specs.Buffer.{Written};
ghost use Rattle.report.specs.Text.{pairs, line, lines, closed_words, refused_words, closed_text, refused_text, listed, rows_in};

pub use page::Page;
use table::{Closing, Refusal};

impl Page<'_> {
    ghost use Rattle.report.specs.Pages.{Room, Puts};

    // Writes an answer's rows and growing rounds, and not by `Display`, which says what it wrote only where writing succeeds.
    pub fn closed(&mut self, closing: Closing)
        requires { Room (closed_words closing) self.old }
        ensures { Puts (closed_words closing) self.old self.new }
    {
        self.numbers(b"closed ", closing.rows, b' ', closing.rounds);
    }

    // Writes a refusal with both its numbers, as its `Display` does (`refused_same`), but always.
    pub fn refused(&mut self, why: Refusal)
        requires { Room (refused_words why) self.old }
        ensures { Puts (refused_words why) self.old self.new }
    {
        self.numbers(b"refused ", why.number() as usize, b' ', why.returned());
    }

    // Writes "kind:count" for each of a row's counts above 0, in kind order, with a space before each but the first.
    fn pairs(&mut self, row: &[u8])
        requires { Room (pairs true 0 row.now) self.old }
        ensures { Puts (pairs true 0 row.now) self.old self.new }
    {
        let mut gap: &[u8] = b"";
        for (kind, &count) in row.iter().enumerate() {
            // named, so that what is proved of it keeps its name
            let shown = count > 0;
            if shown {
                self.numbers(gap, kind, b':', count as usize);
                gap = b" ";
            }
        }
    }

    // Writes a row's line: its pairs and a line feed.
    fn line(&mut self, row: &[u8])
        requires { Room (line row.now) self.old }
        ensures { Puts (line row.now) self.old self.new }
    {
        self.pairs(row);
        self.byte(b'\n');
    }

    // Writes a line for each of the rows, which stay bytes, as the definition `lines` cuts them.
    fn lines(&mut self, rows: &[u8])
        requires { Room (lines (length rows.now / 32) rows.now) self.old }
        ensures { Puts (lines (length rows.now / 32) rows.now) self.old self.new }
    {
        for row in rows.chunks_exact(32) {
            self.line(row);
        }
    }

    // Writes the listing of a closed table: its first line, then a line a row.
    fn closed_listing(&mut self, closing: Closing, table: &[u8])
        requires rows_in_bounds { closing.rows * 32 ≤ length table.now }
        requires room { Room (closed_text closing table.now) self.old }
        ensures { Puts (closed_text closing table.now) self.old self.new }
    {
        self.closed(closing);
        self.byte(b'\n');
        self.lines(&table[..closing.rows * 32]);
    }

    // Writes the one line of a refusal: two calls, as in `line`, and a function for both would be longer.
    fn refused_line(&mut self, why: Refusal)
        requires { Room (refused_text why) self.old }
        ensures { Puts (refused_text why) self.old self.new }
    {
        self.refused(why);
        self.byte(b'\n');
    }
}

// Writes the listing of an answer and of the rows at the front of the table area, and gives its length: what is promised of the buffer is of all of it.
pub fn listing(answer: Result<Closing, Refusal>, table: &[u8], out: &mut [u8]) -> usize
    requires { (rows_in answer * 32 ≤ length table.now) × (rows_in answer ≤ 256) × (65536 ≤ length out.old) }
    ensures written { Written (listed answer table.now) 0 out.old out.new result }
    ensures upper_bound { result ≤ 65536 }
{
    let mut page = Page::new(out);
    match answer {
        Ok(closing) => page.closed_listing(closing, table),
        Err(why) => page.refused_line(why),
    }
    page.at
}
