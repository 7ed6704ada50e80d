// The report: a row for each case, with what it gave and what it should be, and how many went wrong.
use crate::replies::Reply;
use crate::row::Row;
use limits::{Refusal, reply_number};
use std::fmt::Write as _;
use std::io::Write;

// What a lent line is filled with, so that what is kept can be told.
pub const FILL: u8 = b'.';

// Where a row's columns begin.
const CASE: usize = 9;

const GAVE: usize = 34;

const SHOULD: usize = 62;

// A row is put together first and then written at once.
#[derive(Drop)]
pub struct Report<W> {
    to: W,
    row: Row,
    cases: u32,
    wrong: u32,
}

impl<W: Write + Drop> Report<W> {
    pub fn new(to: W) -> Report<W> {
        Report {
            to,
            row: Row::new(),
            cases: 0,
            wrong: 0,
        }
    }

    // The columns in front of what was given.
    fn open(&mut self, operation: &str, case: &[u8]) {
        self.row.put(operation.as_bytes());
        self.row.column(CASE);
        self.row.put(case);
        self.row.column(GAVE);
    }

    // Writes the row and begins the next. A write that fails goes unnoticed, and the rows behind it are written all the same.
    fn print(&mut self) {
        self.row.put(b"\n");
        let _ = self.to.write_all(self.row.as_slice());
        self.row = Row::new();
    }

    // Ends the last row of a case, with a mark where it went wrong.
    fn close(&mut self, right: bool) {
        self.cases = self.cases.saturating_add(1);
        if !right {
            self.wrong = self.wrong.saturating_add(1);
            self.row.put(b"   WRONG");
        }
        self.print();
    }

    // What an operation gave beside what it should give. A row takes all that is formatted: its write! does not fail.
    fn put(&mut self, operation: &str, case: &[u8], gave: Reply, should: Reply) {
        self.open(operation, case);
        let _ = write!(self.row, "{gave}");
        self.row.column(SHOULD);
        let _ = write!(self.row, "should be {should}");
    }

    // A case of an operation that answers values.
    pub fn compare(&mut self, operation: &str, case: &str, gave: Reply, should: Reply) {
        self.put(operation, case.as_bytes(), gave, should);
        self.close(gave == should);
    }

    // A case of Line: what it answered and left in the lent line. Where a line should be written, what was written stands above it.
    pub fn line(
        &mut self,
        case: &[u8],
        answer: Result<(), Refusal>,
        lent: &[u8],
        number: u32,
        should: &[u8],
    ) {
        let gave = Reply::of(answer, |_| Reply::Written);
        let right = (reply_number(answer) == number) & (lent == should);
        // Kept: 0 for a line that should be written, as the file of cases has it.
        if number == 0 {
            self.open("line", case);
            match answer {
                Ok(()) => self.row.put(lent),
                Err(_) => {
                    let _ = write!(self.row, "{gave}");
                }
            }
            self.print();
            self.row.column(GAVE - 10);
            self.row.put(b"should be ");
            self.row.put(should);
        } else {
            self.put("line", case, gave, Reply::Refused(number));
            if !right {
                self.row.put(b", the lent line kept");
            }
        }
        self.close(right);
    }

    // A record of a case that is cut off.
    pub fn cut_off(&mut self) {
        self.open("line", b"a record is cut off");
        self.close(false);
    }

    // The last row.
    pub fn end(&mut self) {
        let cases = self.cases;
        let wrong = self.wrong;
        let _ = write!(self.row, "{cases} cases, {wrong} wrong");
        self.print();
    }
}
