// The lines that the format documents print, read from standard input: tests/published/expected.py writes them there.
// A record of 240 bytes has the case in 24 characters, the labels as bytes 4 to 25 of a hire block, the ten numbers in
// their fixed order, Line's answer in one byte, and what 113 lent bytes then hold.
use crate::report::{FILL, Report};
use decode::signed64;
use line::{Labels, Numbers};
use std::io::{Read, Stdin, Write};

const RECORD: usize = 240;

// A bound, so that the reading ends. No input has as many.
const MOST_RECORDS: usize = 1000;

// Reads until the buffer is full, the input ends or a read fails, and gives how many bytes stand at the buffer's front.
// Kept: a loop, as a read may give less than is asked for, and read_to_end wants memory without a bound.
fn read_full(from: &mut Stdin, buffer: &mut [u8]) -> usize {
    let mut done = 0;
    while done < buffer.len() {
        match from.read(&mut buffer[done..]) {
            Ok(0) | Err(_) => return done,
            Ok(n) => done += n,
        }
    }
    done
}

// The labels stand in a record as in a hire block that begins at its byte 20.
fn labels(record: &[u8; RECORD]) -> Labels {
    hire::labels(&record[20..])
}

fn numbers(record: &[u8; RECORD]) -> Numbers {
    Numbers {
        refsv: signed64(record, 46),
        srsv: signed64(record, 54),
        refsys: signed64(record, 62),
        srsys: signed64(record, 70),
        mdtr: signed64(record, 78),
        smdt: signed64(record, 86),
        mdio: signed64(record, 94),
        smdi: signed64(record, 102),
        dsg: signed64(record, 110),
        trkl: signed64(record, 118),
    }
}

fn try_record<W: Write + Drop>(report: &mut Report<W>, record: &[u8; RECORD]) {
    let mut lent = [FILL; 113];
    let answer = line::line(labels(record), numbers(record), &mut lent);
    report.line(
        &record[..24],
        answer,
        &lent,
        record[126] as u32,
        &record[127..],
    );
}

// Each record is tried before the next is read.
pub fn published_cases<W: Write + Drop>(report: &mut Report<W>, from: &mut Stdin) {
    for _ in 0..MOST_RECORDS {
        let mut record = [0; RECORD];
        match read_full(from, &mut record) {
            0 => return,
            RECORD => try_record(report, &record),
            _ => return report.cut_off(),
        }
    }
}
