// The reader: what stands in a data line. It takes any bytes and answers the labels and the ten numbers of the line, or its
// first refusal, in the order of document 02, Job 1: 12 for the length, 14 for CK, 13 for a character that is not allowed in its column,
// 7 for labels and track lengths and 8 for starts that Line would refuse. Crate reading answers that; a second function gives the comment
// behind the columns.
#![tactic(auto)]

ghost use Rattle.reader.specs.Comment.{comment_offset};
ghost use Rattle.reader.specs.Part.{PartFrom};

use columns::LINE_LENGTH;
pub use reading::{Reading, read};

// The comment: the part of the line from column 114 on, or the empty part at its end where the line is refused.
pub fn comment(line: &[u8]) -> &[u8]
    ensures { PartFrom (comment_offset line.now) line.entry result }
{
    let Ok(_) = read(line) else {
        return &line[line.len()..];
    };
    &line[LINE_LENGTH..]
}
