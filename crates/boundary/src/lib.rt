// Every function that C calls, with numbers and slices of them, and nothing else: the start test, Line, Block, the reader, merge, common view,
// delays by date, a day at once, Path, and lines down to version 01 and up. Each is one call, and its contract is that call's; what the reader,
// common view or a lookup hands back goes to a lent row, a length or an index to a lent place.
// include/trackline.h declares them; the archive is made of this crate.
// Kept: numbers one by one, and a refusal as its number, as C has them.
#![tactic(auto)]

ghost use Rattle.std.specs.Prelude.{◌≡◌, suc, length};
ghost use Rattle.limits.specs.Refusal.{after};
ghost use Rattle.schedule.specs.Schedule.{start_number};
ghost use Rattle.exact.specs.Accurate.{AccurateTrack};
ghost use Rattle.exact.specs.Corrected.{steps};
ghost use Rattle.columns.specs.Columns.{read_numbers};
ghost use Rattle.line.specs.Line.{line_answer, line_after};
ghost use Rattle.hire.specs.Hire.{blocks_in, block_given};
ghost use Rattle.line.specs.Block.{block_answer, block_after};
ghost use Rattle.labels.specs.Given.{labels_of, numbers_of};
ghost use Rattle.reader.specs.Comment.{comment_offset};
ghost use Rattle.merging.specs.Merge.{merged_file, merge_number, merge_after};
ghost use Rattle.delays.specs.Store.{version, count, store_length_lem};
ghost use Rattle.delays.specs.Append.{append_number, append_after};
ghost use Rattle.day.specs.Day.{day_file, day_number, day_block, day_after, LinesOfDay, AccurateDay};
ghost use Rattle.version01.specs.Convert.{down_answer, down_after, up_answer, up_after};
ghost use Rattle.boundary.specs.Values.{refused_after, read_answer, read_after, view_answer, view_after, delays_answer, delays_after};
ghost use Rattle.path.specs.Path.{path_number, length_of};

use delays::Delays;
use labels::Supplied;
use limits::reply_number;
use line::{Labels, Numbers};
use path::Point;

mod values;

#[unsafe(no_mangle)]
pub extern "C" fn trackline_start(mjd: u32, second: u32) -> u32
    ensures { result ≡ start_number mjd second }
{
    reply_number(schedule::start(mjd, second))
}

#[unsafe(no_mangle)]
pub extern "C" fn trackline_block(block: &[u8], lent: &mut [u8]) -> u32
    ensures answer { result ≡ block_answer block.now (length lent.old) }
    ensures written { lent.new ≡ block_after block.now lent.old }
    ensures accurate { result ≡ 0 → AccurateTrack steps (blocks_in block.now) (block_given block.now)
        (read_numbers lent.new) }
{
    reply_number(line::block(block, lent))
}

#[unsafe(no_mangle)]
pub extern "C" fn trackline_line(
    constellation: u8,
    satellite: u8,
    cl: u8,
    fr: u8,
    hc: u8,
    frc1: u8,
    frc2: u8,
    frc3: u8,
    mjd: u32,
    start: u32,
    elv: u16,
    azth: u16,
    ioe: u16,
    refsv: i64,
    srsv: i64,
    refsys: i64,
    srsys: i64,
    mdtr: i64,
    smdt: i64,
    mdio: i64,
    smdi: i64,
    dsg: i64,
    trkl: i64,
    lent: &mut [u8],
) -> u32
    ensures answer { result ≡ line_answer
        (labels_of constellation satellite cl fr hc frc1 frc2 frc3 mjd start elv azth ioe)
        (numbers_of refsv srsv refsys srsys mdtr smdt mdio smdi dsg trkl)
        (length lent.old) }
    ensures written { lent.new ≡ line_after
        (labels_of constellation satellite cl fr hc frc1 frc2 frc3 mjd start elv azth ioe)
        (numbers_of refsv srsv refsys srsys mdtr smdt mdio smdi dsg trkl)
        lent.old }
{
    let labels = Labels {
        constellation,
        satellite,
        cl,
        fr,
        hc,
        frc1,
        frc2,
        frc3,
        mjd,
        start,
        elv,
        azth,
        ioe,
    };
    let numbers = Numbers {
        refsv,
        srsv,
        refsys,
        srsys,
        mdtr,
        smdt,
        mdio,
        smdi,
        dsg,
        trkl,
    };
    reply_number(line::line(labels, numbers, lent))
}

// The values of a line go to the first 23 of the lent places.
#[unsafe(no_mangle)]
pub extern "C" fn trackline_read(line: &[u8], lent: &mut [i64]) -> u32
    ensures answer { result ≡ read_answer line.now (length lent.old) }
    ensures written { lent.new ≡ read_after line.now lent.old }
{
    let answer = reader::read(line);
    let Ok(reading) = answer else {
        return reply_number(answer);
    };
    let row = values::values(reading);
    reply_number(values::put(&row, lent))
}

// Where the comment begins: what is left of the line before it.
#[unsafe(no_mangle)]
pub extern "C" fn trackline_comment(line: &[u8]) -> usize
    ensures { result ≡ comment_offset line.now }
{
    let comment = reader::comment(line);
    line.len() - comment.len()
}

// The lines of both files go to the lent file, and their length to the lent place.
#[unsafe(no_mangle)]
pub extern "C" fn trackline_merge(
    first: &[u8],
    second: &[u8],
    file: &mut [u8],
    written: &mut usize,
) -> u32
    ensures answer { result ≡ merge_number first.now second.now (length file.old) }
    ensures file { file.new ≡ merge_after first.now second.now file.old }
    ensures written { written.new ≡ after result (length (merged_file first.now second.now)) written.old }
{
    let answer = files::merge(first, second, file);
    let Ok(bytes) = answer else {
        return reply_number(answer);
    };
    *written = bytes;
    0
}

// The lines of all blocks go to the lent file and their length to one lent place; the block that a refusal names goes to the other.
#[unsafe(no_mangle)]
pub extern "C" fn trackline_day(
    blocks: &[u8],
    file: &mut [u8],
    written: &mut usize,
    block: &mut usize,
) -> u32
    ensures answer { result ≡ day_number blocks.now (length file.old) }
    ensures file { file.new ≡ day_after blocks.now file.old }
    ensures written { written.new ≡ after result (length (day_file blocks.now)) written.old }
    ensures block { block.new ≡ refused_after result (day_block blocks.now) block.old }
    ensures lines { result ≡ 0 → LinesOfDay blocks.now file.new }
    ensures accurate { result ≡ 0 → AccurateDay blocks.now file.new }
{
    match day::day(blocks, file) {
        Ok(file_length) => {
            *written = file_length;
            0
        }
        Err(rejected) => {
            *block = rejected.block;
            u32::from(rejected.refusal)
        }
    }
}

// The report on two files goes to the first four of the lent places.
#[unsafe(no_mangle)]
pub extern "C" fn trackline_view(first: &[u8], second: &[u8], lent: &mut [i64]) -> u32
    ensures answer { result ≡ view_answer first.now second.now (length lent.old) }
    ensures written { lent.new ≡ view_after first.now second.now lent.old }
{
    let answer = files::common_view(first, second);
    let Ok(figures) = answer else {
        return reply_number(answer);
    };
    let row = [
        figures.pairs,
        figures.sum,
        figures.smallest,
        figures.largest,
    ];
    reply_number(values::put(&row, lent))
}

// The delays in force at a date go to the first four of the lent places: INT, CAB, REF and GD.
#[unsafe(no_mangle)]
pub extern "C" fn trackline_delays(store: &[u8], mjd: u32, lent: &mut [i64]) -> u32
    ensures answer { result ≡ delays_answer store.now mjd (length lent.old) }
    ensures written { lent.new ≡ delays_after store.now mjd lent.old }
{
    let answer = delays::lookup(store, mjd);
    let Ok(delays) = answer else {
        return reply_number(answer);
    };
    let row = [delays.int, delays.cab, delays.refdly, delays.gd];
    reply_number(values::put(&row, lent))
}

// The store with one entry more goes to the lent buffer, and its length to the lent place.
#[unsafe(no_mangle)]
pub extern "C" fn trackline_append(
    store: &[u8],
    mjd: u32,
    intdly: i64,
    cabdly: i64,
    refdly: i64,
    gd: i64,
    longer: &mut [u8],
    written: &mut usize,
) -> u32
    ensures answer { result ≡ append_number store.now mjd intdly cabdly refdly gd (length longer.old) }
    ensures longer { longer.new ≡ append_after store.now mjd intdly cabdly refdly gd longer.old }
    ensures written { written.new ≡ after result (store_length_lem (version store.now) (suc (count store.now))) written.old }
{
    let delays = Delays {
        int: intdly,
        cab: cabdly,
        refdly,
        gd,
    };
    let answer = delays::append(store, mjd, delays, longer);
    let Ok(length) = answer else {
        return reply_number(answer);
    };
    *written = length;
    0
}

// The length of the straight path between satellite and antenna goes to the lent place.
#[unsafe(no_mangle)]
pub extern "C" fn trackline_path(
    xs: f64,
    ys: f64,
    zs: f64,
    xa: f64,
    ya: f64,
    za: f64,
    length: &mut f64,
) -> u32
    ensures answer { result ≡ path_number (record { x = xs; y = ys; z = zs }) (record { x = xa; y = ya; z = za }) }
    ensures written { length.new
        ≡ after result (length_of (record { x = xs; y = ys; z = zs }) (record { x = xa; y = ya; z = za })) length.old }
{
    let satellite = Point {
        x: xs,
        y: ys,
        z: zs,
    };
    let antenna = Point {
        x: xa,
        y: ya,
        z: za,
    };
    let answer = path::path(satellite, antenna);
    let Ok(millimetres) = answer else {
        return reply_number(answer);
    };
    *length = millimetres;
    0
}

// A line in the form of version 01 goes to the first 103 bytes of the lent line.
#[unsafe(no_mangle)]
pub extern "C" fn trackline_down(line: &[u8], old: &mut [u8]) -> u32
    ensures answer { result ≡ down_answer line.now (length old.old) }
    ensures written { old.new ≡ down_after line.now old.old }
{
    reply_number(version01::down(line, old))
}

// A line of version 01 in our form, with the HC and the FRC that are supplied, goes to the first 113 bytes of the lent line.
#[unsafe(no_mangle)]
pub extern "C" fn trackline_up(
    old: &[u8],
    hc: u8,
    frc1: u8,
    frc2: u8,
    frc3: u8,
    line: &mut [u8],
) -> u32
    ensures answer { result ≡ up_answer hc frc1 frc2 frc3 old.now (length line.old) }
    ensures written { line.new ≡ up_after hc frc1 frc2 frc3 old.now line.old }
{
    let supplied = Supplied {
        hc,
        frc1,
        frc2,
        frc3,
    };
    reply_number(version01::up(old, supplied, line))
}
