// The start test of the track schedule: whether a second of a date is the start of one of its tracks.
// It refuses a date that is out of range with 7, and a second that is no start with 8.
#![tactic(auto)]

ghost use Rattle.std.specs.Prelude.{◌≡◌, ◌-◌, ◌≤◌};
ghost use Rattle.schedule.specs.Schedule.{first_date, last_date, is_start_lem, start_number};
ghost use Rattle.limits.specs.Numbers.{number_of};

use limits::Refusal;

const FIRST_DATE: u32 = 50722;

const LAST_DATE: u32 = 99999;

const TRACKS: u32 = 89;

// The minutes after which the tracks repeat: 23 h 56 min.
const REPEAT_PERIOD: u32 = 1436;

// The minutes by which the tracks of a day start earlier than those of the day before.
const EARLIER: u32 = 4;

// Whether a track starts at that second, n days after the first date. since_first is the time since the first track in minutes, less whole
// repeats.
fn is_start(n: u32, second: u32) -> bool
    requires { n ≤ last_date - first_date }
    ensures { result ≡ is_start_lem n second }
{
    let minute = second / 60;
    let since_first = (minute + EARLIER * n + REPEAT_PERIOD - 2) % REPEAT_PERIOD;
    (second % 60 == 0)
        & (minute < REPEAT_PERIOD)
        & (since_first % 16 == 0)
        & (since_first / 16 < TRACKS)
}

// The start test.
pub fn start(mjd: u32, second: u32) -> Result<(), Refusal>
    ensures { number_of result ≡ start_number mjd second }
{
    if (mjd < FIRST_DATE) | (LAST_DATE < mjd) {
        return Err(Refusal::Label);
    }
    if !is_start(mjd - FIRST_DATE, second) {
        return Err(Refusal::Start);
    }
    Ok(())
}
