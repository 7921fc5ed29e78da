// Instants: whole seconds from 1970, negative before.
ghost use Rattle.std.specs.Prelude.{◌≡◌};
ghost use Rattle.time.specs.Time.{local_seconds, offset, instant_of};

use crate::{Existing, calendar};

// The seconds from 0001-01-01T00:00:00 to 1970-01-01T00:00:00.
const EPOCH: i64 = 62_135_596_800;

impl Existing {
    // The seconds from 0001-01-01T00:00:00 to what the calendar and the clock say.
    fn local_seconds(self) -> u64
        ensures { result ≡ local_seconds self.stamp }
    {
        let t = self.stamp;
        86_400 * calendar::days_before(t.year, t.month, t.day)
            + 3_600 * t.hour
            + 60 * t.minute
            + t.second
    }

    // How far the clock is ahead of UTC, in seconds; negative to the west of it.
    fn offset(self) -> i64
        ensures { result ≡ offset self.stamp }
    {
        let t = self.stamp;
        let seconds = (3_600 * t.offset_hour + 60 * t.offset_minute) as i64;
        if t.west { -seconds } else { seconds }
    }

    // The instant that a stamp names: the offset is taken off.
    pub fn instant(self) -> i64
        ensures { result ≡ instant_of self.stamp }
    {
        self.local_seconds() as i64 - EPOCH - self.offset()
    }
}
