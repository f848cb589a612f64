// The interleave: neighbouring sectors of a track are kept a step of records apart.
ghost use Rattle.std.specs.Prelude.{◌≡◌, ℕ, ◌*◌, ◌<◌, if◌then◌else◌, Some, None, nat_lt};
ghost use Rattle.sectors.specs.Interleave.{Interleaves, SharesNoFactor, record_of, sector_count, step_size, track_count};

// The tracks of a disk.
pub const TRACKS: u16 = 40;

// The sectors of a track.
pub const SECTORS: u16 = 8;

// The records from a sector's to the next one's, counted round the track.
pub const STEP: u16 = 5;

// The record that keeps a sector of the disk: the sector stays in its track.
pub(crate) fn interleaved(sector: u16) -> u16
    requires { sector < track_count * sector_count }
    ensures { result ≡ record_of sector_count step_size sector }
{
    SECTORS * (sector / SECTORS) + STEP * (sector % SECTORS) % SECTORS
}

// The record that keeps a sector, or nothing for a sector that the disk does not have.
pub fn record_of(sector: u16) -> Option<u16>
    ensures value { result ≡ (if nat_lt sector (track_count * sector_count) then Some (record_of sector_count step_size sector) else None) }
    ensures theorem { Interleaves track_count sector_count step_size }
    ensures general { (tracks sectors step : ℕ) → 0 < sectors → SharesNoFactor step sectors → Interleaves tracks sectors step }
{
    (sector < TRACKS * SECTORS).then(|| interleaved(sector))
}
