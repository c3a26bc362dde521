// The checks of a licence: refusals 21 and 22.
ghost use Rattle.std.specs.Prelude.{◌≡◌, [], ◌≤◌, ◌<◌, ◌/◌, length};
ghost use Rattle.release.specs.Licence.{entries_of, bad_count, among, first_wrong};
ghost use Rattle.release.specs.Earlier.{earlier, wrong_at};

// The most numbers of a licence.
const NUMBERS: usize = 768;

const MOST_STATION: u32 = 65535;

const MOST_SEASONS: u32 = 15;

// In kcmil.
const MOST_AREA: u32 = 2000;

// Refusal 21.
pub fn bad_count(n: usize) -> bool
    ensures { result ≡ bad_count n }
{
    n == 0 || n % 3 != 0 || NUMBERS < n
}

// Whether a station stands in one of the first count entries.
fn stands_before(licence: &[u32], count: usize, station: u32) -> bool
    requires { count ≤ length licence.now / 3 }
    ensures { result ≡ among station (earlier licence.now count) }
{
    let mut found = false;
    for i in 0..count {
        found |= licence[3 * i] == station;
    }
    found
}

// The column at fault of the entry with index k.
fn wrong_column(licence: &[u32], k: usize) -> Option<usize>
    requires { k < length licence.now / 3 }
    ensures { result ≡ wrong_at licence.now k }
{
    let station = licence[3 * k];
    let seasons = licence[3 * k + 1];
    let area = licence[3 * k + 2];
    if !(1..=MOST_STATION).contains(&station) || stands_before(licence, k, station) {
        Some(1)
    } else if !(1..=MOST_SEASONS).contains(&seasons) {
        Some(2)
    } else if MOST_AREA < area {
        Some(3)
    } else {
        None
    }
}

// Refusal 22: the place of the first wrong entry, from 1, and its column at fault.
pub fn first_wrong(licence: &[u32]) -> Option<(usize, usize)>
    ensures { result ≡ first_wrong [] 1 (entries_of licence.now) }
{
    for k in 0..licence.len() / 3 {
        if let Some(column) = wrong_column(licence, k) {
            return Some((k + 1, column));
        }
    }
    None
}
