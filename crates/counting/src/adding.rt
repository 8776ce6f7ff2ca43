// The paths of a report added up, from the last to the first.
ghost use Rattle.std.specs.Prelude.{◌≡◌};
ghost use Rattle.counting.specs.Working.Adding.{Room, Added, Adds, parts_in, added_up};

use crate::sizes::path_size;
use crate::{Counted, KIND_PLACES, MOST_PATHS};
use blocks::layout::{EXIT_HIGH, EXIT_LOW, KIND};
use blocks::report::record_word;

// The kind of exit, as a record's word says it.
const EXIT: usize = 1;

// A value, and how many choices lead to it.
#[derive(Clone, Copy)]
struct Entry {
    value: u64,
    count: u64,
}

// Entries in the first `used` places, their values rising. A fixed array, as there is no heap.
#[derive(Drop)]
struct Entries {
    places: [Entry; MOST_PATHS],
    used: usize,
}

impl Entries {
    // Adds to the entry of that value, or puts a new one to its place.
    fn add(&mut self, entry: Entry)
        requires { Room self.old.places self.old.used entry }
        ensures { Added self.old.places self.old.used entry self.new.places self.new.used }
    {
        let mut carried = entry;
        for i in 0..self.used {
            let here = self.places[i];
            if carried.value == here.value {
                self.places[i].count += carried.count;
                return;
            }
            if carried.value < here.value {
                self.places[i] = carried;
                carried = here;
            }
        }
        self.places[self.used] = carried;
        self.used += 1;
    }
}

// The choices of the first `count` records of a report, by what they lead to.
pub(crate) fn add_up(report: &[u8], inputs: usize, count: usize, total: u64) -> Counted
    requires { Adds report.now inputs count total }
    ensures { result ≡ added_up (parts_in inputs report.now count) total }
{
    let mut exits = Entries {
        places: [Entry { value: 0, count: 0 }; MOST_PATHS],
        used: 0,
    };
    let mut kinds = [0u64; KIND_PLACES];
    let mut varying: u64 = 0;
    for k in (0..count).rev() {
        let size = path_size(report, inputs, k);
        let kind = record_word(report, inputs, k, KIND) as usize;
        let low = record_word(report, inputs, k, EXIT_LOW);
        let high = record_word(report, inputs, k, EXIT_HIGH);
        if kind != EXIT {
            kinds[kind] += size;
        } else if low == high {
            exits.add(Entry {
                value: low,
                count: size,
            });
        } else {
            varying += size;
        }
    }
    Counted {
        refused: 0,
        used: exits.used as u64,
        values: exits.places.map(|e| e.value),
        choices: exits.places.map(|e| e.count),
        varying,
        kinds,
        total,
    }
}
