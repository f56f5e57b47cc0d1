// The fence (document 02, [14]): the one place that judges what a call would store.
ghost use Rattle.std.specs.Prelude.{◌≡◌};
ghost use Rattle.memory.specs.Map.{within, landing_of};
ghost use Rattle.memory.specs.Writes.{listed};
ghost use Rattle.machine.specs.Fence.{everywhere, allows, barred_at, bars};

use crate::Settings;
use memory::{Landing, Writes};

// A range of a profile: first to last, both included. It is empty where first is above last.
#[derive(Clone, Copy, PartialEq, Eq)]
pub struct Range {
    pub first: u16,
    pub last: u16,
}

// 0000 to FFFF, then seven empty ranges.
pub fn all_allowed() -> [Range; 8]
    ensures { result ≡ everywhere }
{
    let mut profile = [Range { first: 1, last: 0 }; 8];
    profile[0] = Range {
        first: 0,
        last: 0xFFFF,
    };
    profile
}

fn holds(range: Range, place: u16) -> bool
    ensures { result ≡ within range.first range.last place }
{
    (range.first <= place) & (place <= range.last)
}

// Whether one of the ranges has the place.
fn allows(profile: &[Range], place: u16) -> bool
    ensures { result ≡ allows profile.now place }
{
    profile.iter().any(|range| holds(*range, place))
}

// Judged where the write lands, after mapping. A write that is ignored or goes to a device stores nothing.
fn is_barred(profile: &[Range], landing: Landing) -> bool
    ensures { result ≡ barred_at profile.now landing }
{
    match landing {
        Landing::Stored(place) => !allows(profile, place),
        Landing::Device | Landing::Ignored => false,
    }
}

// Whether one of the writes would store outside every range of the profile.
pub fn bars(settings: Settings, writes: Writes) -> bool
    ensures { result ≡ bars settings (listed writes) }
{
    writes.as_slice().iter().any(|one| {
        let landing = memory::lands(one.at, settings.ram_top, one.system);
        is_barred(&settings.profile, landing)
    })
}
