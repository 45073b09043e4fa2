// The ends of a line just made: making them is the one step that can fail for want of memory.
ghost use Rattle.std.specs.Prelude.{◌≡◌, ◌-◌, ◌*◌, replicate, IfOk};
ghost use Rattle.line.specs.Making.{stations_of};
ghost use Rattle.rules.specs.Ends.{idle};

use station::Station;
use std::alloc::{AllocError, Global};
use std::marker::Model;

// Both ends of every block, block by block, the west end before the east end.
#[derive(Drop)]
pub struct Ends {
    pub(crate) stations: Vec<Station>,
}

// Clauses see what the ends keep. No line has more than 15 blocks.
impl Model for Ends {
    ghost use Rattle.rules.specs.Ends.{Kept};
    ghost use Rattle.station.specs.Records.{kept};
    ghost use Rattle.std.specs.Prelude.{◌≤◌, List, map, vec_len};

    ghost Value = { List Kept };

    ghost view = { λ e. map kept e.stations.items };

    ghost invariant = { λ e. vec_len e.stations ≤ 30 };
}

impl Ends {
    // The ends of a line of so many stations, each idle from a start number.
    pub fn new(heap: Global, stations: u32, start: u32) -> Result<Ends, AllocError>
        ensures { IfOk result (λ e. e ≡ replicate (2 * (stations_of stations - 1)) (idle start)) }
    {
        let blocks = stations.clamp(2, 16) - 1;
        let mut ends = Vec::new(heap);
        for _ in 0..2 * blocks {
            ends.push(Station::new(heap, start)?)?;
        }
        Ok(Ends { stations: ends })
    }
}
