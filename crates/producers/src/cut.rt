// What is left to cut of a producer's rows, row by row.
ghost use Rattle.std.specs.Prelude.{◌≡◌, ◌≤◌};
ghost use Rattle.volumes.specs.Volumes.{most_volume};
ghost use Rattle.producers.specs.After.{cut_row};

use rules::Row;
use units::Tenths;

// What is left to cut of a producer's rows, and what its support rows have after the cut.
#[derive(Clone, Copy)]
pub(crate) struct CutRows {
    pub(crate) left: Tenths,
    pub(crate) support: Tenths,
}

impl CutRows {
    // With one of its rows more, which gives what it has until nothing is left to cut.
    pub(crate) fn with_row(self, r: Row) -> CutRows
        requires { self.support.0 ≤ most_volume }
        ensures { result ≡ cut_row self r }
    {
        let volume = Tenths::stated(r.volume);
        let left = self.left;
        let after = left.less(volume);
        let support = if r.consumer == 255 {
            self.support.plus(volume.less(left))
        } else {
            self.support
        };
        CutRows {
            left: after,
            support,
        }
    }
}
