// What the rows of a sheet add up to for each producer, and how many it has.
#![tactic(auto)]

ghost use Rattle.std.specs.Prelude.{◌≡◌, ℕ, ◌<◌, get_or};
ghost use Rattle.rules.specs.Range.{listed};
ghost use Rattle.volumes.specs.Volumes.{Fits, volumes_in, no_volumes, with_row};

use rules::{Layout, Row};
use sheet::Sheet;
use units::Tenths;

// The volumes of a producer's support rows (T) and bilateral rows (B), and how many rows it has.
#[derive(Clone, Copy)]
pub struct Volumes {
    pub support: Tenths,
    pub bilateral: Tenths,
    pub rows: u8,
}

impl Volumes {
    // Before the first row.
    pub const NONE: Volumes = Volumes {
        support: Tenths(0),
        bilateral: Tenths(0),
        rows: 0,
    };

    // With a row of the producer more.
    fn with_row(self, r: Row) -> Volumes
        requires { Fits self × (self.rows < 255) }
        ensures { result ≡ with_row self r }
    {
        let volume = Tenths::stated(r.volume);
        let rows = self.rows + 1;
        if r.consumer == 255 {
            Volumes {
                support: self.support.plus(volume),
                rows,
                ..self
            }
        } else {
            Volumes {
                bilateral: self.bilateral.plus(volume),
                rows,
                ..self
            }
        }
    }
}

// T, B and the rows of six producers, as many as a sheet may have. A row of another producer counts for none,
// and no row where the sheet ends too soon, which no `Sheet` does: so it takes bytes and a layout.
pub fn row_volumes(s: &[u8], layout: Layout, all: &mut [Volumes; 6])
    ensures volumes { all.new ≡ listed (volumes_in layout s.now) 6 }
    ensures fits { (p : ℕ) → p < 6 → Fits (get_or all.new p no_volumes) }
{
    *all = [Volumes::NONE; 6];
    let Some(sheet) = Sheet::of(s, layout) else {
        return;
    };
    for j in 0..sheet.layout.header.rows {
        let r = sheet.row(j);
        if r.producer < 6 {
            let p = r.producer as usize;
            all[p] = all[p].with_row(r);
        }
    }
}
