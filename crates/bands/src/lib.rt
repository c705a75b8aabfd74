// The band tables, and the parts of a reference that they are read by.
#![tactic(auto)]

ghost use Rattle.std.specs.Prelude.{◌≡◌};
ghost use Rattle.rules.specs.Bands.{parts_of, factor_of, band_of};
ghost use Rattle.rules.specs.Text2015.{bands_2015};

use rules::Band;
use units::nearest;

// An excess in parts of a reference; over a reference of 0 any excess is the figure that is given for it. The
// caller takes the excess so many times as a whole has parts, since it knows that the product fits.
#[tactic(auto, unfolding(rules::specs::Bands::parts_of, rules::specs::Bands::over_nothing))]
pub fn parts_of(beyond: u64, times: u64, reference: u64) -> u64
    ensures { result ≡ parts_of beyond times reference }
{
    match (times, reference) {
        (0, 0) => 0,
        (_, 0) => beyond,
        _ => nearest(times, reference),
    }
}

// The same of an excess taken a thousand times: thousandths; over a reference of 0 any excess is past the
// fourth band.
pub fn thousandths(times: u64, reference: u64) -> u64
    ensures { result ≡ parts_of 501 times reference }
{
    parts_of(501, times, reference)
}

// The band table of document 01, in thousandths. The last row is open above: its edge is not looked at.
pub const BANDS: [Band; 5] = [
    Band {
        edge: 50,
        factor: 0,
    },
    Band {
        edge: 200,
        factor: 13,
    },
    Band {
        edge: 400,
        factor: 15,
    },
    Band {
        edge: 500,
        factor: 17,
    },
    Band {
        edge: 4294967295,
        factor: 20,
    },
];

// The band table of the text of 2015, in hundredths of a percent. Its last row is open above too.
pub const BANDS_2015: [Band; 4] = [
    Band {
        edge: 500,
        factor: 10,
    },
    Band {
        edge: 1000,
        factor: 11,
    },
    Band {
        edge: 2000,
        factor: 12,
    },
    Band {
        edge: 4294967295,
        factor: 15,
    },
];

// The factor that a table gives p: that of the first row whose edge p does not pass, past all others the last
// row's.
pub fn factor_of(table: &[Band], p: u64) -> u8
    ensures { result ≡ factor_of table.now p }
{
    let mut factor = 0;
    for row in table {
        factor = row.factor;
        if p <= row.edge as u64 {
            return factor;
        }
    }
    factor
}

// The factor of p thousandths in the band table of document 01.
#[tactic(auto, unfolding(rules::specs::Bands::band_of, rules::specs::Bands::bands))]
pub fn factor(p: u64) -> u8
    ensures { result ≡ band_of p }
{
    factor_of(&BANDS, p)
}

// The factor of p hundredths of a percent in the band table of the text of 2015. Each table keeps a function
// of its own: who settles names a text and no table.
#[tactic(auto, unfolding(rules::specs::Text2015::bands_2015))]
pub fn factor_2015(p: u64) -> u8
    ensures { result ≡ factor_of bands_2015 p }
{
    factor_of(&BANDS_2015, p)
}
