// How many rows there are, before a list is touched.
ghost use Rattle.std.specs.Prelude.{◌≡◌};
ghost use Rattle.format.specs.Parts.{sized};
ghost use Rattle.format.specs.Tables.{rows, table};
ghost use Rattle.reading.specs.Standing.{Known};
ghost use Rattle.entries.specs.Counting.{Counts, four_fit, three_fit};

use tables::finding::behind_table;
use tables::stepping::{Rows, behind, group_step, rows_here};

// The rows of all groups to come.
pub fn rows_in_groups(all: Rows, s: &[u8]) -> usize
    requires { Known (rows (table sized) all.more 0) s.now all.next }
    ensures { Counts s.now all result }
{
    let mut left = all;
    let mut n: usize = 0;
    while let Some((_, place)) = group_step(left, s) {
        let group = rows_here(place, s);
        n += group.more as usize;
        let next = behind_table(place, s);
        left = behind(left, next);
    }
    n
}

// Whether lists of these lengths take so many rows.
pub fn three_fit(n: usize, first: usize, second: usize, third: usize) -> bool
    ensures { result ≡ three_fit n first second third }
{
    (n <= first) & (n <= second) & (n <= third)
}

pub fn four_fit(n: usize, first: usize, second: usize, third: usize, fourth: usize) -> bool
    ensures { result ≡ four_fit n first second third fourth }
{
    (n <= first) & (n <= second) & (n <= third) & (n <= fourth)
}
