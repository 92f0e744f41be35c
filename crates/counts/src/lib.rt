// Refusal 2: counts against their limits, and lengths that are multiples of 3.
#![tactic(auto)]

ghost use Rattle.faults.specs.Counts.{RowsFit, CornersFit, TableFits, CoordinatesFit, CountsFit, CountsFitAt};
ghost use Rattle.refusal.specs.InnerTells.{Tells};

// Inner: whether a table may have so many rows.
pub fn rows_fit(rows: usize) -> bool
    ensures { Tells result (RowsFit rows) (¬ RowsFit rows) }
{
    (surface::LEAST_ROWS..=surface::MOST_ROWS).contains(&rows)
}

// Inner: whether there may be so many corners.
pub fn corners_fit(n: usize) -> bool
    ensures { Tells result (CornersFit n) (¬ CornersFit n) }
{
    (surface::LEAST_CORNERS..=surface::MOST_CORNERS).contains(&n)
}

// Whether a table is made of whole rows, and of as many as it may have.
fn table_fits(t: &[u32]) -> bool
    ensures { Tells result (TableFits t.now) (¬ TableFits t.now) }
{
    t.len() % 3 == 0 && rows_fit(t.len() / 3)
}

// Inner: whether coordinates are those of whole corners, and of as many as there may be.
pub fn coordinates_fit(xs: &[i32]) -> bool
    ensures { Tells result (CoordinatesFit xs.now) (¬ CoordinatesFit xs.now) }
{
    xs.len() % 3 == 0 && corners_fit(xs.len() / 3)
}

// Inner: 2, of a table with a told corner count.
pub fn counts_fit(t: &[u32], n: usize) -> bool
    ensures { Tells result (CountsFit n t.now) (¬ CountsFit n t.now) }
{
    corners_fit(n) && table_fits(t)
}

// Inner: 2, of a table with its coordinates.
pub fn counts_fit_at(t: &[u32], xs: &[i32]) -> bool
    ensures { Tells result (CountsFitAt xs.now t.now) (¬ CountsFitAt xs.now t.now) }
{
    table_fits(t) && coordinates_fit(xs)
}
