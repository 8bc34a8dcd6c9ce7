// The corners of the ranges at which a table is judged.

// The highest budgets with the lowest periods, or the lowest budgets with the highest periods.
#[derive(Clone, Copy)]
pub enum Corner {
    Dearest,
    Cheapest,
}
