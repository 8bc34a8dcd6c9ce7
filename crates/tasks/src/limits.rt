// The limits of document 01, "What belongs to it" and "The table as text".

// The most tasks that a table has.
pub const MAX_TASKS: usize = 32;

// The most cores that a machine has.
pub const MAX_CORES: u32 = 16;

// The longest period, and so the largest number of a task.
pub const MAX_PERIOD: u32 = 1_000_000;

// The most bytes that a table's text has.
pub const MAX_TEXT_LENGTH: usize = 4_096;
