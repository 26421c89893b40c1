// How many numbers a duplicate window keeps.

/// The numbers up to the greatest mark of which a window still knows each one: all before them count as seen.
pub const WINDOW: usize = 1_024;
