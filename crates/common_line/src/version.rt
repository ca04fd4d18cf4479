//! The version of all programs.

/// The version, and the logic with which it is proved. The second line is worded like the end of the line that
/// `rt --version` prints: `dev/statuses` compares the two. The kit, which `rt --version` prints first, is omitted,
/// since machines may have different kits with the same logic.
pub const VERSION: &str = "\
0.4.0
rattle logic dac8208d650f15bf";
