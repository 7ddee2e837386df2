//! The version of the program.

/// The version of the program, and the line of the kit that proves it, as `rt version` prints it.
pub const VERSION: &str = "0.12.0 (rattle-kit-13f logic dac8208d650f15bf)";
