//! The numbers of commands.
ghost use Rattle.std.specs.Prelude.{◌≡◌, ◌-◌, ◌^◌};

/// The greatest number of a command.
pub const COMMAND_NUMBER_MAX: u64 = (1 << 63) - 1;

/// States the numbers of the log, on which the disks that exist depend. It does nothing.
pub fn log_numbers()
    ensures { COMMAND_NUMBER_MAX ≡ 2 ^ 63 - 1 }
{}
