// How much plans, scripts and runs may hold (this project's own rule). `specs/Limits` has the same numbers for contracts.

/// The most objects in a plan, `root` among them.
pub const MAX_OBJECTS: u32 = 1_024;

/// The most blocks in a plan, `main` among them.
pub const MAX_BLOCKS: u32 = 16_385;

/// The most files in a plan.
pub const MAX_FILES: u32 = 64;

/// The most acts in all bodies of a plan together.
pub const MAX_ACTS: u32 = 65_535;

/// The most events in a run.
pub const MAX_EVENTS: u32 = 4_294_967_295;

/// The most workers of a run.
pub const MAX_WORKERS: u32 = 64;

/// The most blocks of an intake.
pub const MAX_INTAKE: u32 = 4_096;

/// The most strips in a plan: as many as numbers count.
pub const MAX_STRIPS: u32 = 4_294_967_295;

/// The most senders of jobs to an intake.
pub const MAX_SENDERS: u32 = 64;

/// The greatest first value of a semaphore, merged value, and number of bytes that come on a feed at once.
pub const MAX_VALUE: u32 = 2_147_483_647;

/// The greatest time, in milliseconds: a day.
pub const MAX_TIME: u32 = 86_400_000;

/// The most bytes in a file.
pub const MAX_FILE_BYTES: u32 = 16_777_216;

/// The most bytes in a script.
pub const MAX_SCRIPT_BYTES: u32 = 1_048_576;

/// The most bytes in a path.
pub const MAX_PATH_BYTES: u32 = 255;

/// The most bytes in a name.
pub const MAX_NAME_BYTES: u32 = 32;

/// The time, in milliseconds, until which timers and limits of waits count where a script does not say.
pub const DEFAULT_UNTIL: u32 = 1_000;
