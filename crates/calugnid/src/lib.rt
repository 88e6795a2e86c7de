// The controller for a board's C or Rust code: functions on numbers and bytes. include/calugnid.h documents them. Calls take and answer what the
// header has: numbers, bytes and lengths. So no enum, Option, Result or struct stands in one, and each has a name of its own.
#![tactic(auto)]

pub mod asked;
pub mod images;
pub mod lists;
pub mod live;
pub mod tables;
pub mod trackballs;
pub mod wire;
