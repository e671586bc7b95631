//! Tests of watching a match that neither a contract nor a script of `c8play sim` covers. The scripts are the cases in
//! cases/ whose names begin with `sim_watch`.
//!
//! c8_spectator: its printed text (`printed`), memory refused (`memory`). c8_watch: `turns`. c8_cast: `casting`.
mod casting;
mod letter;
mod memory;
mod played;
mod printed;
mod turns;
