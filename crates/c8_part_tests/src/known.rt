//! The tests of c8_known and c8_roll that no case can be: rolls in random matches, compared with machines that run from
//! the first frame.
mod calls;
mod roll;
