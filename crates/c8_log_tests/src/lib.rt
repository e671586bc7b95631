//! The tests of c8_disk and c8_log that no case can be: disks in files of a system that stands in, a disk that lends no
//! bytes, and crashes beside the rule for them.
#![tactic(auto)]

#[cfg(test)]
mod calls;
#[cfg(test)]
mod disk;
#[cfg(test)]
mod file;
#[cfg(test)]
mod texts;
#[cfg(test)]
mod unlent;
