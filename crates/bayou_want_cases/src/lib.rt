//! Tests of what tables of scripts and of bytes can't show, of the crates below the program: each allocation refused in turn, single calls of
//! devices, journals and writers, own Writes that are made again, and the numbers of limits. What is expected comes from outside of the program:
//! from literals, from hand, from `sha256sum` and from the pages of docs/.
#![tactic(auto)]

#[cfg(test)]
mod askers;
#[cfg(test)]
mod careful;
#[cfg(test)]
mod counts;
#[cfg(test)]
mod files;
#[cfg(test)]
mod fixtures;
#[cfg(test)]
mod frames;
#[cfg(test)]
mod gates;
#[cfg(test)]
mod keeping;
#[cfg(test)]
mod limits;
#[cfg(test)]
mod logs;
#[cfg(test)]
mod losing;
#[cfg(test)]
mod nodes;
#[cfg(test)]
mod old_journals;
#[cfg(test)]
mod outputs;
#[cfg(test)]
mod pulls;
#[cfg(test)]
mod records;
#[cfg(test)]
mod restore_faults;
#[cfg(test)]
mod restore_memory;
#[cfg(test)]
mod restores;
#[cfg(test)]
mod servers;
#[cfg(test)]
mod sessions;
#[cfg(test)]
mod stores;
#[cfg(test)]
mod tags;
#[cfg(test)]
mod takes;
#[cfg(test)]
mod taking;
#[cfg(test)]
mod together;
