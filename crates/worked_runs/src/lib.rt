//! Whole runs that only code can show: over steady devices, with each allocation failing in turn,
//! and with more recipes than stored files would serve; and that two roots are solved beside each
//! other.
//!
//! All other whole runs are scenarios, in the data of `replay_scenarios`.
//! It stands on the top call and the devices. Nothing stands on it.
#![tactic(auto)]

#[cfg(test)]
mod checks;
#[cfg(test)]
mod faults;
#[cfg(test)]
mod packages;
#[cfg(test)]
mod roots;
#[cfg(test)]
mod steady;
