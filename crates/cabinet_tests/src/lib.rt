// Tests of the machine, the ports, the cabinet and the day. Every expected value is worked out by hand.

#![tactic(auto)]

#[cfg(test)]
mod days;
#[cfg(test)]
mod effects;
#[cfg(test)]
mod grants;
#[cfg(test)]
mod loads;
#[cfg(test)]
mod ports;
#[cfg(test)]
mod runs;
#[cfg(test)]
mod samples;
#[cfg(test)]
mod stops;
